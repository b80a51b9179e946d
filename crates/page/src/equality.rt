ghost use Rattle.std.specs.Prelude.{◌≡◌, true, false, ◌≢◌};
ghost use Rattle.page.specs.Same.{same_bytes};

// The bytes that a turn compares, with no branch between them.
const STRIDE: usize = 8;

// Whether two pages hold the same 256 bytes, each byte at the same place. It stops at the first turn that finds a difference.
// By index, and not by `==`: which bytes are compared is to be read here, since the layer stands on it.
#[tactic(auto, using(crate::proofs::Same::same_decides, crate::proofs::Same::same_from_agree))]
pub fn equal(a: &[u8; 256], b: &[u8; 256]) -> bool
    ensures value { result ≡ same_bytes a.now b.now }
    ensures same { result ≡ true → a.now ≡ b.now }
    ensures different { result ≡ false → a.now ≢ b.now }
{
    for i in (0..256).step_by(STRIDE) {
        let first = (a[i] == b[i]) & (a[i + 1] == b[i + 1]);
        let second = (a[i + 2] == b[i + 2]) & (a[i + 3] == b[i + 3]);
        let third = (a[i + 4] == b[i + 4]) & (a[i + 5] == b[i + 5]);
        let fourth = (a[i + 6] == b[i + 6]) & (a[i + 7] == b[i + 7]);
        if !(first & second & (third & fourth)) {
            return false;
        }
    }
    true
}
