ghost use Rattle.std.specs.Prelude.{◌≡◌, true, ◌==◌};

use fingerprint::Fingerprint;

// Whether two pages share a number, under any fingerprint: equal pages always do, and different ones may.
pub fn share_a_number<F: Fingerprint>(kind: &F, a: &[u8; 256], b: &[u8; 256]) -> bool
    ensures value { result ≡ (F.print kind.now a.now == F.print kind.now b.now) }
    ensures same { a.now ≡ b.now → result ≡ true }
{
    kind.of(a) == kind.of(b)
}
