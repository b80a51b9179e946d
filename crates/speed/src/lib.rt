// What the benchmark calls, under names that a linker sees.
#![tactic(auto)]

ghost use Rattle.std.specs.Prelude.{◌≡◌};
ghost use Rattle.fingerprint.specs.Fletcher.{fletcher_of};
ghost use Rattle.page.specs.Same.{same_bytes};

// Fletcher's number of any run of bytes.
#[unsafe(no_mangle)]
pub extern "C" fn speed_fletcher(bytes: &[u8]) -> u32
    ensures value { result ≡ fletcher_of bytes.now }
{
    fingerprint::fletcher(bytes)
}

// Whether two pages hold the same bytes.
#[unsafe(no_mangle)]
pub extern "C" fn speed_pages_equal(a: &[u8; 256], b: &[u8; 256]) -> bool
    ensures value { result ≡ same_bytes a.now b.now }
{
    page::equal(a, b)
}
