ghost use Rattle.std.specs.Prelude.{◌≡◌, ℕ, List};

// A fingerprint gives each page of 256 bytes a number of 32 bits. The same bytes give the same number each time, it never refuses,
// and different bytes may share a number. Code above uses nothing else of it.
pub trait Fingerprint {
    // the number of a page's bytes
    ghost print: { Self → List ℕ → ℕ };

    fn of(&self, page: &[u8; 256]) -> u32
        ensures value { result ≡ print self.now page.now };
}
