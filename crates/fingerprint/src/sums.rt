ghost use Rattle.std.specs.Prelude.{◌≡◌, ℕ, List, ◌+◌, ◌*◌, ◌%◌, ◌<◌, ◌≤◌, ◌++◌, length};
ghost use Rattle.fingerprint.specs.Fletcher.{words_of, fletcher_from};

// What the sums are reduced by.
const MODULUS: u64 = 65_535;

// The most bytes that are summed before the sums are reduced: few enough that neither sum passes 64 bits.
pub const BLOCK: usize = 65_536;

// The two running sums, each below the modulus.
#[derive(Clone, Copy)]
pub struct Sums {
    pub a: u64,
    pub b: u64,
    ghost a_reduced: { a < 65535 },
    ghost b_reduced: { b < 65535 },
}

impl Sums {
    // Before the first word both sums are zero.
    pub(crate) fn new() -> Sums
        ensures low { result.a ≡ 0 }
        ensures high { result.b ≡ 0 }
    {
        Sums { a: 0, b: 0 }
    }

    // The sums after the words of a block, the low byte of each first. A reduction at every word is slow, so there is one at the end.
    #[tactic(auto, using(crate::proofs::Words::word_more))]
    pub(crate) fn after_block(self, block: &[u8]) -> Sums
        requires whole { length block.now % 2 ≡ 0 }
        requires short { length block.now ≤ BLOCK }
        ensures sums { (more : List ℕ) → fletcher_from result.a result.b (words_of more) ≡ fletcher_from self.a self.b (words_of (block.now ++ more)) }
    {
        let mut a = self.a;
        let mut b = self.b;
        // By index, as pages are compared: which bytes make a word is to be read here.
        for place in 0..block.len() / 2 {
            let word = u16::from_le_bytes([block[2 * place], block[2 * place + 1]]);
            a += u64::from(word);
            b += a;
        }
        Sums {
            a: a % MODULUS,
            b: b % MODULUS,
        }
    }

    // The sums after one more word.
    pub(crate) fn after_word(self, word: u16) -> Sums
        ensures low { result.a ≡ (self.a + word) % 65535 }
        ensures high { result.b ≡ (self.b + (self.a + word) % 65535) % 65535 }
    {
        let a = (self.a + u64::from(word)) % MODULUS;
        let b = (self.b + a) % MODULUS;
        Sums { a, b }
    }
}

// The second sum is the high half of the number.
impl From<Sums> for u32 {
    ghost from_gives = { λ sums number. number ≡ sums.b * 65536 + sums.a };

    fn from(sums: Sums) -> u32 {
        sums.b as u32 * 65_536 + sums.a as u32
    }
}
