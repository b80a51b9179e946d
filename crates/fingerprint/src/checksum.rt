ghost use Rattle.std.specs.Prelude.{◌≡◌};
ghost use Rattle.fingerprint.specs.Fletcher.{fletcher_of};

use crate::sums::{BLOCK, Sums};

// Fletcher's number of any run of bytes. An odd last byte counts as a word whose high byte is zero.
pub fn fletcher(bytes: &[u8]) -> u32
    ensures value { result ≡ fletcher_of bytes.now }
{
    let (words, odd) = bytes.split_at(bytes.len() - bytes.len() % 2);
    let mut sums = Sums::new();
    for block in words.chunks(BLOCK) {
        sums = sums.after_block(block);
    }
    if let [last] = odd {
        sums = sums.after_word(u16::from(*last));
    }
    u32::from(sums)
}
