ghost use Rattle.fingerprint.specs.Fletcher.{fletcher_of};

use crate::checksum;
use crate::fingerprint::Fingerprint;

// Two sums modulo 65,535 over the 16-bit little-endian words of a page.
#[derive(Clone, Copy)]
pub struct Fletcher;

impl Fingerprint for Fletcher {
    ghost print = { λ _ bytes. fletcher_of bytes };

    fn of(&self, page: &[u8; 256]) -> u32 {
        checksum::fletcher(page)
    }
}
