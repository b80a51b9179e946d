ghost use Rattle.fingerprint.specs.Sample.{sample_of};

use crate::fingerprint::Fingerprint;

// The first four bytes of a page, the first one highest.
#[derive(Clone, Copy)]
pub struct Sample;

impl Fingerprint for Sample {
    ghost print = { λ _ bytes. sample_of bytes };

    fn of(&self, page: &[u8; 256]) -> u32 {
        u32::from_be_bytes(*page.first_chunk::<4>().unwrap())
    }
}
