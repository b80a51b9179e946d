// Fingerprints of pages: an interface, and two kinds of it.
#![tactic(auto)]

mod checksum;
mod examples;
mod fingerprint;
mod fletcher_kind;
mod sample;
mod sums;

pub use checksum::fletcher;
pub use examples::worked_examples;
pub use fingerprint::Fingerprint;
pub use fletcher_kind::Fletcher;
pub use sample::Sample;
