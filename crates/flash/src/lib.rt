// What a flash part means, and the interface that every part has.
#![tactic(auto)]

mod flash;
mod laws;
mod limits;
mod refusal;

pub use flash::Flash;
pub use laws::laws_hold;
pub use limits::{MOST_BLOCKS, MOST_ENDURANCE, MOST_PAGES_PER_BLOCK};
pub use refusal::PartRefusal;
