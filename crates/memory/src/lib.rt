// A flash part in the caller's memory.
#![tactic(auto)]

mod layout;
mod limits;
mod memory_part;

pub use memory_part::MemoryPart;
