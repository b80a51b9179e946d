// Two record kinds of different shape that join the search for a least record, a search of each kind, and tests.
#![tactic(auto)]

mod block;
mod entry;
#[cfg(test)]
mod tests;

pub use block::{Block, least_erased};
pub use entry::{Entry, Held, coldest};
