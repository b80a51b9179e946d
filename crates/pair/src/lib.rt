// Two parts as one: the blocks of the first, then those of the second.
#![tactic(auto)]

mod pair;
mod place;

pub use pair::Pair;
