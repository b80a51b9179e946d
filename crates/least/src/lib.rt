// The one search for a least record, over any record kind that has a total order.
#![tactic(auto)]

mod counted;
mod option;
mod order;
mod search;

pub use counted::Counted;
pub use order::Order;
pub use search::least;
