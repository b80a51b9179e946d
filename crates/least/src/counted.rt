ghost use Rattle.least.specs.Orders.{count_at_most};
ghost use Rattle.std.proofs.Common.{rules};

use crate::order::Order;

// An item and a count of it, such as a block and how often it was erased. Only the count is compared, so two different ones may each be at most the other.
#[derive(Clone, Copy)]
pub struct Counted<T> {
    pub item: T,
    pub count: u32,
}

impl<T> Order for Counted<T> {
    ghost at_most = { count_at_most };

    ghost total = { Prim.search rules };

    ghost transitive = { Prim.search rules };

    fn at_most(&self, other: &Self) -> bool {
        self.count <= other.count
    }
}
