ghost use Rattle.least.specs.Orders.{none_first};
ghost use Rattle.std.proofs.Common.{rules};

use crate::order::Order;

// Nothing comes first, and two records go by their order.
impl<T: Order> Order for Option<T> {
    ghost at_most = { none_first T.at_most };

    ghost total = { Prim.search rules };

    ghost transitive = { Prim.search rules };

    fn at_most(&self, other: &Self) -> bool {
        match (self, other) {
            (None, _) => true,
            (Some(_), None) => false,
            (Some(record), Some(other)) => record.at_most(other),
        }
    }
}
