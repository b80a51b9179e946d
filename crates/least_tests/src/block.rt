ghost use Rattle.least.specs.Least.{LeastOrNone};
ghost use Rattle.least_tests.specs.Orders.{less_erased};

use least::{Counted, least};

// A block by its number, and how often it was erased.
pub type Block = Counted<u16>;

// The place of a least erased block, or none where there are no blocks: the search, by this order's name.
pub fn least_erased(blocks: &[Block]) -> Option<usize>
    ensures answer { LeastOrNone less_erased blocks.now result }
{
    least(blocks)
}
