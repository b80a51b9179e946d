ghost use Rattle.least.specs.Least.{LeastOrNone};

use crate::order::Order;

// The place of a least record, or none where there are no records. A later record takes the place only if it is below the best so far.
pub fn least<T: Order>(records: &[T]) -> Option<usize>
    ensures answer { LeastOrNone T.at_most records.now result }
{
    records
        .iter()
        .enumerate()
        .reduce(|best, later| if best.1.at_most(later.1) { best } else { later })
        .map(|(place, _)| place)
}
