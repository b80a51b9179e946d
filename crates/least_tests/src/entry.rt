ghost use Rattle.least.specs.Least.{LeastOrNone};
ghost use Rattle.least_tests.specs.Orders.{colder, held_colder};
ghost use Rattle.std.proofs.Common.{rules};

use least::{Order, least};

// A held entry of a store: its heat and the time of its last use. The heat decides, and between equal heats the time.
#[derive(Clone, Copy, PartialEq, Eq, PartialOrd, Ord)]
pub struct Held {
    pub heat: u8,
    pub used: u64,
}

impl Order for Held {
    ghost at_most = { held_colder };

    ghost total = { Prim.search rules };

    ghost transitive = { Prim.search rules };

    fn at_most(&self, other: &Self) -> bool {
        self <= other
    }
}

// An entry of a store: none where it is free, which comes first, or held.
pub type Entry = Option<Held>;

// The place of a coldest entry, or none where there are no entries: the search, by this order's name.
pub fn coldest(entries: &[Entry]) -> Option<usize>
    ensures answer { LeastOrNone colder entries.now result }
{
    least(entries)
}
