// How many pages a block has, and how often it endures being erased.
ghost use Rattle.std.specs.Prelude.{◌≡◌};
ghost use Rattle.memory.specs.Layout.{pages_of, endurance_of};

use flash::{MOST_ENDURANCE, MOST_PAGES_PER_BLOCK};

// The two numbers as they were asked for.
#[derive(Clone, Copy)]
pub(crate) struct Limits {
    pub(crate) pages: usize,
    pub(crate) endurance: u32,
}

impl Limits {
    // The pages of a block, as far as a part may have them.
    pub(crate) fn counted_pages(self) -> usize
        ensures value { result ≡ pages_of self.pages }
    {
        self.pages.clamp(1, MOST_PAGES_PER_BLOCK)
    }

    // The erases that a block endures, as far as a part may last.
    pub(crate) fn counted_endurance(self) -> u32
        ensures value { result ≡ endurance_of self.endurance }
    {
        self.endurance.min(MOST_ENDURANCE)
    }
}
