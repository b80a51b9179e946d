// How large the parts here may be, and a part that the layer takes; one of another make may have more blocks or larger ones.

// The most blocks of a memory part or a pair, and of a part that the layer takes.
pub const MOST_BLOCKS: usize = 255;

// The most pages of a block of such a part.
pub const MOST_PAGES_PER_BLOCK: usize = 64;

// The most erases that a block of any part endures.
pub const MOST_ENDURANCE: u32 = 1_000_000;
