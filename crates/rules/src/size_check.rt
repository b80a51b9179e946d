// Whether a part's geometry and a number of host pages are ones that the layer takes.
ghost use Rattle.std.specs.Prelude.{◌≡◌};
ghost use Rattle.rules.specs.Making.{size_refusal, sizes_answer};

use crate::refusal::Refusal;
use flash::{MOST_BLOCKS, MOST_PAGES_PER_BLOCK};

// The most flash pages: one value of a mapping word, 4,095, means "no page".
pub const MOST_FLASH_PAGES: usize = 4095;

// Refuses with 1, then with 2.
pub fn check_sizes(blocks: usize, pages_per_block: usize, host_pages: usize) -> Result<(), Refusal>
    ensures value { sizes_answer result ≡ size_refusal blocks pages_per_block host_pages }
{
    if !(2..=MOST_BLOCKS).contains(&blocks)
        || !(1..=MOST_PAGES_PER_BLOCK).contains(&pages_per_block)
        || blocks * pages_per_block > MOST_FLASH_PAGES
    {
        return Err(Refusal::Geometry);
    }
    if !(1..(blocks - 1) * pages_per_block).contains(&host_pages) {
        return Err(Refusal::HostPages);
    }
    Ok(())
}
