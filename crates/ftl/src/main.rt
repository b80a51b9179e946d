// The layer's demonstration: it does one task after the other on parts in memory, and prints what it did.
#![tactic(auto)]

mod blocks;
mod pages;
mod parts;
mod prints;
mod promises;

use memory::MemoryPart;
use pair::Pair;
use std::io;
use window::Window;

// Pages to a block in both memories.
const PAGES: usize = 2;

// Three blocks, of 8 bytes and of 256 bytes a page.
const MEMORY: usize = 3 * (8 + 256 * PAGES);

// Blocks that the window shows.
const BLOCKS: usize = 4;

fn main(rt: HostRuntime) -> io::Result<()> {
    let mut first = [0; MEMORY];
    let mut second = [0; MEMORY];
    let pair = Pair::new(
        MemoryPart::fresh(&mut first, PAGES, 100),
        MemoryPart::fresh(&mut second, PAGES, 50),
    );
    let mut part = Window::new(pair, 1, BLOCKS);
    parts::demonstrate(&rt, &mut part)?;
    prints::demonstrate(&rt)?;
    promises::demonstrate(&rt)
}
