// The pair itself. It finds the part that has the block, and lowers both parts to the smaller endurance.
ghost use Rattle.std.specs.Prelude.{◌≡◌, length};
ghost use Rattle.flash.specs.Part.{Sound, page_bytes};
ghost use Rattle.flash.specs.Answers.{program_answer, read_answer, erase_answer, if_accepted, after_program, after_erase};

use crate::place::Place;
use flash::{Flash, MOST_BLOCKS, PartRefusal};

#[derive(Drop)]
pub struct Pair<F, G> {
    first: F,
    second: G,
}

impl<F: Flash, G: Flash> Pair<F, G> {
    ghost use Rattle.pair.specs.Shown.{counted, shown_count, Located};

    // Shows the blocks of `first`, then those of `second`, up to 255 in all.
    pub fn new(first: F, second: G) -> Self
        ensures first { result.first ≡ first }
        ensures second { result.second ≡ second }
    {
        Pair { first, second }
    }

    // The two parts, as they now are.
    pub fn into_parts(self) -> (F, G)
        ensures first { result.0 ≡ self.first }
        ensures second { result.1 ≡ self.second }
    {
        (self.first, self.second)
    }

    // How many blocks of the second part count: none if its blocks have another number of pages.
    fn counted_blocks(&self) -> usize
        ensures value { result ≡ length (counted (F.shows self.now.first) (G.shows self.now.second)) }
        ensures sound { Sound (G.shows self.now.second) }
    {
        let blocks = self.second.blocks();
        if self.first.pages_per_block() == self.second.pages_per_block() {
            blocks
        } else {
            0
        }
    }

    // How many blocks the pair shows.
    fn shown_blocks(&self) -> usize
        ensures value { result ≡ shown_count (F.shows self.now.first) (G.shows self.now.second) }
        ensures first { Sound (F.shows self.now.first) }
        ensures second { Sound (G.shows self.now.second) }
    {
        self.first
            .blocks()
            .saturating_add(self.counted_blocks())
            .min(MOST_BLOCKS)
    }

    // Where the block stands, if the pair shows it.
    #[tactic(auto, using(crate::proofs::Sides::pair_count))]
    fn place(&self, block: usize) -> Option<Place>
        ensures found { Located (F.shows self.now.first) (G.shows self.now.second) block result }
    {
        let shown = self.shown_blocks();
        let before = self.first.blocks();
        if block >= shown {
            None
        } else if block < before {
            Some(Place::First(block))
        } else {
            Some(Place::Second(block - before))
        }
    }
}

impl<F: Flash, G: Flash> Flash for Pair<F, G> {
    ghost use Rattle.pair.specs.Shown.{shown, first_after_program, second_after_program, first_after_erase, second_after_erase};

    ghost shows = { shown F.shows G.shows };

    #[tactic(auto, using(crate::proofs::Sides::pair_count, crate::proofs::Sides::pair_sound))]
    fn blocks(&self) -> usize {
        self.shown_blocks()
    }

    #[tactic(auto, using(crate::proofs::Sides::pair_per_block))]
    fn pages_per_block(&self) -> usize {
        self.first.pages_per_block()
    }

    #[tactic(auto, using(crate::proofs::Sides::pair_endurance))]
    fn endurance(&self) -> u32 {
        self.first.endurance().min(self.second.endurance())
    }

    #[tactic(auto, using(crate::proofs::Calls::query_steps))]
    fn written(&self, block: usize) -> usize {
        match self.place(block) {
            Some(Place::First(under)) => self.first.written(under),
            Some(Place::Second(under)) => self.second.written(under),
            None => 0,
        }
    }

    #[tactic(auto, using(crate::proofs::Calls::query_steps))]
    fn erases(&self, block: usize) -> u32 {
        let own = match self.place(block) {
            Some(Place::First(under)) => self.first.erases(under),
            Some(Place::Second(under)) => self.second.erases(under),
            None => return 0,
        };
        own.min(self.endurance())
    }

    // `first` and `second` say what the two parts show afterwards, also of blocks that the pair does not show: only the one block's part changes.
    #[tactic(auto, using(crate::proofs::Calls::page_steps))]
    fn program(&mut self, block: usize, page: usize, bytes: &[u8; 256]) -> Result<(), PartRefusal>
        ensures answer { result ≡ program_answer (shown F.shows G.shows self.old) block page }
        ensures after { shown F.shows G.shows self.new ≡ after_program result (shown F.shows G.shows self.old) block bytes.now }
        ensures first { F.shows self.new.first ≡ first_after_program (F.shows self.old.first) block result bytes.now }
        ensures second { G.shows self.new.second ≡ second_after_program (F.shows self.old.first) (G.shows self.old.second) block result bytes.now }
    {
        match self.place(block).ok_or(PartRefusal::NoSuchPage)? {
            Place::First(under) => self.first.program(under, page, bytes),
            Place::Second(under) => self.second.program(under, page, bytes),
        }
    }

    #[tactic(auto, using(crate::proofs::Calls::page_steps))]
    fn read(&mut self, block: usize, page: usize, buffer: &mut [u8; 256]) -> Result<(), PartRefusal>
        ensures answer { result ≡ read_answer (shown F.shows G.shows self.old) block page }
        ensures buffer { buffer.new ≡ if_accepted result (page_bytes (shown F.shows G.shows self.old) block page) buffer.old }
        ensures after { shown F.shows G.shows self.new ≡ shown F.shows G.shows self.old }
        ensures first { F.shows self.new.first ≡ F.shows self.old.first }
        ensures second { G.shows self.new.second ≡ G.shows self.old.second }
    {
        match self.place(block).ok_or(PartRefusal::NoSuchPage)? {
            Place::First(under) => self.first.read(under, page, buffer),
            Place::Second(under) => self.second.read(under, page, buffer),
        }
    }

    #[tactic(auto, using(crate::proofs::Calls::erase_steps))]
    fn erase(&mut self, block: usize) -> Result<(), PartRefusal>
        ensures answer { result ≡ erase_answer (shown F.shows G.shows self.old) block }
        ensures after { shown F.shows G.shows self.new ≡ after_erase result (shown F.shows G.shows self.old) block }
        ensures first { F.shows self.new.first ≡ first_after_erase (F.shows self.old.first) block result }
        ensures second { G.shows self.new.second ≡ second_after_erase (F.shows self.old.first) (G.shows self.old.second) block result }
    {
        let place = self.place(block).ok_or(PartRefusal::NoSuchPage)?;
        let limit = self.endurance();
        // The count of the block's own part: the pair's `erases` would look the block up again.
        match place {
            Place::First(under) if self.first.erases(under) < limit => self.first.erase(under),
            Place::Second(under) if self.second.erases(under) < limit => self.second.erase(under),
            _ => Err(PartRefusal::EnduranceReached),
        }
    }
}
