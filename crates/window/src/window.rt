// The window itself. It adds to the block number, and checks that the block is one it shows.
ghost use Rattle.std.specs.Prelude.{◌≡◌, ◌+◌, ◌≤◌, length};
ghost use Rattle.flash.specs.Part.{Sound, page_bytes};
ghost use Rattle.flash.specs.Answers.{program_answer, read_answer, erase_answer, if_accepted, after_program, after_erase};

use flash::{Flash, PartRefusal};

#[derive(Drop)]
pub struct Window<F> {
    below: F,
    hidden: usize,
    count: usize,
}

impl<F: Flash> Window<F> {
    ghost use Rattle.window.specs.Shown.{shown, Beneath};

    // Hides the first `hidden` blocks of the part and shows the next `count`, as far as they exist.
    pub fn new(below: F, hidden: usize, count: usize) -> Self
        ensures below { result.below ≡ below }
        ensures hidden { result.hidden ≡ hidden }
        ensures count { result.count ≡ count }
    {
        Window {
            below,
            hidden,
            count,
        }
    }

    // The part below, as it now is.
    pub fn into_below(self) -> F
        ensures value { result ≡ self.below }
    {
        self.below
    }

    // How many blocks it shows.
    fn shown_blocks(&self) -> usize
        ensures value { result ≡ length (shown F.shows self.now).blocks }
        ensures sound { Sound (shown F.shows self.now) }
        ensures fits { self.now.hidden + result ≤ usize.MAX }
    {
        self.below
            .blocks()
            .saturating_sub(self.hidden)
            .min(self.count)
    }

    // The block's number below, if it is shown.
    fn beneath(&self, block: usize) -> Option<usize>
        ensures found { Beneath (shown F.shows self.now) self.now.hidden block result }
    {
        (block < self.shown_blocks()).then(|| self.hidden + block)
    }
}

impl<F: Flash> Flash for Window<F> {
    ghost use Rattle.window.specs.Shown.{shown};

    ghost shows = { shown F.shows };

    fn blocks(&self) -> usize {
        self.shown_blocks()
    }

    fn pages_per_block(&self) -> usize {
        self.below.pages_per_block()
    }

    fn endurance(&self) -> u32 {
        self.below.endurance()
    }

    fn written(&self, block: usize) -> usize {
        self.beneath(block)
            .map_or(0, |under| self.below.written(under))
    }

    fn erases(&self, block: usize) -> u32 {
        self.beneath(block)
            .map_or(0, |under| self.below.erases(under))
    }

    // `stays` says that no call, and no refusal, moves the window; it stands on each call, as what is shown does not fix the two
    // numbers. `below` says what the hidden blocks are afterwards: untouched,
    // as only the one block below changes.
    #[tactic(auto, using(crate::proofs::Seen::seen_appended))]
    fn program(&mut self, block: usize, page: usize, bytes: &[u8; 256]) -> Result<(), PartRefusal>
        ensures answer { result ≡ program_answer (shown F.shows self.old) block page }
        ensures after { shown F.shows self.new ≡ after_program result (shown F.shows self.old) block bytes.now }
        ensures stays { self.new ≡ record self.old { below = self.new.below } }
        ensures below { F.shows self.new.below ≡ after_program result (F.shows self.old.below) (self.old.hidden + block) bytes.now }
    {
        let under = self.beneath(block).ok_or(PartRefusal::NoSuchPage)?;
        self.below.program(under, page, bytes)
    }

    fn read(&mut self, block: usize, page: usize, buffer: &mut [u8; 256]) -> Result<(), PartRefusal>
        ensures answer { result ≡ read_answer (shown F.shows self.old) block page }
        ensures buffer { buffer.new ≡ if_accepted result (page_bytes (shown F.shows self.old) block page) buffer.old }
        ensures after { shown F.shows self.new ≡ shown F.shows self.old }
        ensures stays { self.new ≡ record self.old { below = self.new.below } }
        ensures below { F.shows self.new.below ≡ F.shows self.old.below }
    {
        let under = self.beneath(block).ok_or(PartRefusal::NoSuchPage)?;
        self.below.read(under, page, buffer)
    }

    #[tactic(auto, using(crate::proofs::Seen::seen_erased))]
    fn erase(&mut self, block: usize) -> Result<(), PartRefusal>
        ensures answer { result ≡ erase_answer (shown F.shows self.old) block }
        ensures after { shown F.shows self.new ≡ after_erase result (shown F.shows self.old) block }
        ensures stays { self.new ≡ record self.old { below = self.new.below } }
        ensures below { F.shows self.new.below ≡ after_erase result (F.shows self.old.below) (self.old.hidden + block) }
    {
        let under = self.beneath(block).ok_or(PartRefusal::NoSuchPage)?;
        self.below.erase(under)
    }
}
