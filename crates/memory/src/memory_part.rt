// A part in memory that the caller lends and gets back.
ghost use Rattle.std.specs.Prelude.{◌≡◌};
ghost use Rattle.memory.specs.Layout.{pages_of, endurance_of, record_count};

use crate::layout::{ERASED, ERASES, HEADER, PAGE, WRITTEN};
use crate::limits::Limits;
use flash::{Flash, PartRefusal};

// Holds the numbers that it was asked for, and brings them within their limits where they are read. With a ghost field for them beside the
// `&mut`, code that takes a part by value to call it or to pass it on, or has two in an array, would get no proof.
#[derive(Drop)]
pub struct MemoryPart<'a> {
    pub(crate) bytes: &'a mut [u8],
    pub(crate) limits: Limits,
}

impl<'a> MemoryPart<'a> {
    ghost use Rattle.memory.specs.Memory.{shown_by, memory_of, made_fresh, clean_part};

    // Makes the memory a part with no page written and no block erased.
    #[tactic(auto, using(crate::proofs::Clean::shown_clean))]
    pub fn fresh(bytes: &'a mut [u8], pages: usize, endurance: u32) -> Self
        ensures bytes { result.bytes.now ≡ made_fresh bytes.old (pages_of pages) }
        ensures pages { result.limits.pages ≡ pages }
        ensures endurance { result.limits.endurance ≡ endurance }
        ensures clean { shown_by result ≡ clean_part (record_count bytes.old (pages_of pages)) (pages_of pages) (endurance_of endurance) }
    {
        let mut part = Self::attach(bytes, pages, endurance);
        part.make_fresh();
        part
    }

    // Takes the memory as the part that it already holds.
    pub fn attach(bytes: &'a mut [u8], pages: usize, endurance: u32) -> Self
        ensures bytes { result.bytes.now ≡ bytes.old }
        ensures pages { result.limits.pages ≡ pages }
        ensures endurance { result.limits.endurance ≡ endurance }
        ensures shown { shown_by result ≡ memory_of bytes.old pages endurance }
    {
        MemoryPart {
            bytes,
            limits: Limits { pages, endurance },
        }
    }

    // Gives the memory back, as it now is.
    pub fn into_bytes(self) -> &'a mut [u8]
        ensures bytes { result.now ≡ self.entry.bytes.now }
    {
        self.bytes
    }
}

impl<'a> Flash for MemoryPart<'a> {
    ghost use Rattle.flash.specs.Part.{page_bytes};
    ghost use Rattle.flash.specs.Answers.{program_answer, read_answer, erase_answer, if_accepted, after_program, after_erase};
    ghost use Rattle.memory.specs.Memory.{shown_by, page_programmed, wiped};

    ghost shows = { shown_by };

    #[tactic(auto, using(crate::proofs::Shown::shown_count))]
    fn blocks(&self) -> usize {
        self.record_count()
    }

    fn pages_per_block(&self) -> usize {
        self.limits.counted_pages()
    }

    fn endurance(&self) -> u32 {
        self.limits.counted_endurance()
    }

    // Here and in `erases` the proof did not close with `map_or`.
    #[tactic(auto, using(crate::proofs::Shown::read_written))]
    fn written(&self, block: usize) -> usize {
        let Some(record) = self.record(block) else {
            return 0;
        };
        usize::from(u16::from_le_bytes(self.bytes_at(record))).min(self.limits.counted_pages())
    }

    #[tactic(auto, using(crate::proofs::Shown::read_erases))]
    fn erases(&self, block: usize) -> u32 {
        let Some(record) = self.record(block) else {
            return 0;
        };
        u32::from_le_bytes(self.bytes_at(record + ERASES)).min(self.limits.counted_endurance())
    }

    // `limits` says that the numbers asked for stay; it stands on each call, as what is shown has them only within their limits.
    fn program(&mut self, block: usize, page: usize, bytes: &[u8; 256]) -> Result<(), PartRefusal>
        ensures answer { result ≡ program_answer (shown_by self.old) block page }
        ensures after { shown_by self.new ≡ after_program result (shown_by self.old) block bytes.now }
        ensures memory { self.new.bytes.now ≡ if_accepted result (page_programmed self.old.bytes.now (pages_of self.old.limits.pages) block page bytes.now) self.old.bytes.now }
        ensures limits { self.new.limits ≡ self.old.limits }
    {
        let record = self.record_with_page(block, page)?;
        if page != self.written(block) {
            return Err(PartRefusal::NotNextPage);
        }
        let at = record + HEADER + PAGE * page;
        self.bytes[at..at + PAGE].copy_from_slice(bytes);
        self.bytes[record..record + WRITTEN].copy_from_slice(&(page as u16 + 1).to_le_bytes());
        Ok(())
    }

    #[tactic(auto, using(crate::proofs::Shown::read_content))]
    fn read(&mut self, block: usize, page: usize, buffer: &mut [u8; 256]) -> Result<(), PartRefusal>
        ensures answer { result ≡ read_answer (shown_by self.old) block page }
        ensures buffer { buffer.new ≡ if_accepted result (page_bytes (shown_by self.old) block page) buffer.old }
        ensures after { shown_by self.new ≡ shown_by self.old }
        ensures memory { self.new.bytes.now ≡ self.old.bytes.now }
        ensures limits { self.new.limits ≡ self.old.limits }
    {
        let record = self.record_with_page(block, page)?;
        if page >= self.written(block) {
            return Err(PartRefusal::Unwritten);
        }
        *buffer = self.bytes_at(record + HEADER + PAGE * page);
        Ok(())
    }

    fn erase(&mut self, block: usize) -> Result<(), PartRefusal>
        ensures answer { result ≡ erase_answer (shown_by self.old) block }
        ensures after { shown_by self.new ≡ after_erase result (shown_by self.old) block }
        ensures memory { self.new.bytes.now ≡ if_accepted result (wiped self.old.bytes.now (pages_of self.old.limits.pages) block) self.old.bytes.now }
        ensures limits { self.new.limits ≡ self.old.limits }
    {
        let record = self.record(block).ok_or(PartRefusal::NoSuchPage)?;
        let erases = self.erases(block);
        if erases >= self.limits.counted_endurance() {
            return Err(PartRefusal::EnduranceReached);
        }
        let end = record + self.record_size();
        self.bytes[record + HEADER..end].fill(ERASED);
        self.bytes[record..record + WRITTEN].fill(0);
        self.bytes[record + ERASES..record + HEADER].copy_from_slice(&(erases + 1).to_le_bytes());
        Ok(())
    }
}
