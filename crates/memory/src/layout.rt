// Where the blocks of a part lie in its memory: each has a record of two counts and its pages, one record after another.
ghost use Rattle.std.specs.Prelude.{◌≡◌, ◌+◌, ◌<◌, ◌≤◌, length, take, drop, IfOk, IfSome, IsOkUnless};
ghost use Rattle.std.specs.Option.{SomeIff};
ghost use Rattle.std.specs.Result.{OkIff};
ghost use Rattle.flash.specs.declared.refusal.PartRefusal.TheVariants.{NoSuchPage};
ghost use Rattle.memory.specs.Layout.{pages_of, record_size, record_count, record_at};
ghost use Rattle.memory.specs.Memory.{shown_by, made_fresh};

use crate::memory_part::MemoryPart;
use flash::{Flash, MOST_BLOCKS, PartRefusal};

// The bytes before a record's pages.
pub(crate) const HEADER: usize = 8;

// The bytes of the written count, which begins a record.
pub(crate) const WRITTEN: usize = 2;

// Where the erase count stands in a record.
pub(crate) const ERASES: usize = 4;

pub(crate) const PAGE: usize = 256;

// What an erased byte reads as.
pub(crate) const ERASED: u8 = 255;

impl<'a> MemoryPart<'a> {
    // The bytes of a record.
    pub(crate) fn record_size(&self) -> usize
        ensures value { result ≡ record_size (pages_of self.now.limits.pages) }
    {
        HEADER + PAGE * self.limits.counted_pages()
    }

    // How many whole records the memory holds, up to the most that count.
    pub(crate) fn record_count(&self) -> usize
        ensures value { result ≡ record_count self.now.bytes.now (pages_of self.now.limits.pages) }
    {
        (self.bytes.len() / self.record_size()).min(MOST_BLOCKS)
    }

    // Where the record of the block begins, if there is one. With `then` the proof did not close.
    #[tactic(auto, using(crate::proofs::Shown::record_shown))]
    pub(crate) fn record(&self, block: usize) -> Option<usize>
        ensures place { SomeIff result (block < length (shown_by self.now).blocks) (record_at (pages_of self.now.limits.pages) block) }
        ensures within { IfSome result (λ at. at + record_size (pages_of self.now.limits.pages) ≤ length self.now.bytes.now) }
    {
        if block < self.blocks() {
            Some(block * self.record_size())
        } else {
            None
        }
    }

    // Where the record of the block begins, if it has the page. With `filter` the proof did not close.
    pub(crate) fn record_with_page(&self, block: usize, page: usize) -> Result<usize, PartRefusal>
        ensures place { OkIff result ((block < length (shown_by self.now).blocks) × (page < (shown_by self.now).per_block)) (record_at (pages_of self.now.limits.pages) block) }
        ensures within { IfOk result (λ at. at + record_size (pages_of self.now.limits.pages) ≤ length self.now.bytes.now) }
        ensures refusal { IsOkUnless result NoSuchPage }
    {
        match self.record(block) {
            Some(record) if page < self.limits.counted_pages() => Ok(record),
            _ => Err(PartRefusal::NoSuchPage),
        }
    }

    // The N bytes from `at` on.
    pub(crate) fn bytes_at<const N: usize>(&self, at: usize) -> [u8; N]
        requires within { at + N ≤ length self.now.bytes.now }
        ensures value { result ≡ take N (drop at self.now.bytes.now) }
    {
        *self.bytes[at..].first_chunk().unwrap()
    }

    // Makes every record that of a block never written nor erased.
    pub(crate) fn make_fresh(&mut self)
        ensures bytes { self.new.bytes.now ≡ made_fresh self.old.bytes.now (pages_of self.old.limits.pages) }
        ensures limits { self.new.limits ≡ self.old.limits }
    {
        let size = self.record_size();
        let count = self.record_count();
        let bytes = &mut *self.bytes;
        // By number: after `chunks_exact_mut` a proof would know how long the memory is, and none of its bytes.
        for block in 0..count {
            let record = block * size;
            bytes[record..record + HEADER].fill(0);
            bytes[record + HEADER..record + size].fill(ERASED);
        }
    }
}
