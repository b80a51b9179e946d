// The interface of a flash part. Whatever stands above a part knows it by `shows` alone.
ghost use Rattle.std.specs.Prelude.{◌≡◌, length};
ghost use Rattle.flash.specs.Part.{Part, Sound, written, erases, page_bytes};
ghost use Rattle.flash.specs.Answers.{program_answer, read_answer, erase_answer, if_accepted, after_program, after_erase};

use crate::refusal::PartRefusal;

pub trait Flash {
    // What the part means now.
    ghost shows: { Self → Part };

    // The number of blocks; every part is well-formed.
    fn blocks(&self) -> usize
        ensures value { result ≡ length (shows self.now).blocks }
        ensures sound { Sound (shows self.now) };

    // The number of pages that a block has room for.
    fn pages_per_block(&self) -> usize
        ensures value { result ≡ (shows self.now).per_block };

    // The number of erases that a block endures.
    fn endurance(&self) -> u32
        ensures value { result ≡ (shows self.now).endurance };

    // The number of pages of the block that are written.
    fn written(&self, block: usize) -> usize
        ensures value { result ≡ written (shows self.now) block };

    // How often the block was erased.
    fn erases(&self, block: usize) -> u32
        ensures value { result ≡ erases (shows self.now) block };

    // A page is named by its block and its place there, as a driver of a part is asked for it.
    fn program(&mut self, block: usize, page: usize, bytes: &[u8; 256]) -> Result<(), PartRefusal>
        ensures answer { result ≡ program_answer (shows self.old) block page }
        ensures after { shows self.new ≡ after_program result (shows self.old) block bytes.now };

    // A driver needs the bus, and a part may keep a record of its reads, hence `&mut`; what it shows stays.
    fn read(&mut self, block: usize, page: usize, buffer: &mut [u8; 256]) -> Result<(), PartRefusal>
        ensures answer { result ≡ read_answer (shows self.old) block page }
        ensures buffer { buffer.new ≡ if_accepted result (page_bytes (shows self.old) block page) buffer.old }
        ensures after { shows self.new ≡ shows self.old };

    fn erase(&mut self, block: usize) -> Result<(), PartRefusal>
        ensures answer { result ≡ erase_answer (shows self.old) block }
        ensures after { shows self.new ≡ after_erase result (shows self.old) block };
}
