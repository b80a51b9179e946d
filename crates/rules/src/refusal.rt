// Why the layer refuses a call, with the number that stands for each reason.
ghost use Rattle.std.specs.Prelude.{◌≡◌};
ghost use Rattle.rules.specs.Numbers.{refusal_number};

#[derive(Clone, Copy, PartialEq, Eq, Debug)]
pub enum Refusal {
    // Not 2 to 255 blocks, not 1 to 64 pages a block, or more than 4,095 flash pages.
    Geometry = 1,
    // Not 1 to (blocks - 1) * pages per block - 1 host pages.
    HostPages = 2,
    // Every block that would have to be erased has been erased as often as it endures.
    WornOut = 3,
    // There is no such host page.
    NoSuchPage = 4,
    // The page or the buffer is not 256 bytes long.
    Length = 5,
    // The host page is empty.
    Empty = 6,
    // No closed block has a dead page.
    NothingToCollect = 7,
    // The buffer is shorter than the image.
    ShortBuffer = 8,
    // The image is no positive multiple of 512 bytes, or not as long as its head says.
    ImageLength = 9,
    // An image block's check number is wrong.
    BlockCheck = 10,
    // An image block has a wrong kind, a second byte that is not zero, or a wrong place.
    BlockHead = 11,
    // A word of the image is out of its range.
    WordRange = 12,
    // A word of the image differs from what the flash shows.
    FlashDiffers = 13,
    // The image's words contradict each other or name an unwritten page.
    Contradiction = 14,
    // The flash has no clean block, or two part-written ones.
    FlashState = 15,
    // There is no memory for the tables.
    NoMemory = 255,
}

impl Refusal {
    // The number that stands for the reason. Only an enum itself can be cast, so each has this line; by name, as `u8::from` would not say which number.
    pub fn number(self) -> u8
        ensures value { result ≡ refusal_number self }
    {
        self as u8
    }
}
