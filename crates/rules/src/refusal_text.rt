// A refusal in words, for a person.
ghost use Rattle.std.specs.Prelude.{◌≡◌, Some};
ghost use Rattle.rules.specs.Words.{refusal_words, refusal_text};

use crate::refusal::Refusal;
use std::fmt;

impl Refusal {
    // The reason in words.
    pub fn words(self) -> &'static str
        ensures value { result.now ≡ refusal_words self }
    {
        match self {
            Refusal::Geometry => "geometry",
            Refusal::HostPages => "number of host pages",
            Refusal::WornOut => "worn out",
            Refusal::NoSuchPage => "no such host page",
            Refusal::Length => "not 256 bytes",
            Refusal::Empty => "empty page",
            Refusal::NothingToCollect => "nothing to collect",
            Refusal::ShortBuffer => "buffer shorter than the image",
            Refusal::ImageLength => "image length",
            Refusal::BlockCheck => "check of an image block",
            Refusal::BlockHead => "kind or place of an image block",
            Refusal::WordRange => "word out of range",
            Refusal::FlashDiffers => "differs from the flash",
            Refusal::Contradiction => "words that contradict each other",
            Refusal::FlashState => "state of the flash",
            Refusal::NoMemory => "no memory",
        }
    }
}

// The number, and the words in brackets. A part's refusals have this line too: to share it would take a trait with an impl for each.
impl fmt::Display for Refusal {
    ghost output = { λ e. Some (refusal_text e) };

    fn fmt<W: fmt::Write>(&self, f: &mut fmt::Formatter<W>) -> fmt::Result {
        write!(f, "{} ({})", self.number(), self.words())
    }
}
