// Why a part refuses a call, with the number that stands for each reason.
ghost use Rattle.std.specs.Prelude.{◌≡◌, Some};
ghost use Rattle.flash.specs.Answers.{number_of, refusal_words, refusal_text};

use std::fmt;

#[derive(Clone, Copy, PartialEq, Eq, Debug)]
pub enum PartRefusal {
    // There is no such block or page.
    NoSuchPage = 16,
    // The page is not the next unwritten one of its block.
    NotNextPage = 17,
    // The page is unwritten.
    Unwritten = 18,
    // The block has been erased as often as it endures.
    EnduranceReached = 19,
}

impl PartRefusal {
    // The number that stands for the reason. Only an enum itself can be cast, so each has this line; by name, as `u8::from` would not say which number.
    pub fn number(self) -> u8
        ensures value { result ≡ number_of self }
    {
        self as u8
    }

    // The reason in words.
    pub fn words(self) -> &'static str
        ensures value { result.now ≡ refusal_words self }
    {
        match self {
            PartRefusal::NoSuchPage => "no such page",
            PartRefusal::NotNextPage => "not the next page",
            PartRefusal::Unwritten => "unwritten",
            PartRefusal::EnduranceReached => "endurance reached",
        }
    }
}

// The number, and the words in brackets. The layer's refusals have this line too: to share it would take a trait with an impl for each.
impl fmt::Display for PartRefusal {
    ghost output = { λ e. Some (refusal_text e) };

    fn fmt<W: fmt::Write>(&self, f: &mut fmt::Formatter<W>) -> fmt::Result {
        write!(f, "{} ({})", self.number(), self.words())
    }
}
