// What a call answers.
ghost use Rattle.std.specs.Prelude.{◌≡◌};
ghost use Rattle.rules.specs.Answers.{is_refusal};

use crate::kind::Kind;
use crate::refusal::Refusal;

// An accepted write: the rule it took, and the pages that a collection moved for it. Every kind answers both, as the rules say, and 0 where none was moved.
#[derive(Clone, Copy, PartialEq, Eq, Debug)]
pub struct Written {
    pub kind: Kind,
    pub moved: u32,
}

// Flash pages in use, dead (written and not in use) and unwritten.
#[derive(Clone, Copy, PartialEq, Eq, Debug)]
pub struct Usage {
    pub live: u32,
    pub dead: u32,
    pub unwritten: u32,
}

// What a call replies that is not refused.
#[derive(Clone, Copy, PartialEq, Eq, Debug)]
pub enum Reply {
    Wrote(Written),
    // The page that was read.
    Page([u8; 256]),
    // Trim: 1 if the page had content, else 0; collect: the pages moved; scan: the pages that died; save: the image's length.
    // Trim's answer is a number like the others because its rule says so.
    Number(u32),
    Used(Usage),
}

// A reply, or why the call is refused.
pub type Answer = Result<Reply, Refusal>;

// Is an answer a refusal?
pub fn is_refusal(answer: &Answer) -> bool
    ensures value { result ≡ is_refusal answer.now }
{
    answer.is_err()
}
