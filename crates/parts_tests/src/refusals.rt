// What every part with clean blocks has to refuse, by number.
ghost use Rattle.std.specs.Prelude.{◌≡◌};
ghost use Rattle.parts_tests.specs.Numbers.{answer_by_number};

use flash::{Flash, PartRefusal};

// The answer, with the number of a refusal for the refusal.
pub(crate) fn by_number(answer: Result<(), PartRefusal>) -> Result<(), u8>
    ensures value { result ≡ answer_by_number answer }
{
    answer.map_err(PartRefusal::number)
}

// The answers of a part with `blocks` clean blocks of `pages` pages: a block too far in each call, a page too far, a page out
// of turn, an unwritten page, and then one page programmed, programmed again and read.
pub(crate) fn answers<F: Flash>(
    part: &mut F,
    blocks: usize,
    pages: usize,
    buffer: &mut [u8; 256],
) -> [Result<(), u8>; 9] {
    let page = [7; 256];
    [
        by_number(part.erase(blocks)),
        by_number(part.program(blocks, 0, &page)),
        by_number(part.read(blocks, 0, buffer)),
        by_number(part.program(0, pages, &page)),
        by_number(part.program(0, 1, &page)),
        by_number(part.read(0, 0, buffer)),
        by_number(part.program(0, 0, &page)),
        by_number(part.program(0, 0, &page)),
        by_number(part.read(0, 0, buffer)),
    ]
}
