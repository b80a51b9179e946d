// Worked examples of the rules.
ghost use Rattle.std.specs.Prelude.{◌≡◌};
ghost use Rattle.rules.specs.Making.{size_refusal, sizes_answer};
ghost use Rattle.rules.specs.Image.{image_length};
ghost use Rattle.rules.specs.Examples.{WorkedSizes, ExampleLife, SecondWriteDecided};

use crate::refusal::Refusal;
use crate::size_check::check_sizes;

// What is answered to sizes at the bounds, and how many bytes two images have.
#[derive(Clone, Copy, PartialEq, Eq, Debug)]
pub struct SizeTable {
    // 64 blocks of 64 pages.
    pub one_page_too_many: Result<(), Refusal>,
    // 65 blocks of 63 pages with 4,031 host pages.
    pub most_host_pages: Result<(), Refusal>,
    // The same with 4,032.
    pub one_host_page_too_many: Result<(), Refusal>,
    // 2 blocks of 1 page with 1 host page.
    pub no_room: Result<(), Refusal>,
    // The image of 3 blocks of 2 pages with 3 host pages.
    pub small_image: u32,
    // The image of 255 blocks of 16 pages with 4,063 host pages.
    pub large_image: u32,
}

// The worked sizes and images. Its contract also states the worked life.
#[tactic(auto, using(crate::proofs::Worked::worked_sizes, crate::proofs::Worked::example_life))]
pub fn worked_sizes() -> SizeTable
    ensures one_page_too_many { sizes_answer result.one_page_too_many ≡ size_refusal 64 64 1 }
    ensures most_host_pages { sizes_answer result.most_host_pages ≡ size_refusal 65 63 4031 }
    ensures one_host_page_too_many { sizes_answer result.one_host_page_too_many ≡ size_refusal 65 63 4032 }
    ensures no_room { sizes_answer result.no_room ≡ size_refusal 2 1 1 }
    ensures small_image { result.small_image ≡ image_length 3 2 3 }
    ensures large_image { result.large_image ≡ image_length 255 16 4063 }
    ensures table { WorkedSizes }
    ensures life { ExampleLife }
    ensures second { SecondWriteDecided }
{
    SizeTable {
        one_page_too_many: check_sizes(64, 64, 1),
        most_host_pages: check_sizes(65, 63, 4031),
        one_host_page_too_many: check_sizes(65, 63, 4032),
        no_room: check_sizes(2, 1, 1),
        small_image: 2048,
        large_image: 19_968,
    }
}
