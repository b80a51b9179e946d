// Blocks by how often they were erased.
ghost use Rattle.std.specs.Prelude.{◌≡◌};
ghost use Rattle.flash.specs.Part.{erases};

use flash::Flash;
use least::Counted;

// The block with its erase count.
pub(crate) fn wear_of<F: Flash>(part: &F, block: usize) -> Counted<usize>
    ensures block { result.item ≡ block }
    ensures erases { result.count ≡ erases (F.shows part.now) block }
{
    Counted {
        item: block,
        count: part.erases(block),
    }
}
