// The refusals of each part and of a pile of them: a block or page that is not there 16, out of turn 17, unwritten 18, worn out 19.
use crate::refusals::{answers, by_number};
use flash::Flash;
use memory::MemoryPart;
use pair::Pair;
use window::Window;

// Pages to a block.
const PAGES: usize = 2;

// A record: 8 bytes, and 256 for each page.
const ONE: usize = 8 + 256 * PAGES;

const THREE: usize = 3 * ONE;

const EXPECTED: [Result<(), u8>; 9] = [
    Err(16),
    Err(16),
    Err(16),
    Err(16),
    Err(17),
    Err(18),
    Ok(()),
    Err(17),
    Ok(()),
];

#[test]
fn memory_refuses(rt: HostRuntime) {
    let mut bytes = [0; THREE];
    let mut buffer = [1; 256];
    let mut part = MemoryPart::fresh(&mut bytes, PAGES, 100);
    assert_eq!(rt; part.blocks(), 3);
    assert_eq!(rt; answers(&mut part, 3, PAGES, &mut buffer), EXPECTED);
    assert_eq!(rt; buffer, [7; 256]);
}

#[test]
fn memory_wears_out(rt: HostRuntime) {
    let mut bytes = [0; THREE];
    let mut part = MemoryPart::fresh(&mut bytes, PAGES, 0);
    assert_eq!(rt; by_number(part.erase(0)), Err(19));
    assert_eq!(rt; by_number(part.erase(3)), Err(16));
}

#[test]
fn piles_wear_out(rt: HostRuntime) {
    let mut first = [0; ONE];
    let mut second = [0; THREE];
    let mut pair = Pair::new(
        MemoryPart::fresh(&mut first, PAGES, 9),
        MemoryPart::fresh(&mut second, PAGES, 0),
    );
    assert_eq!(rt; by_number(pair.erase(0)), Err(19));
    assert_eq!(rt; by_number(pair.erase(1)), Err(19));
    let mut window = Window::new(pair, 1, 1);
    assert_eq!(rt; by_number(window.erase(0)), Err(19));
    assert_eq!(rt; by_number(window.erase(1)), Err(16));
}

#[test]
fn window_refuses(rt: HostRuntime) {
    let mut bytes = [0; THREE];
    let mut buffer = [1; 256];
    let mut part = Window::new(MemoryPart::fresh(&mut bytes, PAGES, 1), 1, 9);
    assert_eq!(rt; part.blocks(), 2);
    assert_eq!(rt; answers(&mut part, 2, PAGES, &mut buffer), EXPECTED);
    assert_eq!(rt; by_number(part.erase(0)), Ok(()));
    assert_eq!(rt; by_number(part.erase(0)), Err(19));
    let below = part.into_below();
    assert_eq!(rt; below.erases(0), 0);
    assert_eq!(rt; below.erases(1), 1);
}

#[test]
fn pair_refuses(rt: HostRuntime) {
    let mut first = [0; ONE];
    let mut second = [0; THREE];
    let mut buffer = [1; 256];
    let one = MemoryPart::fresh(&mut first, PAGES, 5);
    let three = MemoryPart::fresh(&mut second, PAGES, 1);
    let mut part = Pair::new(one, three);
    assert_eq!(rt; part.blocks(), 4);
    assert_eq!(rt; part.endurance(), 1);
    assert_eq!(rt; answers(&mut part, 4, PAGES, &mut buffer), EXPECTED);
    assert_eq!(rt; by_number(part.erase(0)), Ok(()));
    assert_eq!(rt; by_number(part.erase(0)), Err(19));
    assert_eq!(rt; part.erases(0), 1);
}

#[test]
fn pile_refuses(rt: HostRuntime) {
    let mut first = [0; ONE];
    let mut second = [0; THREE];
    let mut buffer = [1; 256];
    let one = MemoryPart::fresh(&mut first, PAGES, 5);
    let three = MemoryPart::fresh(&mut second, PAGES, 1);
    let mut part = Window::new(Pair::new(one, three), 1, 3);
    assert_eq!(rt; answers(&mut part, 3, PAGES, &mut buffer), EXPECTED);
    assert_eq!(rt; by_number(part.erase(0)), Ok(()));
    assert_eq!(rt; by_number(part.erase(0)), Err(19));
    let (_, three) = part.into_below().into_parts();
    assert_eq!(rt; three.erases(0), 1);
    assert_eq!(rt; three.written(0), 0);
}
