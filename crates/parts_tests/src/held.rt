// How a caller may hold a memory part: it takes it by value, and has several in an array. Each record has one page.
use flash::Flash;
use memory::MemoryPart;
use window::Window;

const RECORD: usize = 8 + 256;

fn first_block_erased(part: MemoryPart<'_>) -> bool {
    let mut part = part;
    part.erase(0).is_ok()
}

fn blocks_after_the_first(part: MemoryPart<'_>) -> usize {
    Window::new(part, 1, 9).blocks()
}

#[test]
fn memory_is_taken_by_value(rt: HostRuntime) {
    let mut bytes = [0; 3 * RECORD];
    assert!(rt; first_block_erased(MemoryPart::fresh(&mut bytes, 1, 2)));
    assert_eq!(rt;
        blocks_after_the_first(MemoryPart::attach(&mut bytes, 1, 2)),
        2
    );
    assert_eq!(rt; MemoryPart::attach(&mut bytes, 1, 2).erases(0), 1);
}

#[test]
fn memories_stand_in_an_array(rt: HostRuntime) {
    let mut first = [0; RECORD];
    let mut second = [0; RECORD];
    let mut parts = [
        MemoryPart::fresh(&mut first, 1, 5),
        MemoryPart::fresh(&mut second, 1, 5),
    ];
    assert!(rt; parts[1].erase(0).is_ok());
    assert_eq!(rt; parts[0].erases(0), 0);
    assert_eq!(rt; parts[1].erases(0), 1);
}
