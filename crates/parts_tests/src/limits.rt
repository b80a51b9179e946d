// The limits of the memory part and of the pair.
use crate::refusals::by_number;
use flash::Flash;
use memory::MemoryPart;
use pair::Pair;

// A record with one page, and 256 of them.
const RECORD: usize = 264;

const RECORDS: usize = 256 * RECORD;

#[test]
fn pages_are_limited(rt: HostRuntime) {
    let mut few = [0; 16_392];
    let part = MemoryPart::fresh(&mut few, 0, 1);
    assert_eq!(rt; part.pages_per_block(), 1);
    assert_eq!(rt; part.blocks(), 62);
    let mut many = [0; 16_392];
    let part = MemoryPart::fresh(&mut many, 65, 1);
    assert_eq!(rt; part.pages_per_block(), 64);
    assert_eq!(rt; part.blocks(), 1);
}

#[test]
fn endurance_is_limited(rt: HostRuntime) {
    let mut bytes = [0; RECORD];
    let part = MemoryPart::fresh(&mut bytes, 1, 1_000_001);
    assert_eq!(rt; part.endurance(), 1_000_000);
}

#[test]
fn less_than_a_record_is_no_block(rt: HostRuntime) {
    let mut bytes = [9; 263];
    let mut part = MemoryPart::fresh(&mut bytes, 1, 1);
    assert_eq!(rt; part.blocks(), 0);
    assert_eq!(rt; by_number(part.erase(0)), Err(16));
    assert_eq!(rt; part.into_bytes()[262], 9);
}

#[test]
fn blocks_are_limited(rt: HostRuntime) {
    let mut bytes = [9; RECORDS];
    let part = MemoryPart::fresh(&mut bytes, 1, 1);
    assert_eq!(rt; part.blocks(), 255);
    let back = part.into_bytes();
    assert!(rt; back.len() == RECORDS);
    assert_eq!(rt; back[67_319], 255);
    assert_eq!(rt; back[67_320], 9);
}

#[test]
fn pair_is_limited(rt: HostRuntime) {
    let mut first = [0; RECORDS];
    let mut second = [0; RECORD];
    let mut part = Pair::new(
        MemoryPart::fresh(&mut first, 1, 1),
        MemoryPart::fresh(&mut second, 1, 1),
    );
    assert_eq!(rt; part.blocks(), 255);
    assert_eq!(rt; by_number(part.erase(254)), Ok(()));
    assert_eq!(rt; by_number(part.erase(255)), Err(16));
}

#[test]
fn unlike_pages_leave_the_second_out(rt: HostRuntime) {
    let mut first = [0; RECORD];
    let mut second = [0; 520];
    let part = Pair::new(
        MemoryPart::fresh(&mut first, 1, 7),
        MemoryPart::fresh(&mut second, 2, 3),
    );
    assert_eq!(rt; part.blocks(), 1);
    assert_eq!(rt; part.pages_per_block(), 1);
    assert_eq!(rt; part.endurance(), 3);
}

// A record whose counts are above their limits: all its pages count as written, and it has reached its endurance.
#[test]
fn counts_are_limited_on_attach(rt: HostRuntime) {
    let mut bytes = [255; RECORD];
    let mut buffer = [0; 256];
    let mut part = MemoryPart::attach(&mut bytes, 1, 10);
    assert_eq!(rt; part.written(0), 1);
    assert_eq!(rt; part.erases(0), 10);
    assert_eq!(rt; by_number(part.program(0, 0, &buffer)), Err(17));
    assert_eq!(rt; by_number(part.erase(0)), Err(19));
    assert_eq!(rt; by_number(part.read(0, 0, &mut buffer)), Ok(()));
    assert_eq!(rt; buffer, [255; 256]);
}

// Bytes 2 and 3 of a record stay through an erase, and the counts stand with their lowest byte first.
#[test]
fn erase_leaves_spare_bytes(rt: HostRuntime) {
    let mut bytes = [1; RECORD];
    let mut part = MemoryPart::attach(&mut bytes, 1, 1_000_000);
    assert_eq!(rt; part.erases(0), 1_000_000);
    assert_eq!(rt; by_number(part.erase(0)), Err(19));
    let back = part.into_bytes();
    assert!(rt; back.len() == RECORD);
    back[6..8].fill(0);
    let mut part = MemoryPart::attach(back, 1, 1_000_000);
    assert_eq!(rt; part.erases(0), 257);
    assert_eq!(rt; by_number(part.erase(0)), Ok(()));
    let back = part.into_bytes();
    assert!(rt; back.len() == RECORD);
    assert!(rt; back[..8] == [0, 0, 1, 1, 2, 1, 0, 0]);
    assert_eq!(rt; back[263], 255);
}
