use crate::block::{Block, least_erased};
use crate::entry::{Held, coldest};
use least::least;

#[test]
fn nothing_among_no_records(rt: HostRuntime) {
    let none: [Block; 0] = [];
    assert_eq!(rt; least(&none), None);
}

#[test]
fn the_only_record(rt: HostRuntime) {
    let only = Block {
        item: 7,
        count: 100,
    };
    assert_eq!(rt; least(&[only]), Some(0));
}

#[test]
fn least_erased_block_first_in_the_middle_and_last(rt: HostRuntime) {
    let worn = Block { item: 1, count: 30 };
    let half = Block { item: 2, count: 20 };
    let fresh = Block { item: 3, count: 0 };
    assert_eq!(rt; least(&[fresh, worn, half]), Some(0));
    assert_eq!(rt; least(&[worn, fresh, half]), Some(1));
    assert_eq!(rt; least(&[worn, half, fresh]), Some(2));
}

#[test]
fn largest_counts_compare(rt: HostRuntime) {
    let most = Block {
        item: 1,
        count: u32::MAX,
    };
    let one_less = Block {
        item: 2,
        count: u32::MAX - 1,
    };
    assert_eq!(rt; least_erased(&[most, one_less, most]), Some(1));
}

#[test]
fn free_entry_before_the_coldest(rt: HostRuntime) {
    let cold = Some(Held { heat: 0, used: 0 });
    assert_eq!(rt; least(&[cold, None]), Some(1));
    assert_eq!(rt; least(&[None, cold]), Some(0));
}

#[test]
fn heat_before_the_time_of_last_use(rt: HostRuntime) {
    let hot_early = Some(Held { heat: 5, used: 1 });
    let cold_late = Some(Held { heat: 4, used: 900 });
    let cold_early = Some(Held { heat: 4, used: 899 });
    assert_eq!(rt; coldest(&[hot_early, cold_late]), Some(1));
    assert_eq!(rt;
        coldest(&[hot_early, cold_late, cold_early, hot_early]),
        Some(2)
    );
}
