use crate::pages::{two_full, with_byte};
use page::equal;
use std::array;

#[test]
fn a_page_equals_its_copy(rt: HostRuntime) {
    let page = array::from_fn(|i| (i % 251) as u8);
    let copy = page;
    assert!(rt; equal(&page, &copy));
}

#[test]
fn first_byte_differs(rt: HostRuntime) {
    let page = [9; 256];
    assert!(rt; !equal(&page, &with_byte(page, 0, 8)));
}

#[test]
fn last_byte_differs(rt: HostRuntime) {
    let page = [9; 256];
    assert!(rt; !equal(&page, &with_byte(page, 255, 8)));
}

// Each place in turn is the only one that differs.
#[test]
fn each_byte_counts(rt: HostRuntime) {
    let page = [0; 256];
    for place in 0..256 {
        assert!(rt; !equal(&page, &with_byte(page, place, 128)));
    }
}

// One number, and two pages: only the comparison tells them apart.
#[test]
fn pages_with_one_fingerprint(rt: HostRuntime) {
    assert!(rt; !equal(&[0; 256], &two_full()));
}
