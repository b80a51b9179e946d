use fingerprint::{Fingerprint, Sample};

#[test]
fn first_byte_is_highest(rt: HostRuntime) {
    let mut page = [0; 256];
    assert_eq!(rt; Sample.of(&page), 0);
    page[0] = 1;
    assert_eq!(rt; Sample.of(&page), 16_777_216);
    page[1..4].copy_from_slice(&[2, 3, 4]);
    assert_eq!(rt; Sample.of(&page), 0x0102_0304);
}

#[test]
fn other_bytes_do_not_count(rt: HostRuntime) {
    let mut page = [255; 256];
    assert_eq!(rt; Sample.of(&page), 0xFFFF_FFFF);
    page[4] = 0;
    page[255] = 0;
    assert_eq!(rt; Sample.of(&page), 0xFFFF_FFFF);
}
