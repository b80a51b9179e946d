use crate::pages::{two_full, with_byte};
use crate::sharing::share_a_number;
use fingerprint::{Fletcher, Sample};

// The page of zeros and the page that begins 255, 255: one number to Fletcher, two to Sample.
#[test]
fn each_kind_has_its_own_pairs(rt: HostRuntime) {
    let zeros = [0; 256];
    assert!(rt; share_a_number(&Fletcher, &zeros, &two_full()));
    assert!(rt; !share_a_number(&Sample, &zeros, &two_full()));
    let last = with_byte(zeros, 255, 1);
    assert!(rt; !share_a_number(&Fletcher, &zeros, &last));
    assert!(rt; share_a_number(&Sample, &zeros, &last));
}
