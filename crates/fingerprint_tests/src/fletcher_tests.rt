use crate::pages::{two_full, with_byte};
use fingerprint::{Fingerprint, Fletcher, fletcher, worked_examples};

#[test]
fn pages_of_the_worked_examples(rt: HostRuntime) {
    let zeros = [0; 256];
    assert_eq!(rt; Fletcher.of(&zeros), 0);
    assert_eq!(rt; Fletcher.of(&two_full()), 0);
    assert_eq!(rt; Fletcher.of(&with_byte(zeros, 0, 1)), 8_388_609);
    assert_eq!(rt; Fletcher.of(&with_byte(zeros, 254, 1)), 65_537);
}

#[test]
fn table_of_the_worked_examples(rt: HostRuntime) {
    assert_eq!(rt; worked_examples(), [0, 0, 8_388_609, 65_537, 16_777_216]);
}

// The published vectors of Fletcher-32 over little-endian words, sums modulo 65,535 from zero. The first has an odd length.
#[test]
fn published_vectors(rt: HostRuntime) {
    assert_eq!(rt; fletcher(b"abcde"), 0xF04F_C729);
    assert_eq!(rt; fletcher(b"abcdef"), 0x5650_2D2A);
    assert_eq!(rt; fletcher(b"abcdefgh"), 0xEBE1_9591);
}

#[test]
fn short_runs(rt: HostRuntime) {
    assert_eq!(rt; fletcher(b""), 0);
    assert_eq!(rt; fletcher(&[7]), 7 * 65_536 + 7);
    assert_eq!(rt; fletcher(&[7, 0]), 7 * 65_536 + 7);
    assert_eq!(rt; fletcher(&[0, 7]), 1_792 * 65_536 + 1_792);
}

// An odd last byte counts as a word whose high byte is zero, so one zero more changes nothing, and two zeros add a word.
#[test]
fn odd_length(rt: HostRuntime) {
    assert_eq!(rt; fletcher(&[1, 2, 3]), fletcher(&[1, 2, 3, 0]));
    assert_eq!(rt; fletcher(&[1, 2, 3]), (513 + 516) * 65_536 + 516);
    assert_eq!(rt;
        fletcher(&[1, 2, 3, 0, 0]),
        (513 + 516 + 516) * 65_536 + 516
    );
}

// Of 254 words the first and the last are 1: the second sum takes the first one 254 times and the last one once.
#[test]
fn a_run_of_508_bytes(rt: HostRuntime) {
    let mut bytes = [0; 508];
    bytes[0] = 1;
    bytes[506] = 1;
    assert_eq!(rt; fletcher(&bytes), 255 * 65_536 + 2);
}

// 254 words that are 257: the first sum is 254 x 257, and the second, 257 x (1 + 2 + .. + 254), is 127 times the modulus.
#[test]
fn a_run_of_508_ones(rt: HostRuntime) {
    assert_eq!(rt; fletcher(&[1; 508]), 65_278);
}
