// Two different pages with one fingerprint, told apart by their bytes.
use crate::pages::page_beginning;
use fingerprint::{Fingerprint, Fletcher, Sample};
use page::equal;
use std::io;

pub(crate) fn demonstrate(rt: &HostRuntime) -> io::Result<()> {
    let zeros = page_beginning(0, 0);
    let full = page_beginning(255, 255);
    let one = page_beginning(1, 0);
    show(rt, "zeros", &zeros)?;
    show(rt, "255, 255, then zeros", &full)?;
    show(rt, "1, then zeros", &one)?;
    let same = equal(&zeros, &full);
    println!(rt; "the first two pages are equal: {same}")
}

fn show(rt: &HostRuntime, name: &str, page: &[u8; 256]) -> io::Result<()> {
    let fletcher = Fletcher.of(page);
    let sample = Sample.of(page);
    println!(rt; "page {name}: Fletcher {fletcher}, sample {sample}")
}
