// What the rules accept, and that their promise is proved.
use rules::{Refusal, promise_is_kept, theorems_hold, worked_sizes};
use std::io;

pub(crate) fn demonstrate(rt: &HostRuntime) -> io::Result<()> {
    let worked = worked_sizes();
    show(rt, "64 blocks of 64 pages", worked.one_page_too_many)?;
    show(
        rt,
        "65 blocks of 63 pages, 4031 host pages",
        worked.most_host_pages,
    )?;
    show(
        rt,
        "65 blocks of 63 pages, 4032 host pages",
        worked.one_host_page_too_many,
    )?;
    show(rt, "2 blocks of 1 page, 1 host page", worked.no_room)?;
    let small = worked.small_image;
    println!(rt; "image of 3 blocks of 2 pages, 3 host pages: {small} bytes")?;
    let large = worked.large_image;
    println!(rt; "image of 255 blocks of 16 pages, 4063 host pages: {large} bytes")?;
    let kept = promise_is_kept();
    let held = theorems_hold();
    println!(rt; "the promise is proved: {kept}; the theorems about the rules: {held}")
}

// Sizes, and the number that they are refused with, or 0.
fn show(rt: &HostRuntime, sizes: &str, answer: Result<(), Refusal>) -> io::Result<()> {
    let number = answer.err().map_or(0, Refusal::number);
    println!(rt; "{sizes}: {number}")
}
