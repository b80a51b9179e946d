// Where a block of a pair stands. The two parts have types of their own, so each call matches on this; closures would be two for each call.

#[derive(Clone, Copy)]
pub enum Place {
    // In the first part, under this number.
    First(usize),
    // In the second part, under this number.
    Second(usize),
}
