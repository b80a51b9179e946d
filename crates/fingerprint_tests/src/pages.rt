// Pages that several tests take.
ghost use Rattle.std.specs.Prelude.{◌<◌};

// The page with another byte at the place.
pub(crate) fn with_byte(page: [u8; 256], place: usize, byte: u8) -> [u8; 256]
    requires { place < 256 }
{
    let mut other = page;
    other[place] = byte;
    other
}

// The page that begins 255, 255 and is zeros after them.
pub(crate) fn two_full() -> [u8; 256] {
    with_byte(with_byte([0; 256], 0, 255), 1, 255)
}
