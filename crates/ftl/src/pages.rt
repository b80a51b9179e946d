// The pages that the demonstration writes.
ghost use Rattle.std.specs.Prelude.{◌≡◌, replicate, slice_set};

// A tariff's page: its number in every byte.
pub(crate) fn tariff_page(tariff: u8) -> [u8; 256]
    ensures bytes { result ≡ replicate 256 tariff }
{
    [tariff; 256]
}

// A page of zeros but for its first two bytes.
pub(crate) fn page_beginning(first: u8, second: u8) -> [u8; 256]
    ensures bytes { result ≡ slice_set (slice_set (replicate 256 0) 0 first) 1 second }
{
    let mut page = [0; 256];
    page[0] = first;
    page[1] = second;
    page
}
