//! The numbers among the words.
ghost use Rattle.std.specs.Prelude.{◌≡◌, ◌&&◌, nat_le, Some, None, if◌then◌else◌};
ghost use Rattle.nv_words.specs.Words.{number_in};

/// The greatest number of a device call to stop at, and the greatest seed of an image.
pub(crate) const LARGEST: u64 = 4_294_967_295;

// The number that a text is, where it is one from the least to the most.
pub(crate) fn parse_number(text: &str, least: u64, most: u64) -> Option<u64>
    ensures { result ≡ number_in least most text.now }
{
    match text.parse::<u64>() {
        Ok(number) => within(number, least, most),
        Err(_) => None,
    }
}

fn within(number: u64, least: u64, most: u64) -> Option<u64>
    ensures { result ≡ (if nat_le least number && nat_le number most then Some number else None) }
{
    if least <= number && number <= most {
        Some(number)
    } else {
        None
    }
}
