//! Numbers in words.
ghost use Rattle.std.specs.Prelude.{◌≡◌};
ghost use Rattle.std.specs.Str.{all_ascii_digits};
ghost use Rattle.xsk_args.specs.Number.{number_in};

/// The most digits of a number.
const MOST_DIGITS: usize = 10;

/// The number that a text is: one to ten decimal digits, at most 4,294,967,295.
pub fn parse_number(text: &str) -> Option<u32>
    ensures { result ≡ number_in text.now }
{
    if !has_digits_only(text) {
        return None;
    }
    if text.len() > MOST_DIGITS {
        return None;
    }
    text.parse::<u32>().ok()
}

fn has_digits_only(text: &str) -> bool
    ensures { result ≡ all_ascii_digits text.now }
{
    for byte in text.as_bytes() {
        if !byte.is_ascii_digit() {
            return false;
        }
    }
    true
}
