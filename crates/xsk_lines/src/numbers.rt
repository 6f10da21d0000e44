//! Decimal numbers at the front of a text.
ghost use Rattle.std.specs.Prelude.{◌≡◌, ◌+◌, ◌-◌, ◌*◌, ◌^◌, ◌<◌, ◌≤◌, length, drop, IfNone, IfSome};
ghost use Rattle.xsk_lines.specs.Reading.{read_view, number_at, small_at, digits_end, is_leading_zero};

/// The number at the front of a text, below 2^64 and without leading zeros, and the text behind it.
pub fn number(text: &[u8]) -> Option<(u64, &[u8])>
    ensures { read_view result ≡ number_at text.now }
{
    let mut value = 0u64;
    'digits: for i in 0..text.len() {
        let digit = text[i];
        if !digit.is_ascii_digit() {
            return number_end(text, i, value);
        }
        if is_leading_zero(value, i) {
            return None;
        }
        let Some(longer) = with_digit(value, digit) else {
            return None;
        };
        value = longer;
    }
    number_end(text, text.len(), value)
}

/// The digits ended here.
fn number_end(text: &[u8], len: usize, value: u64) -> Option<(u64, &[u8])>
    requires { len ≤ length text.now }
    ensures { read_view result ≡ digits_end value len (drop len text.now) }
{
    if len > 0 {
        Some((value, &text[len..]))
    } else {
        None
    }
}

fn is_leading_zero(value: u64, len: usize) -> bool
    ensures { result ≡ is_leading_zero value len }
{
    value == 0 && len > 0
}

/// The number with one more digit, if it is below 2^64.
fn with_digit(value: u64, digit: u8) -> Option<u64>
    requires { 48 ≤ digit }
    ensures none { IfNone result (2 ^ 64 ≤ value * 10 + (digit - 48)) }
    ensures some { IfSome result (λ longer. (longer ≡ value * 10 + (digit - 48)) × (longer < 2 ^ 64)) }
{
    let tens = value.checked_mul(10)?;
    tens.checked_add(u64::from(digit - b'0'))
}

/// The number at the front of a text, below 2^32.
#[tactic(auto, unfolding(crate::specs::Reading::small_at))]
pub fn small(text: &[u8]) -> Option<(u32, &[u8])>
    ensures { read_view result ≡ small_at text.now }
{
    let (number, rest) = number(text)?;
    if number < 4_294_967_296 {
        Some((number as u32, rest))
    } else {
        None
    }
}
