//! The lines of a text.
ghost use Rattle.std.specs.Prelude.{◌≡◌, ◌≢◌, ◌∷◌, [], ◌<◌, ◌≤◌, ◌+◌, length};
ghost use Rattle.xsk_audit.specs.Lines.{lines_of, journal_of, report_of, begins_digit};

use memchr::memchr;

/// The first line of a text that isn't empty, with its line feed if it has one, and the text behind it.
pub(crate) fn first_line(text: &[u8]) -> (&[u8], &[u8])
    requires { text.now ≢ [] }
    ensures line { lines_of text.now ≡ result.0.now ∷ lines_of result.1.now }
    ensures shorter { length result.1.now < length text.now }
{
    match memchr(b'\n', text) {
        Some(i) => (&text[..i + 1], &text[i + 1..]),
        None => (text, &text[text.len()..]),
    }
}

/// The text from the first line on that begins with a digit, and how many lines stand before it.
pub(crate) fn pass_report(text: &[u8]) -> (u64, &[u8])
    ensures report { result.0 ≡ length (report_of (lines_of text.now)) }
    ensures journal { lines_of result.1.now ≡ journal_of (lines_of text.now) }
    ensures few { result.0 + length result.1.now ≤ length text.now }
{
    let mut rest = text;
    let mut passed = 0u64;
    for _line in 0..text.len() {
        if rest.is_empty() {
            return (passed, rest);
        }
        if begins_digit(rest) {
            return (passed, rest);
        }
        let (_line, later) = first_line(rest);
        rest = later;
        passed += 1;
    }
    (passed, rest)
}

fn begins_digit(text: &[u8]) -> bool
    ensures { result ≡ begins_digit text.now }
{
    match text {
        [digit, ..] => digit.is_ascii_digit(),
        [] => false,
    }
}
