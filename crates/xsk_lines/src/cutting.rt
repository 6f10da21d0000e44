//! The lines of a text.
ghost use Rattle.std.specs.Prelude.{◌≡◌, ◌≢◌, ◌∷◌, [], ◌<◌, length};
ghost use Rattle.xsk_lines.specs.Lines.{lines_of};

use memchr::memchr;

/// The first line of a text that isn't empty, with its line feed if it has one, and the text behind it.
pub fn first_line(text: &[u8]) -> (&[u8], &[u8])
    requires { text.now ≢ [] }
    ensures line { lines_of text.now ≡ result.0.now ∷ lines_of result.1.now }
    ensures shorter { length result.1.now < length text.now }
{
    match memchr(b'\n', text) {
        Some(i) => (&text[..i + 1], &text[i + 1..]),
        None => (text, &text[text.len()..]),
    }
}
