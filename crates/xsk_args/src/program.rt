//! Programs in words.
ghost use Rattle.std.specs.Prelude.{◌≡◌, codes, option_map};
ghost use Rattle.std.specs.Char.{is_digit};
ghost use Rattle.std.specs.List.{list_all};
ghost use Rattle.xsk_args.specs.Program.{behind, bouncing_in, ether_type_in, fixed_in, program_in, valued_in};

use crate::number::parse_number;

/// What decides of each packet, as an option names it.
#[derive(Clone, Copy, Default)]
pub enum Program {
    /// `redirect`: each packet is redirected.
    #[default]
    Redirect,
    /// `pass`: each packet passes.
    Pass,
    /// `drop`: each packet is dropped.
    Drop,
    /// `type:HHHH`: packets of this EtherType are redirected, and the others pass.
    EtherType(u16),
    /// `fixed:N`: each packet is redirected to this cell.
    Fixed(u32),
    /// `bounce`: each packet leaves by the port on which it came.
    Bounce,
    /// `bounce:HHHH`: packets of this EtherType leave so, and the others pass.
    BounceType(u16),
}

/// The program that a text is: `redirect`, `pass`, `drop`, `bounce`, `type:HHHH` or `bounce:HHHH` with four hexadecimal digits of
/// either case, the highest first, or `fixed:N` with one to ten decimal digits, at most 4,294,967,295.
pub fn parse_program(text: &str) -> Option<Program>
    ensures { result ≡ program_in text.now }
{
    if text == "redirect" {
        return Some(Program::Redirect);
    }
    if text == "pass" {
        return Some(Program::Pass);
    }
    if text == "drop" {
        return Some(Program::Drop);
    }
    if text == "bounce" {
        return Some(Program::Bounce);
    }
    parse_valued(text)
}

/// The program of `type:HHHH`, or else of `bounce:HHHH` or `fixed:N`.
fn parse_valued(text: &str) -> Option<Program>
    ensures { result ≡ valued_in text.now (behind (codes "type:") text.now) }
{
    match strip(text, "type:") {
        Some(kind) => Some(Program::EtherType(parse_ether_type(kind)?)),
        None => parse_bouncing(text),
    }
}

/// The program of `bounce:HHHH`, or else of `fixed:N`.
fn parse_bouncing(text: &str) -> Option<Program>
    ensures { result ≡ bouncing_in text.now (behind (codes "bounce:") text.now) }
{
    match strip(text, "bounce:") {
        Some(kind) => Some(Program::BounceType(parse_ether_type(kind)?)),
        None => parse_fixed(text),
    }
}

/// The program of `fixed:N`.
fn parse_fixed(text: &str) -> Option<Program>
    ensures { result ≡ fixed_in (behind (codes "fixed:") text.now) }
{
    let cell = parse_number(strip(text, "fixed:")?)?;
    Some(Program::Fixed(cell))
}

/// What stands behind a front, where the text has this front.
fn strip<'a>(text: &'a str, front: &str) -> Option<&'a str>
    ensures { option_map (λ rest. rest.now) result ≡ behind front.now text.now }
{
    text.strip_prefix(front)
}

/// The number that four hexadecimal digits are.
fn parse_ether_type(text: &str) -> Option<u16>
    ensures { result ≡ ether_type_in text.now }
{
    if text.len() != 4 {
        return None;
    }
    if !has_hexadecimal_digits_only(text) {
        return None;
    }
    u16::from_str_radix(text, 16).ok()
}

fn has_hexadecimal_digits_only(text: &str) -> bool
    ensures { result ≡ list_all (λ c. is_digit c 16) text.now }
{
    for byte in text.as_bytes() {
        if !char::from(*byte).is_digit(16) {
            return false;
        }
    }
    true
}
