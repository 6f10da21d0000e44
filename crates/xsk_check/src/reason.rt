//! Why a call isn't possible, in words: a line or two, and the earlier line that they name.

ghost use Rattle.std.specs.Prelude.{◌≡◌};
ghost use Rattle.xsk_check.specs.Naming.{denial_since as since_by_denial, named_in, rule_since as since_by_rule, why_since};

use crate::Blame;
use std::alloc::{AllocError, Global};
use std::fmt::Write;
use xsk_judge::{Denial, Known, Rule, Whereabouts, Why};
use xsk_model::Ring;
use xsk_side::{Answer, Call, Setting};
use xsk_umem::XdpDesc;

/// What may be wrong where no kernel answers so.
const NO_KERNEL: &str =
    "\n  a call isn't in the recording, an entry was changed after it was submitted, something wrote over the ring, or the kernel is wrong\n";

/// A call that is blamed: its line, its ring by name, how many entries or places it is about, and its entries.
#[derive(Drop)]
struct Blamed<'a> {
    line: u64,
    ring: &'a str,
    size: u32,
    chunk: u32,
    count: u32,
    /// How many places are told to be free, where they are told.
    free: u32,
    verb: &'static str,
    entries: &'a [XdpDesc],
}

/// The reason for which the call of this line isn't possible.
pub fn reason_text(
    alloc: Global,
    setting: &Setting,
    line: u64,
    blame: &Blame,
) -> Result<String, AllocError> {
    let (ring, verb) = ring_of(&blame.call);
    let name = name_of(alloc, ring)?;
    let size = if setting.has_ring(ring) {
        setting.size(ring)
    } else {
        0
    };
    let (count, entries) = count_of(&blame.call);
    let blamed = Blamed {
        line,
        ring: name.as_str(),
        size,
        chunk: setting.chunk(),
        count,
        free: free_of(&blame.call),
        verb,
        entries,
    };
    let mut text = String::new(alloc);
    match blame.why {
        Why::Rule(rule) => {
            text.push_str("  the program broke a rule ")?;
            push_rule(alloc, &mut text, &blamed, rule)?;
            text.push_str("\n")?;
        }
        Why::Kernel(denial) => {
            text.push_str("  no kernel answers so ")?;
            push_denial(alloc, &mut text, &blamed, denial)?;
            text.push_str(NO_KERNEL)?;
        }
        Why::TooMany => text.push_str(
            "  more addresses outside of the UMEM are on TX than can be counted\n",
        )?,
    }
    Ok(text)
}

/// The earlier line that the reason names for the call of this line, where it names one.
pub fn named_line(line: u64, why: Why) -> Option<u64>
    ensures { result ≡ named_in line why }
{
    let named = since(why);
    if named == 0 || named == line {
        None
    } else {
        Some(named)
    }
}

/// Since which line what the reason speaks of is as it is; 0 is the start, and stands where it speaks of no such thing.
fn since(why: Why) -> u64
    ensures { result ≡ why_since why }
{
    match why {
        Why::Rule(rule) => rule_since(rule),
        Why::Kernel(denial) => denial_since(denial),
        Why::TooMany => 0,
    }
}

fn rule_since(rule: Rule) -> u64
    ensures { result ≡ since_by_rule rule }
{
    match rule {
        Rule::Frame(_, known) | Rule::PassedOn(_, known) => known.since,
        _ => 0,
    }
}

fn denial_since(denial: Denial) -> u64
    ensures { result ≡ since_by_denial denial }
{
    match denial {
        Denial::Refused(_, since)
        | Denial::FewerFree(_, since)
        | Denial::Empty(_, since)
        | Denial::Other(_, _, since) => since,
        Denial::NotFilled(_, known) | Denial::NotSent(_, known) | Denial::OtherPair(_, known) =>
            known.since,
        _ => 0,
    }
}

/// The ring of a call, and its name.
fn ring_of(call: &Call) -> (Ring, &'static str) {
    match call {
        Call::Reserve(ring, _, _) => (*ring, "reserve"),
        Call::Free(ring, _, _) => (*ring, "free"),
        Call::Submit(ring, _) => (*ring, "submit"),
        Call::Peek(ring, _, _) => (*ring, "peek"),
        Call::Release(ring, _) => (*ring, "release"),
        Call::Cancel(ring, _) => (*ring, "cancel"),
    }
}

/// How many places or entries a call is about, and the entries that it has. Of a Free it is how many places are told.
fn count_of(call: &Call) -> (u32, &[XdpDesc]) {
    match call {
        Call::Reserve(_, count, _)
        | Call::Free(_, _, count)
        | Call::Release(_, count)
        | Call::Cancel(_, count) => (*count, &[]),
        Call::Submit(_, entries) => {
            let entries = entries.as_slice();
            (u32::try_from(entries.len()).unwrap_or(u32::MAX), entries)
        }
        Call::Peek(_, count, entries) => (*count, entries.as_slice()),
    }
}

/// How many places a call is told to be free.
fn free_of(call: &Call) -> u32 {
    match call {
        Call::Reserve(_, _, Answer::Full(free)) | Call::Free(_, _, free) => *free,
        _ => 0,
    }
}

/// The name of a ring.
fn name_of(alloc: Global, ring: Ring) -> Result<String, AllocError> {
    let mut name = String::new(alloc);
    match ring {
        Ring::Fill(pair) => write!(name, "fill.{pair}")?,
        Ring::Comp(pair) => write!(name, "comp.{pair}")?,
        Ring::Rx(socket) => write!(name, "rx.{socket}")?,
        Ring::Tx(socket) => write!(name, "tx.{socket}")?,
    }
    Ok(name)
}

fn push_rule(
    alloc: Global,
    text: &mut String,
    blamed: &Blamed<'_>,
    rule: Rule,
) -> Result<(), AllocError> {
    let ring = blamed.ring;
    let count = blamed.count;
    let verb = blamed.verb;
    match rule {
        Rule::Ring => write!(text, "(ring): there is no ring {ring}"),
        Rule::Side => write!(text, "(side): {verb} of {ring} is the kernel's call"),
        Rule::Places(room) => write!(
            text,
            "(places): {count} entries are submitted on {ring}, and {room} places are reserved"
        ),
        Rule::Twice(i) => {
            let (frame, _addr) = frame_of(blamed, i);
            write!(
                text,
                "(twice): frame {frame} stands twice in this submit of {ring}"
            )
        }
        Rule::Frame(i, known) => push_frame(alloc, text, blamed, i, known),
        Rule::Release(held) => write!(
            text,
            "(release): {count} entries of {ring} are released, and {held} are peeked and not released"
        ),
        Rule::Cancel(held) => push_cancel(text, blamed, held),
        Rule::PassedOn(entry, known) => push_passed_on(alloc, text, blamed, entry, known),
    }
}

/// An entry is cancelled whose frame was submitted since.
fn push_passed_on(
    alloc: Global,
    text: &mut String,
    blamed: &Blamed<'_>,
    entry: XdpDesc,
    known: Known,
) -> Result<(), AllocError> {
    let ring = blamed.ring;
    let frame = entry.addr.checked_div(u64::from(blamed.chunk)).unwrap_or(0);
    text.push_str("(passed on): ")?;
    push_desc(text, entry)?;
    write!(
        text,
        " of {ring} is cancelled, and its frame {frame} was submitted since it was peeked: "
    )?;
    push_known(alloc, text, known)
}

/// A frame is submitted that isn't the program's.
fn push_frame(
    alloc: Global,
    text: &mut String,
    blamed: &Blamed<'_>,
    i: usize,
    known: Known,
) -> Result<(), AllocError> {
    let ring = blamed.ring;
    let (frame, addr) = frame_of(blamed, i);
    write!(
        text,
        "(frame): frame {frame} (address {addr}) is submitted on {ring}, and isn't the program's: "
    )?;
    push_known(alloc, text, known)
}

fn push_cancel(text: &mut String, blamed: &Blamed<'_>, held: u32) -> Result<(), AllocError> {
    let ring = blamed.ring;
    let count = blamed.count;
    if ring.starts_with("fill") || ring.starts_with("tx") {
        return write!(
            text,
            "(cancel): {count} places of {ring} are given up, and {held} are reserved"
        );
    }
    write!(
        text,
        "(cancel): {count} entries of {ring} are cancelled, and {held} are peeked and not released"
    )
}

/// Who has a frame, and since when.
fn push_known(alloc: Global, text: &mut String, known: Known) -> Result<(), AllocError> {
    let since = known.since;
    match known.place {
        Whereabouts::Start => text.push_str("the program has had it from the start"),
        Whereabouts::Peeked(ring, _) => {
            let name = name_of(alloc, ring)?;
            let name = name.as_str();
            write!(
                text,
                "the program has had it since line {since} (peek {name})"
            )
        }
        Whereabouts::Given(ring) => {
            let name = name_of(alloc, ring)?;
            let name = name.as_str();
            write!(
                text,
                "the kernel has had it since line {since} (submit {name})"
            )?;
            match ring {
                Ring::Tx(_) => text.push_str(", and it hasn't come on COMPLETION since"),
                _ => Ok(()),
            }
        }
        Whereabouts::Again(ring) => {
            let name = name_of(alloc, ring)?;
            let name = name.as_str();
            write!(
                text,
                "it stands in {name} again since line {since} (cancel)"
            )
        }
    }
}

fn push_denial(
    alloc: Global,
    text: &mut String,
    blamed: &Blamed<'_>,
    denial: Denial,
) -> Result<(), AllocError> {
    match denial {
        Denial::Granted(most) => push_granted(text, blamed, most),
        Denial::Refused(free, shown) => push_refused(text, blamed, free, shown),
        Denial::Taken(most) => push_taken(text, blamed, most),
        Denial::FewerFree(sure, shown) => push_fewer(text, blamed, sure, shown),
        Denial::More => push_more(text, blamed),
        Denial::Full(held) => push_full(text, blamed, held),
        Denial::Empty(standing, since) => {
            let ring = blamed.ring;
            write!(
                text,
                "(empty): {ring} is empty, and {standing} entries stand there since line {since}"
            )
        }
        denial => push_entry(alloc, text, blamed, denial),
    }
}

fn push_granted(text: &mut String, blamed: &Blamed<'_>, most: u32) -> Result<(), AllocError> {
    let ring = blamed.ring;
    let count = blamed.count;
    let size = blamed.size;
    let reserved = size.saturating_sub(most);
    let how = if blamed.verb == "free" {
        "free"
    } else {
        "granted"
    };
    write!(
        text,
        "(granted): {ring}: {count} places are {how} with {reserved} reserved, and it has {size}"
    )
}

fn push_refused(
    text: &mut String,
    blamed: &Blamed<'_>,
    free: u32,
    shown: u64,
) -> Result<(), AllocError> {
    let ring = blamed.ring;
    let count = blamed.count;
    write!(
        text,
        "(refused): {ring}: {count} places are refused, and {free} are free"
    )?;
    if shown == blamed.line {
        return Ok(());
    }
    push_shown(text, shown)
}

/// The line that showed how many places are free.
fn push_shown(text: &mut String, shown: u64) -> Result<(), AllocError> {
    if shown == 0 {
        return text.push_str(", as all were at the start");
    }
    write!(text, ", as line {shown} showed")
}

fn push_taken(text: &mut String, blamed: &Blamed<'_>, most: u32) -> Result<(), AllocError> {
    let ring = blamed.ring;
    let more = blamed.free.saturating_sub(most);
    write!(
        text,
        "(taken): {ring}: so many places are free that the kernel gave back {more} more than were submitted"
    )
}

fn push_fewer(
    text: &mut String,
    blamed: &Blamed<'_>,
    sure: u32,
    shown: u64,
) -> Result<(), AllocError> {
    let ring = blamed.ring;
    let more = sure.saturating_sub(blamed.free);
    write!(text, "(fewer free): {ring}: {more} places more are free")?;
    push_shown(text, shown)?;
    text.push_str(", and nothing but the program's own calls takes places")
}

fn push_more(text: &mut String, blamed: &Blamed<'_>) -> Result<(), AllocError> {
    let ring = blamed.ring;
    let count = blamed.count;
    let came = blamed.entries.len();
    write!(
        text,
        "(more): {count} entries of {ring} were asked for, and {came} came"
    )
}

fn push_full(text: &mut String, blamed: &Blamed<'_>, held: u32) -> Result<(), AllocError> {
    let ring = blamed.ring;
    let size = blamed.size;
    let came = blamed.entries.len();
    write!(
        text,
        "(full): {ring} has {size} places, {held} are held, and "
    )?;
    if came == 1 {
        return text.push_str("one more entry comes");
    }
    write!(text, "{came} more entries come")
}

/// What is wrong with one of the entries that came.
fn push_entry(
    alloc: Global,
    text: &mut String,
    blamed: &Blamed<'_>,
    denial: Denial,
) -> Result<(), AllocError> {
    let ring = blamed.ring;
    match denial {
        Denial::Other(i, stood, since) => {
            write!(text, "(other): {ring} shows ")?;
            push_desc_at(text, blamed, i)?;
            text.push_str(", and ")?;
            push_desc(text, stood)?;
            write!(text, " has stood there since line {since}")
        }
        Denial::Outside(i) => {
            let (_frame, addr) = frame_of(blamed, i);
            write!(
                text,
                "(outside): {ring} shows address {addr}, which is outside of the UMEM"
            )
        }
        Denial::Entry(i) => {
            write!(text, "(entry): {ring} shows ")?;
            push_desc_at(text, blamed, i)?;
            text.push_str(", which no kernel puts there")
        }
        Denial::NeverSent(i) => {
            let (_frame, addr) = frame_of(blamed, i);
            write!(
                text,
                "(never sent): {ring} shows address {addr}, outside of the UMEM, more often than such addresses were submitted on TX"
            )
        }
        Denial::NotFilled(i, known) => push_comes(
            alloc,
            text,
            blamed,
            i,
            known,
            "(not filled)",
            "FILL",
        ),
        Denial::NotSent(i, known) => push_comes(alloc, text, blamed, i, known, "(not sent)", "TX"),
        Denial::OtherPair(i, known) => push_other_pair(alloc, text, blamed, i, known),
        _ => Ok(()),
    }
}

/// A frame comes that wasn't there.
fn push_comes(
    alloc: Global,
    text: &mut String,
    blamed: &Blamed<'_>,
    i: usize,
    known: Known,
    code: &str,
    from: &str,
) -> Result<(), AllocError> {
    let ring = blamed.ring;
    let (frame, _addr) = frame_of(blamed, i);
    write!(
        text,
        "{code}: frame {frame} comes on {ring}, and isn't on {from}: "
    )?;
    push_known(alloc, text, known)
}

fn push_other_pair(
    alloc: Global,
    text: &mut String,
    blamed: &Blamed<'_>,
    i: usize,
    known: Known,
) -> Result<(), AllocError> {
    let ring = blamed.ring;
    let since = known.since;
    let (frame, _addr) = frame_of(blamed, i);
    write!(text, "(other pair): frame {frame} comes on {ring}")?;
    match known.place {
        Whereabouts::Given(by) => {
            let name = name_of(alloc, by)?;
            let name = name.as_str();
            write!(
                text,
                ", and was submitted on {name}, of another pair, at line {since}"
            )
        }
        _ => Ok(()),
    }
}

/// The entry with this number in the call.
fn push_desc_at(text: &mut String, blamed: &Blamed<'_>, i: usize) -> Result<(), AllocError> {
    match blamed.entries.get(i) {
        Some(entry) => push_desc(text, *entry),
        None => Ok(()),
    }
}

/// An entry: address, length and options.
fn push_desc(text: &mut String, entry: XdpDesc) -> Result<(), AllocError> {
    let addr = entry.addr;
    let len = entry.len;
    let options = entry.options;
    write!(text, "{addr}:{len}:{options}")
}

/// The frame and the address of the entry with this number in the call.
fn frame_of(blamed: &Blamed<'_>, i: usize) -> (u64, u64) {
    match blamed.entries.get(i) {
        Some(entry) => (
            entry.addr.checked_div(u64::from(blamed.chunk)).unwrap_or(0),
            entry.addr,
        ),
        None => (0, 0),
    }
}
