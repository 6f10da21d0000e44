//! The frames on FILL, and when the last of them went.
ghost use Rattle.std.specs.Prelude.{◌≡◌, ◌<◌, ◌++◌, ℕ, Option, List, [], ◌∷◌, IfOk, OnOk, length};
ghost use Rattle.xsk_judge.specs.Stands.{Line, IsReady, StandsFor, calls_of};
ghost use Rattle.xsk_side.specs.Local.{given_of};
ghost use Rattle.xsk_side.specs.Possible.{Possible};
ghost use Rattle.xsk_judge.specs.Kept.{given_by};
ghost use Rattle.xsk_hints.specs.Fills.{Feeds, fills_text, told_fill, raised, raised_on, one_more, one_less, raised_if, drained, drained_by, source_of_entry};

use crate::tally::Tally;
use crate::text::{push_dry, push_tally};
use std::alloc::Global;
use std::marker::Model;
use xsk_judge::{Judge, Whereabouts};
use xsk_model::Ring;
use xsk_side::{Call, Setting};
use xsk_umem::{OutOfMemory, XdpDesc};

/// FILL of a pair: how many frames are on it, and the lines at which the last of them went.
#[derive(Clone, Copy, Debug)]
pub(crate) struct Fill {
    pub(crate) frames: u64,
    pub(crate) dried: Tally,
}

impl Fill {
    fn with_one(self) -> Fill
        ensures { result ≡ one_more self }
    {
        let more = self.frames < u64::MAX;
        Fill {
            frames: if more { self.frames + 1 } else { self.frames },
            dried: self.dried,
        }
    }

    fn without_one(self, line: u64) -> Fill
        ensures { result ≡ one_less line self }
    {
        if self.frames == 0 {
            return self;
        }
        let last = self.frames == 1;
        Fill {
            frames: self.frames - 1,
            dried: if last {
                self.dried.with(line)
            } else {
                self.dried
            },
        }
    }
}

/// How many frames are on each FILL, beside a judge, and when the last of them went: from then on the kernel has none of that ring to
/// receive into. It takes some memory for each pair, all at the start.
#[derive(Debug, Drop)]
pub struct Fills {
    /// By pair.
    fills: Vec<Fill>,
}

impl Model for Fills {
    ghost use Rattle.std.specs.Prelude.{List};
    ghost use Rattle.xsk_hints.specs.declared.fills.Fill.{Fill as AFill};

    ghost Value = { List AFill };

    ghost view = { λ f. f.fills.items };
}

impl Fills {
    /// Before the first call. It takes all the memory that it will need; want of it is the one error.
    pub fn new(alloc: Global, setting: &Setting) -> Result<Fills, OutOfMemory>
        ensures sized { IfOk result (λ fills. length fills ≡ length setting.now.pairs) }
        ensures feeds { IfOk result (λ fills. Feeds setting.now fills []) }
    {
        let none = Fill {
            frames: 0,
            dried: Tally::none(),
        };
        let fills = vec![in alloc; none; setting.pairs().len()]?;
        Ok(Fills { fills })
    }

    /// Notes the next call, which stands in this line, where the judge stands for those before it. It takes no memory. Where the call
    /// isn't possible it isn't used again.
    pub fn note(&mut self, setting: &Setting, judge: &Judge, line: u64, call: &Call)
        requires ready { IsReady setting.now judge.now }
        requires sized { length self.old ≡ length setting.now.pairs }
        ensures sized { length self.new ≡ length setting.now.pairs }
        ensures feeds { (lines : List Line) → StandsFor setting.now judge.now lines → Possible setting.now (call.now ∷ calls_of lines)
            → Feeds setting.now self.old lines → Feeds setting.now self.new (record { line = line; call = call.now } ∷ lines) }
    {
        match call {
            Call::Submit(ring, entries) => submitted(
                &mut self.fills,
                setting,
                *ring,
                entries.as_slice(),
            ),
            Call::Peek(_, _, entries) => drain(
                &mut self.fills,
                setting,
                judge,
                line,
                entries.as_slice(),
            ),
            Call::Reserve(_, _, _)
            | Call::Free(_, _, _)
            | Call::Release(_, _)
            | Call::Cancel(_, _) => {}
        }
    }

    /// Puts behind a text, of each FILL, how often its last frame went, with the first and the last line at which one did, and where
    /// there was none at the end, since when. It fails for want of memory alone.
    pub fn append(&self, text: &mut Vec<u8>, setting: &Setting) -> Result<(), OutOfMemory>
        requires { length self.now ≡ length setting.now.pairs }
        ensures { (lines : List Line) → Feeds setting.now self.now lines → OnOk result (text.new.items ≡ text.old.items ++ fills_text setting.now lines) }
    {
        push_fills(text, setting, self.fills.as_slice())
    }
}

fn push_fills(text: &mut Vec<u8>, setting: &Setting, fills: &[Fill]) -> Result<(), OutOfMemory>
    requires { length fills.now ≡ length setting.now.pairs }
    ensures { (lines : List Line) → Feeds setting.now fills.now lines → OnOk result (text.new.items ≡ text.old.items ++ fills_text setting.now lines) }
{
    for pair in 0..setting.pairs().len() as u32 {
        push_fill(text, pair, fills[pair as usize])?;
    }
    Ok(())
}

fn push_fill(text: &mut Vec<u8>, pair: u32, fill: Fill) -> Result<(), OutOfMemory>
    ensures { OnOk result (text.new.items ≡ text.old.items ++ told_fill pair fill) }
{
    let words = ": times that no frame was left on it: ";
    push_tally(text, Ring::Fill(pair), words, fill.dried)?;
    let since = if fill.frames == 0 { fill.dried.last } else { 0 };
    push_dry(text, pair, since)
}

/// Entries are submitted on a ring.
fn submitted(fills: &mut Vec<Fill>, setting: &Setting, ring: Ring, entries: &[XdpDesc])
    ensures { fills.new.items ≡ raised_on setting.now ring entries.now fills.old.items }
{
    match ring {
        Ring::Fill(pair) => raise(fills, setting, pair, entries),
        Ring::Comp(_) | Ring::Rx(_) | Ring::Tx(_) => {}
    }
}

/// Entries are submitted on FILL of a pair.
fn raise(fills: &mut Vec<Fill>, setting: &Setting, pair: u32, entries: &[XdpDesc])
    ensures { fills.new.items ≡ raised setting.now pair entries.now fills.old.items }
{
    for entry in entries {
        raise_one(fills, setting, pair, *entry);
    }
}

fn raise_one(fills: &mut Vec<Fill>, setting: &Setting, pair: u32, entry: XdpDesc)
    ensures { fills.new.items ≡ raised_if setting.now pair entry fills.old.items }
{
    let pair = pair as usize;
    if setting.frame(entry).is_some() && pair < fills.len() {
        fills[pair] = fills[pair].with_one();
    }
}

/// Entries are shown on a ring; a judge tells where their frames were before.
fn drain(fills: &mut Vec<Fill>, setting: &Setting, judge: &Judge, line: u64, entries: &[XdpDesc])
    requires { IsReady setting.now judge.now }
    ensures { (lines : List Line) → StandsFor setting.now judge.now lines → fills.new.items ≡ drained setting.now line (given_of setting.now (calls_of lines)) entries.now fills.old.items }
{
    for entry in entries {
        let from = source(setting, judge, *entry);
        drain_one(fills, line, from);
    }
}

/// The ring on which the entry's frame was given.
fn source(setting: &Setting, judge: &Judge, entry: XdpDesc) -> Option<Ring>
    requires { IsReady setting.now judge.now }
    ensures { (lines : List Line) → StandsFor setting.now judge.now lines → result ≡ source_of_entry setting.now (given_of setting.now (calls_of lines)) entry }
{
    let frame = setting.frame(entry)?;
    given(judge.known(setting, frame).place)
}

fn given(place: Whereabouts) -> Option<Ring>
    ensures { result ≡ given_by place }
{
    match place {
        Whereabouts::Given(ring) => Some(ring),
        Whereabouts::Start | Whereabouts::Peeked(_, _) | Whereabouts::Again(_) => None,
    }
}

fn drain_one(fills: &mut Vec<Fill>, line: u64, from: Option<Ring>)
    ensures { fills.new.items ≡ drained_by line from fills.old.items }
{
    if let Some(Ring::Fill(pair)) = from {
        let pair = pair as usize;
        if pair < fills.len() {
            fills[pair] = fills[pair].without_one(line);
        }
    }
}
