//! Calls that are made and noted.
ghost use Rattle.std.specs.Prelude.{◌≡◌, ◌≤◌, List, [], ◌∷◌, ◌++◌, IfOk};
ghost use Rattle.xsk_umem.specs.Frame.{Frame};
ghost use Rattle.xsk_model.specs.Asks.{joined_call, joined_reply, HasAsked, HasAnswered};
ghost use Rattle.xsk_model.specs.Entry.{Entry, own};
ghost use Rattle.xsk_model.specs.Expected.{IsReplyTo};
ghost use Rattle.xsk_model.specs.Legal.{IsLegal};
ghost use Rattle.xsk_plain.specs.Histories.{HasRun, NotesOwn, EachNotesOwn};
ghost use Rattle.xsk_plain.specs.Rooms.{Enters, payload_bytes};
ghost use Rattle.xsk_plain.specs.Steps.{FollowsObject};

use crate::plain::Plain;
use std::alloc::Global;
use xsk_legal::Standing;
use xsk_model::{Answer, Ask, Config};
use xsk_umem::{Batch, OutOfMemory};

/// A standing for each caller, none of which has made a call.
pub(crate) fn new_standings(alloc: Global, config: &Config) -> Result<Vec<Standing>, OutOfMemory>
    ensures { IfOk result (λ standings. EachNotesOwn config.now [] standings.items) }
{
    let callers = config.callers();
    let mut standings = Vec::with_capacity(alloc, callers as usize)?;
    for who in 0..callers {
        standings.push(Standing::new(alloc, config, who)?)?;
    }
    Ok(standings)
}

/// Makes a call that is legal for the caller, and notes it.
pub(crate) fn serve_noted(
    plain: &mut Plain,
    standing: &mut Standing,
    who: u32,
    ask: Ask,
    items: &mut Batch,
) -> Answer
    requires run { (frames : List Frame) × (h : List Entry) × HasRun plain.old frames h × NotesOwn plain.old.config h who standing.old
        × IsLegal plain.old.config (own who h) who (joined_call ask items.old) }
    requires entries { 1 ≤ plain.old.spare_entries }
    requires bytes { payload_bytes plain.old.config (joined_call ask items.old) ≤ plain.old.spare_bytes }
    requires items { HasAsked ask items.old }
    ensures run { (frames : List Frame) (h : List Entry) → HasRun plain.old frames h → NotesOwn plain.old.config h who standing.old
        → IsLegal plain.old.config (own who h) who (joined_call ask items.old)
        → HasRun plain.new frames (h ++ (record { who = who; call = joined_call ask items.old; reply = joined_reply result items.new }) ∷ [])
        × NotesOwn plain.new.config (h ++ (record { who = who; call = joined_call ask items.old; reply = joined_reply result items.new }) ∷ []) who standing.new }
    ensures kind { IsReplyTo (joined_call ask items.old) (joined_reply result items.new) }
    ensures enters { Enters plain.old plain.new who (joined_call ask items.old) (joined_reply result items.new) (payload_bytes plain.old.config (joined_call ask items.old)) }
    ensures follows { FollowsObject plain.old plain.new who (joined_call ask items.old) (joined_reply result items.new) }
    ensures items { HasAnswered result items.new }
{
    standing.gives(plain.config(), ask, items);
    let answer = plain.serve(who, ask, items);
    standing.got(plain.config(), ask, answer, items);
    answer
}
