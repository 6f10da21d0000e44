//! The entries of a log, each without its items.
ghost use Rattle.std.specs.Prelude.{◌≡◌, ◌<◌, List, Some, slice_get};
ghost use Rattle.xsk_umem.specs.declared.batch.Item.{Item};
ghost use Rattle.xsk_model.specs.Asks.{ask_of, answer_of};
ghost use Rattle.xsk_model.specs.Entry.{Entry};
ghost use Rattle.xsk_log.specs.Log.{calls_of, entries_of, call_of, reply_of};

use crate::log::{Event, Log};
use xsk_model::{Answer, Ask};

/// A call with its caller and its reply, both without their items.
#[derive(Clone, Copy, Debug, PartialEq, Eq)]
pub struct Noted {
    pub who: u32,
    pub ask: Ask,
    pub answer: Answer,
}

impl Log {
    /// Entry `i`, counted from 0. Its items stand in its line.
    pub fn entry(&self, i: u32) -> Noted
        requires { i < calls_of self.now }
        ensures { (e : Entry) → slice_get (entries_of self.now) i ≡ Some e → result ≡ record { who = e.who; ask = ask_of e.call; answer = answer_of e.reply } }
    {
        let row = self.rows.get(i);
        Noted {
            who: row.who,
            ask: ask_in(row.event),
            answer: answer_in(row.event),
        }
    }
}

/// The call of a row.
fn ask_in(event: Event) -> Ask
    ensures { (items : List Item) → result ≡ ask_of (call_of event items) }
{
    match event {
        Event::Granted(ring, count) | Event::Full(ring, count, _) => Ask::Reserve(ring, count),
        Event::Submitted(ring) => Ask::Submit(ring),
        Event::Items(ring, count) | Event::Empty(ring, count) => Ask::Peek(ring, count),
        Event::Released(ring, count) => Ask::Release(ring, count),
        Event::Swapped(mark, value, _) => Ask::Swap(mark, value),
        Event::Looked(mark, _) => Ask::Look(mark),
    }
}

/// The reply of a row.
fn answer_in(event: Event) -> Answer
    ensures { (items : List Item) → result ≡ answer_of (reply_of event items) }
{
    match event {
        Event::Granted(..) => Answer::Granted,
        Event::Full(_, _, free) => Answer::Full(free),
        Event::Submitted(_) => Answer::Submitted,
        Event::Items(..) => Answer::Items,
        Event::Empty(..) => Answer::Empty,
        Event::Released(..) => Answer::Released,
        Event::Swapped(_, _, old) | Event::Looked(_, old) => Answer::Old(old),
    }
}
