//! Calls and replies without their items, which stand in a batch beside them.
ghost use Rattle.std.specs.Prelude.{◌≡◌, []};
ghost use Rattle.xsk_model.specs.Asks.{joined_call, joined_reply, ask_of, answer_of, HasAsked, HasAnswered};
ghost use Rattle.xsk_model.specs.Object.{submitted, taken};

use crate::call::{Call, Mark, Reply, Ring};
use xsk_umem::Batch;

/// A call without its items, which stand in a batch beside it. It is small, so it is cheap to move.
#[derive(Clone, Copy, Debug, PartialEq, Eq)]
pub enum Ask {
    /// Asks for so many free places of a ring.
    Reserve(Ring, u32),
    /// Puts the batch's items into places that were reserved.
    Submit(Ring),
    /// Takes at most so many items from a ring.
    Peek(Ring, u32),
    /// Gives back the places of so many items that were taken.
    Release(Ring, u32),
    /// Sets a mark and tells what it was.
    Swap(Mark, u64),
    /// Tells what a mark is.
    Look(Mark),
}

/// A reply without its items, which stand in a batch beside it.
#[derive(Clone, Copy, Debug, PartialEq, Eq)]
pub enum Answer {
    /// The places are reserved.
    Granted,
    /// Only so many places are free.
    Full(u32),
    /// The items stand in the ring.
    Submitted,
    /// The items that were taken, at least one, stand in the batch.
    Items,
    /// No item stands in the ring.
    Empty,
    /// The places are free again.
    Released,
    /// The number that the mark had.
    Old(u64),
}

impl Call {
    /// The call without its items, which are put into the batch. It must be empty, and stays so unless the call is a Submit.
    pub fn split(self, items: &mut Batch) -> Ask
        requires { items.old ≡ [] }
        ensures ask { result ≡ ask_of self }
        ensures submitted { items.new ≡ submitted self }
        ensures call { joined_call result items.new ≡ self }
        ensures items { HasAsked result items.new }
    {
        match self {
            Call::Reserve(ring, count) => Ask::Reserve(ring, count),
            Call::Submit(ring, batch) => {
                *items = batch;
                Ask::Submit(ring)
            }
            Call::Peek(ring, count) => Ask::Peek(ring, count),
            Call::Release(ring, count) => Ask::Release(ring, count),
            Call::Swap(mark, value) => Ask::Swap(mark, value),
            Call::Look(mark) => Ask::Look(mark),
        }
    }
}

impl Ask {
    /// The call with the batch's items. Unless it is a Submit the batch must be empty.
    pub fn joined(self, items: Batch) -> Call
        requires { HasAsked self items }
        ensures { result ≡ joined_call self items }
    {
        match self {
            Ask::Reserve(ring, count) => Call::Reserve(ring, count),
            Ask::Submit(ring) => Call::Submit(ring, items),
            Ask::Peek(ring, count) => Call::Peek(ring, count),
            Ask::Release(ring, count) => Call::Release(ring, count),
            Ask::Swap(mark, value) => Call::Swap(mark, value),
            Ask::Look(mark) => Call::Look(mark),
        }
    }
}

impl Reply {
    /// The reply without its items, which are put into the batch. It must be empty, and stays so unless items were taken.
    pub fn split(self, items: &mut Batch) -> Answer
        requires { items.old ≡ [] }
        ensures answer { result ≡ answer_of self }
        ensures taken { items.new ≡ taken self }
        ensures reply { joined_reply result items.new ≡ self }
        ensures items { HasAnswered result items.new }
    {
        match self {
            Reply::Granted => Answer::Granted,
            Reply::Full(free) => Answer::Full(free),
            Reply::Submitted => Answer::Submitted,
            Reply::Items(batch) => {
                *items = batch;
                Answer::Items
            }
            Reply::Empty => Answer::Empty,
            Reply::Released => Answer::Released,
            Reply::Old(number) => Answer::Old(number),
        }
    }
}

impl Answer {
    /// The reply with the batch's items. Unless items were taken the batch must be empty.
    pub fn joined(self, items: Batch) -> Reply
        requires { HasAnswered self items }
        ensures { result ≡ joined_reply self items }
    {
        match self {
            Answer::Granted => Reply::Granted,
            Answer::Full(free) => Reply::Full(free),
            Answer::Submitted => Reply::Submitted,
            Answer::Items => Reply::Items(items),
            Answer::Empty => Reply::Empty,
            Answer::Released => Reply::Released,
            Answer::Old(number) => Reply::Old(number),
        }
    }
}
