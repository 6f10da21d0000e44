//! Whether a call changed anything.
ghost use Rattle.std.specs.Prelude.{◌≡◌, ◌↔◌, false, List, IsTrue};
ghost use Rattle.xsk_umem.specs.declared.batch.Item.{Item};
ghost use Rattle.xsk_model.specs.Asks.{joined_call, joined_reply};
ghost use Rattle.xsk_model.specs.OtherWords.{changes};

use xsk_model::{Answer, Ask};

/// Whether a call with its answer changed nothing, neither the object nor the number of packets that have their disposals.
pub fn is_quiet(ask: Ask, answer: Answer, before: usize, settled: usize) -> bool
    ensures { (items later : List Item) → IsTrue result ↔ ((changes (joined_call ask items) (joined_reply answer later) ≡ false) × (settled ≡ before)) }
{
    if has_changed(ask, answer) {
        return false;
    }
    settled == before
}

/// Whether a call with its answer changed the object.
fn has_changed(ask: Ask, answer: Answer) -> bool
    ensures { (items later : List Item) → result ≡ changes (joined_call ask items) (joined_reply answer later) }
{
    match ask {
        Ask::Look(_) => false,
        Ask::Swap(_, value) => match answer {
            Answer::Old(old) => old != value,
            Answer::Full(_) | Answer::Empty => false,
            Answer::Granted | Answer::Submitted | Answer::Items | Answer::Released => true,
        },
        Ask::Reserve(..) | Ask::Submit(_) | Ask::Peek(..) | Ask::Release(..) => match answer {
            Answer::Full(_) | Answer::Empty => false,
            Answer::Granted
            | Answer::Submitted
            | Answer::Items
            | Answer::Released
            | Answer::Old(_) => true,
        },
    }
}
