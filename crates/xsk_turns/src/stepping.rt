//! A worker's reply and act, parted from their items, which stand in a batch that is lent to it.
ghost use Rattle.std.specs.Prelude.{◌≡◌, []};
ghost use Rattle.xsk_turns.specs.Stepping.{joined_answer, joined_ask, IsLent, IsGivenBack};

use xsk_model::{Act, Answer, Ask, Reply};
use xsk_umem::Batch;

/// The reply without its items, which are put into the batch. It must be empty.
pub fn split_reply(reply: Option<Reply>, items: &mut Batch) -> Option<Answer>
    requires { items.old ≡ [] }
    ensures reply { joined_answer result items.new ≡ reply }
    ensures lent { IsLent result items.new }
{
    match reply {
        Some(reply) => Some(reply.split(items)),
        None => None,
    }
}

/// The call with the batch's items, or the end.
pub fn join_ask(ask: Option<Ask>, items: Batch) -> Act
    requires { IsGivenBack ask items }
    ensures { result ≡ joined_ask ask items }
{
    match ask {
        Some(ask) => Act::Call(ask.joined(items)),
        None => Act::Ended,
    }
}
