//! A worker that is played by hand: it makes one call, and goes on with the reply to it.
ghost use Rattle.std.specs.Prelude.{◌≡◌, IfSome, Some};
ghost use Rattle.xsk_model.specs.Expected.{Expected, CanCome, expected_by, expected_of, nothing};

use crate::texts::{tell_act, tell_disposal, tell_last, tell_number, tell_packets};
use crate::trouble::Trouble;
use std::mem;
use xsk_app::App;
use xsk_driver::{Disposal, Driver};
use xsk_model::{Act, Call, Reply};
use xsk_umem::Frames;

pub(crate) trait Worker: Drop {
    // What it waits for.
    ghost expected: { Self → Expected };

    /// Goes on with the reply to the last call (none at first).
    fn next(&mut self, reply: Option<Reply>) -> Act
        requires { CanCome (expected self.old) reply }
        ensures { expected self.new ≡ expected_of result };

    /// Answers a question. False where the line is none.
    fn tell(&self, line: &str, text: &mut String) -> Result<bool, Trouble>;

    /// Gives back the frames that it has.
    fn give_back(self, frames: &mut Frames);
}

impl Worker for Driver<'_> {
    ghost expected = { λ d. d.expected };

    fn next(&mut self, reply: Option<Reply>) -> Act {
        Driver::next(self, reply)
    }

    fn tell(&self, line: &str, text: &mut String) -> Result<bool, Trouble> {
        let told = match line {
            "parked" => tell_parked(self.parked(), text),
            "disposals" => tell_disposals(self.disposals(), text),
            "counters" => tell_counters(self, text),
            "sent" => tell_sent(self, text),
            _ => return Ok(false),
        };
        match told {
            Ok(()) => Ok(true),
            Err(trouble) => Err(trouble),
        }
    }

    fn give_back(self, frames: &mut Frames) {
        let _sent = self.into_parts(frames);
    }
}

fn tell_parked(parked: bool, text: &mut String) -> Result<(), Trouble> {
    text.push_str(if parked {
        "parked: true\n"
    } else {
        "parked: false\n"
    })?;
    Ok(())
}

fn tell_disposals(disposals: &[Disposal], text: &mut String) -> Result<(), Trouble> {
    text.push_str("disposals:")?;
    for disposal in disposals {
        tell_disposal(*disposal, text)?;
    }
    text.push('\n')?;
    Ok(())
}

/// What was lost on receiving.
fn tell_counters(driver: &Driver<'_>, text: &mut String) -> Result<(), Trouble> {
    let counters = driver.counters();
    tell_number("counters: rx_dropped ", counters.rx_dropped, text)?;
    tell_number(" rx_invalid_descs ", counters.rx_invalid_descs, text)?;
    tell_last(
        " rx_fill_ring_empty_descs ",
        counters.rx_fill_ring_empty_descs,
        text,
    )
}

/// The packets that were sent, or that they were too many for their room.
fn tell_sent(driver: &Driver<'_>, text: &mut String) -> Result<(), Trouble> {
    if driver.overrun() {
        text.push_str("sent: more than there was room for\n")?;
        return Ok(());
    }
    text.push_str("sent: ")?;
    tell_packets(driver.sent(), text)
}

impl Worker for App<'_> {
    ghost expected = { λ a. a.expected };

    fn next(&mut self, reply: Option<Reply>) -> Act {
        App::next(self, reply)
    }

    fn tell(&self, _line: &str, _text: &mut String) -> Result<bool, Trouble> {
        Ok(false)
    }

    fn give_back(self, frames: &mut Frames) {
        self.into_frames(frames);
    }
}

/// The reply, where it is one of the call's kind.
fn fitting(call: &Call, reply: Reply) -> Option<Reply>
    ensures { IfSome result (λ r. CanCome (expected_by call.now) (Some r)) }
{
    let fits = match call {
        Call::Reserve(_, _) => matches!(&reply, Reply::Granted | Reply::Full(_)),
        Call::Submit(_, _) => matches!(&reply, Reply::Submitted),
        Call::Peek(_, _) => matches!(&reply, Reply::Items(_) | Reply::Empty),
        Call::Release(_, _) => matches!(&reply, Reply::Released),
        Call::Swap(_, _) | Call::Look(_) => matches!(&reply, Reply::Old(_)),
    };
    if fits { Some(reply) } else { None }
}

/// A worker with its name, a letter and a number, and with the call that it makes now.
#[derive(Drop)]
pub(crate) struct Hand<M: Worker> {
    letter: &'static str,
    number: u32,
    worker: M,
    act: Act,
    ghost awaits: { M.expected worker ≡ expected_of act },
}

impl<M: Worker> Hand<M> {
    pub(crate) fn new(letter: &'static str, number: u32, worker: M) -> Hand<M>
        requires { M.expected worker ≡ nothing }
    {
        let mut worker = worker;
        let act = worker.next(None);
        Hand {
            letter,
            number,
            worker,
            act,
        }
    }

    /// The call that it makes now, or that it has ended.
    pub(crate) fn act(&self) -> &Act {
        &self.act
    }

    /// Answers a question. False where the line is none.
    pub(crate) fn tell(&self, line: &str, text: &mut String) -> Result<bool, Trouble> {
        self.worker.tell(line, text)
    }

    /// Tells its call, with what comes.
    pub(crate) fn tell_call(&self, reply: &str, text: &mut String) -> Result<(), Trouble> {
        tell_number(self.letter, u64::from(self.number), text)?;
        text.push(' ')?;
        tell_act(&self.act, text)?;
        text.push_str(" -> ")?;
        text.push_str(reply)?;
        text.push('\n')?;
        Ok(())
    }

    /// Goes on with the reply and hands out the call that it answers. None, and the worker stays, where it can't come.
    pub(crate) fn goes(&mut self, reply: Reply) -> Option<Act> {
        let Act::Call(call) = &self.act else {
            return None;
        };
        let reply = fitting(call, reply)?;
        let next = self.worker.next(Some(reply));
        Some(mem::replace(&mut self.act, next))
    }

    /// Gives back the frames that the worker has.
    pub(crate) fn give_back(self, frames: &mut Frames) {
        let Hand { worker, .. } = self;
        worker.give_back(frames);
    }
}
