//! How the driver's machine acknowledges that a socket of its pair is closed: at the start of a turn it looks whether it is, until
//! it has acknowledged it. From then on no cell leads to the socket, so nothing is delivered to it.
ghost use Rattle.std.specs.Prelude.{Some, None, ◌≡◌, ◌==◌, if◌then◌else◌};

use crate::machine::{Machine, Wait};
use xsk_model::{Ask, Mark};

/// The machine's acknowledgement.
impl<'a> Machine<'a> {
    ghost use Rattle.xsk_driver.specs.Gives.{Gives};
    ghost use Rattle.xsk_turns.specs.Turns.{fresh, receive, closing_of, with_acked};
    ghost use Rattle.xsk_driver.specs.Stands.{seat_in, kept_in, GoesOnAsk};
    ghost use Rattle.xsk_turns.specs.Script.{ask, again, on_old};
    ghost use Rattle.xsk_model.specs.declared.call.Mark.TheVariants.{Acked};
    ghost use Rattle.xsk_model.specs.declared.call.Call.TheVariants.{Swap};

    /// Begins a turn of a driver that isn't parked.
    #[tactic(auto, using(crate::proofs::Steps::awake_receives, crate::proofs::Steps::awake_looks))]
    pub(crate) fn begin_awake(&mut self, asked: &mut Option<Ask>)
        requires awake { (kept_in self.old).parked ≡ None }
        ensures gives { Gives self.old self.new asked.new }
        ensures goes { GoesOnAsk (seat_in self.old) self.new asked.new (again (kept_in self.old)) }
    {
        match self.unacknowledged() {
            Some(socket) => {
                self.wait = Wait::LookClosing { socket };
                *asked = Some(Ask::Look(Mark::Closing(socket)));
            }
            None => self.begin_receiving(asked),
        }
    }

    /// The socket of its pair that is to be closed, while it hasn't acknowledged that.
    fn unacknowledged(&self) -> Option<u32>
        ensures { result ≡ (if (kept_in self.now).acked then None else closing_of (seat_in self.now)) }
    {
        if self.acked {
            return None;
        }
        match self.config.closing() {
            Some(socket) if socket / self.classes == self.pair => Some(socket),
            _ => None,
        }
    }

    /// Goes on by the mark that tells whether the socket is closed.
    pub(crate) fn learn_closing(&mut self, socket: u32, closed: u64, asked: &mut Option<Ask>)
        ensures gives { Gives self.old self.new asked.new }
        ensures goes { GoesOnAsk (seat_in self.old) self.new asked.new (if closed == 1 then ask (kept_in self.old) (Swap (Acked socket) 1) (on_old (λ _. receive (seat_in self.old) (kept_in self.old).coming fresh (with_acked (kept_in self.old)))) else receive (seat_in self.old) (kept_in self.old).coming fresh (kept_in self.old)) }
    {
        if closed == 1 {
            self.wait = Wait::TellAcked;
            *asked = Some(Ask::Swap(Mark::Acked(socket), 1));
        } else {
            self.begin_receiving(asked);
        }
    }

    /// Goes on once it has acknowledged.
    pub(crate) fn go_on_acknowledged(&mut self, asked: &mut Option<Ask>)
        ensures gives { Gives self.old self.new asked.new }
        ensures goes { GoesOnAsk (seat_in self.old) self.new asked.new (receive (seat_in self.old) (kept_in self.old).coming fresh (with_acked (kept_in self.old))) }
    {
        self.acked = true;
        self.begin_receiving(asked);
    }
}
