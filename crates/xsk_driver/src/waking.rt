//! How the driver's machine parks where the need-wakeup flags are used (af_xdp.rst, "XDP_USE_NEED_WAKEUP bind flag"): it sets its
//! flags, looks at each ring a second time, and then looks at its kick until it is 1. Whatever the application submits before
//! the second look is found there, and whatever it submits later it submits under a flag that it sees.
ghost use Rattle.std.specs.Prelude.{Some, None, true, ◌≡◌, ℕ, List, ◌+◌, ◌*◌, ◌<◌, ◌≤◌, ◌==◌, ◌||◌, [], if◌then◌else◌, length};

use crate::machine::{Machine, Next, Wait, Which};
use xsk_model::{Ask, Mark, Ring};

/// The machine's parking.
impl<'a> Machine<'a> {
    ghost use Rattle.xsk_driver.specs.Gives.{Gives};
    ghost use Rattle.xsk_turns.specs.Turns.{awaits, woken, flag_from, flag_all, look_again as look_again_script, look_from, settle as settle_script, park as park_script, look_kick as look_kick_script, disarm as disarm_script};
    ghost use Rattle.xsk_driver.specs.Stands.{seat_in, kept_in, noted_in, IsArming, IsLooked, GoesOnAsk};
    ghost use Rattle.xsk_turns.specs.Script.{ask, again, on_old};
    ghost use Rattle.xsk_model.specs.declared.call.Mark.TheVariants.{Kick};
    ghost use Rattle.xsk_model.specs.declared.call.Call.TheVariants.{Swap};

    /// Sets its flags: FILL's where it waits for frames, and that of each class's TX ring.
    pub(crate) fn arm(&mut self, asked: &mut Option<Ask>)
        requires arming { IsArming (seat_in self.old) (noted_in self.old) (kept_in self.old) 0 }
        ensures gives { Gives self.old self.new asked.new }
        ensures goes { GoesOnAsk (seat_in self.old) self.new asked.new (flag_all (seat_in self.old) (awaits (noted_in self.old)) 1 (kept_in self.old) (look_again_script (seat_in self.old) (noted_in self.old) (kept_in self.old))) }
    {
        if self.turn.lacking > 0 {
            self.wait = Wait::Arm { class: 0 };
            *asked = Some(Ask::Swap(Mark::NeedFill(self.pair), 1));
        } else {
            self.arm_tx(0, asked);
        }
    }

    /// Sets the flag of the class's TX ring, or looks again after the last one.
    pub(crate) fn arm_tx(&mut self, class: u32, asked: &mut Option<Ask>)
        requires arming { IsArming (seat_in self.old) (noted_in self.old) (kept_in self.old) class }
        ensures gives { Gives self.old self.new asked.new }
        ensures goes { GoesOnAsk (seat_in self.old) self.new asked.new (flag_from (seat_in self.old) 1 class (kept_in self.old) (look_again_script (seat_in self.old) (noted_in self.old) (kept_in self.old))) }
    {
        if class == self.classes {
            self.look_again(asked);
        } else {
            self.wait = Wait::Arm { class: class + 1 };
            *asked = Some(Ask::Swap(Mark::NeedTx(self.socket_of(class)), 1));
        }
    }

    /// Looks a second time: at FILL where it waits for frames, and at each class's TX ring.
    fn look_again(&mut self, asked: &mut Option<Ask>)
        requires arming { IsArming (seat_in self.old) (noted_in self.old) (kept_in self.old) self.old.classes }
        ensures gives { Gives self.old self.new asked.new }
        ensures goes { GoesOnAsk (seat_in self.old) self.new asked.new (look_again_script (seat_in self.old) (noted_in self.old) (kept_in self.old)) }
    {
        if self.turn.lacking > 0 {
            let next = Next::Visit {
                look: Which::Again,
                class: 0,
            };
            self.wait = Wait::PeekFill { next };
            *asked = Some(Ask::Peek(Ring::Fill(self.pair), self.turn.lacking));
        } else {
            self.look_tx(0, asked);
        }
    }

    /// Looks at the class's TX ring, or goes on after the last one. Nothing is completed before the look has ended.
    pub(crate) fn look_tx(&mut self, class: u32, asked: &mut Option<Ask>)
        requires looked { IsLooked (seat_in self.old) (kept_in self.old) class }
        ensures gives { Gives self.old self.new asked.new }
        ensures goes { GoesOnAsk (seat_in self.old) self.new asked.new (look_from (seat_in self.old) class (noted_in self.old) (kept_in self.old)) }
    {
        if class == self.classes {
            self.settle_down(asked);
        } else {
            self.peek_tx(Which::Again, class, asked);
        }
    }

    /// Ends the second look: clears its flags where it gave items, and else parks, once it knows that the application may still
    /// send.
    fn settle_down(&mut self, asked: &mut Option<Ask>)
        ensures gives { Gives self.old self.new asked.new }
        ensures goes { GoesOnAsk (seat_in self.old) self.new asked.new (settle_script (seat_in self.old) (noted_in self.old) (kept_in self.old)) }
    {
        if self.turn.progress {
            self.disarm(self.turn.lacking > 0, asked);
        } else if self.rx_done {
            self.wait = Wait::LookEnd;
            *asked = Some(self.look_at_end());
        } else {
            self.park(asked);
        }
    }

    /// Goes on by the mark that tells whether the application sends nothing more.
    pub(crate) fn learn_end(&mut self, done: u64, asked: &mut Option<Ask>)
        ensures gives { Gives self.old self.new asked.new }
        ensures goes { GoesOnAsk (seat_in self.old) self.new asked.new (if done == 1 then disarm_script (seat_in self.old) (awaits (noted_in self.old)) (record (kept_in self.old) { tx_done = true }) else park_script (awaits (noted_in self.old)) (kept_in self.old)) }
    {
        if done == 1 {
            self.tx_done = true;
            self.disarm(self.turn.lacking > 0, asked);
        } else {
            self.park(asked);
        }
    }

    /// Is parked: from now on it looks at its kick.
    fn park(&mut self, asked: &mut Option<Ask>)
        ensures gives { Gives self.old self.new asked.new }
        ensures goes { GoesOnAsk (seat_in self.old) self.new asked.new (park_script (awaits (noted_in self.old)) (kept_in self.old)) }
    {
        self.parked = Some(self.turn.lacking > 0);
        self.begin(asked);
    }

    pub(crate) fn look_kick(&mut self, frames: bool, asked: &mut Option<Ask>)
        ensures gives { Gives self.old self.new asked.new }
        ensures goes { GoesOnAsk (seat_in self.old) self.new asked.new (look_kick_script (seat_in self.old) frames (kept_in self.old)) }
    {
        self.wait = Wait::LookKick { frames };
        *asked = Some(Ask::Look(Mark::Kick(self.pair)));
    }

    /// Goes on by its kick: clears it where it was kicked, and else looks again.
    pub(crate) fn go_on_kicked(&mut self, frames: bool, kick: u64, asked: &mut Option<Ask>)
        ensures gives { Gives self.old self.new asked.new }
        ensures goes { GoesOnAsk (seat_in self.old) self.new asked.new (if kick == 1 then ask (woken (kept_in self.old)) (Swap (Kick self.old.pair) 0) (on_old (λ _. disarm_script (seat_in self.old) frames (woken (kept_in self.old)))) else again (kept_in self.old)) }
    {
        if kick == 1 {
            self.parked = None;
            self.wait = Wait::ClearKick { frames };
            *asked = Some(Ask::Swap(Mark::Kick(self.pair), 0));
        } else {
            self.begin(asked);
        }
    }

    /// Clears its flags, FILL's too or not.
    pub(crate) fn disarm(&mut self, frames: bool, asked: &mut Option<Ask>)
        ensures gives { Gives self.old self.new asked.new }
        ensures goes { GoesOnAsk (seat_in self.old) self.new asked.new (disarm_script (seat_in self.old) frames (kept_in self.old)) }
    {
        if frames {
            self.wait = Wait::Disarm { class: 0 };
            *asked = Some(Ask::Swap(Mark::NeedFill(self.pair), 0));
        } else {
            self.disarm_tx(0, asked);
        }
    }

    /// Clears the flag of the class's TX ring, or begins a new turn after the last one.
    pub(crate) fn disarm_tx(&mut self, class: u32, asked: &mut Option<Ask>)
        requires within { class ≤ self.old.classes }
        ensures gives { Gives self.old self.new asked.new }
        ensures goes { GoesOnAsk (seat_in self.old) self.new asked.new (flag_from (seat_in self.old) 0 class (kept_in self.old) (again (kept_in self.old))) }
    {
        if class == self.classes {
            self.begin(asked);
        } else {
            self.wait = Wait::Disarm { class: class + 1 };
            *asked = Some(Ask::Swap(Mark::NeedTx(self.socket_of(class)), 0));
        }
    }
}
