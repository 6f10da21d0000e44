//! A program that is attached: a closure, with the rule that it keeps.
ghost use Rattle.std.specs.Prelude.{◌≡◌};
ghost use Rattle.xsk_prog.specs.Rules.{HasSockets, IsRuled, Meets};
ghost use Rattle.xsk_prog.specs.Program.{Answers, Obeys, once_more};

use crate::{Rule, Verdict};
use std::marker::Model;

/// A program attached to a device: a closure beside the rule that its answers meet, on every packet of 14 to 262,144 bytes
/// and every queue below 4. It counts how often its closure was called.
#[derive(Drop)]
pub struct XdpProgram<F> {
    rule: Rule,
    decide: F,
    asked: u64,
}

impl<F> Model for XdpProgram<F> {
    ghost use Rattle.xsk_prog.specs.Program.{XdpProgram as Attached};

    ghost Value = { Attached F };

    ghost view = { λ p. record { rule = p.rule; decide = p.decide; asked = p.asked } };
}

impl<F: Fn(&[u8], u32) -> Verdict> XdpProgram<F> {
    /// Attaches a closure that keeps the rule. The rule's `sockets`, where it has them, are 1 to 64.
    pub fn attach(rule: Rule, decide: F) -> XdpProgram<F>
        requires sockets { HasSockets rule }
        requires obeys { Obeys F.Fn rule decide }
        ensures parts { result ≡ record { rule = rule; decide = decide; asked = 0 } }
        ensures obeys { Obeys F.Fn result.rule result.decide }
    {
        XdpProgram {
            rule,
            decide,
            asked: 0,
        }
    }

    /// The rule that its answers meet.
    pub fn rule(&self) -> Rule
        ensures { result ≡ self.now.rule }
    {
        self.rule
    }

    /// How often it has been asked, modulo 2^64.
    pub fn asked(&self) -> u64
        ensures { result ≡ self.now.asked }
    {
        self.asked
    }

    /// What the program answers of a packet of 14 to 262,144 bytes on a queue below 4: what its closure does, which meets the
    /// rule. That the closure keeps the rule is known since `attach`. Here alone the closure is called, once, and counted.
    pub fn verdict(&mut self, packet: &[u8], queue: u32) -> Verdict
        requires packet { IsRuled packet.now queue }
        requires obeys { Obeys F.Fn self.old.rule self.old.decide }
        ensures asked { Answers F.Fn self.old.decide packet.now queue result }
        ensures meets { Meets self.old.rule packet.now queue result }
        ensures counted { self.new ≡ once_more self.old }
    {
        self.asked = self.asked.wrapping_add(1);
        (self.decide)(packet, queue)
    }
}
