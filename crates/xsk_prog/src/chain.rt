//! Programs in a chain, of which the first that doesn't pass a packet on decides.
ghost use Rattle.std.specs.Prelude.{◌≡◌, ◌≤◌, ◌<◌, List, [], ◌∷◌, ◌++◌, length, map, OnOk, OnErr, IfErr, IfOk, Err};
ghost use Rattle.xsk_prog.specs.Rules.{IsRuled, MeetsChain};
ghost use Rattle.xsk_prog.specs.Chain.{AllObey, AskedOnce, ChainAnswers, rules_of};
ghost use Rattle.xsk_prog.specs.Program.{Obeys};
ghost use Rattle.xsk_prog.specs.declared.chain.ChainError.TheVariants.{TooLong};

use crate::{Verdict, XdpProgram};
use std::alloc::Global;
use std::marker::Model;
use thiserror::Error;
use xsk_umem::OutOfMemory;

/// The most programs of a chain.
pub const MOST_PROGRAMS: usize = 8;

/// Why a program isn't taken into a chain.
#[derive(Clone, Copy, Debug, Error, PartialEq, Eq)]
pub enum ChainError {
    #[error("the chain has 8 programs")]
    TooLong,
    #[error("memory couldn't be had")]
    OutOfMemory,
}

/// At most 8 programs in order, each of which is asked where all before it pass the packet on (as libxdp's dispatcher runs
/// the programs of a device).
#[derive(Drop)]
pub struct Chain<F> {
    programs: Vec<XdpProgram<F>>,
}

impl<F> Model for Chain<F> {
    ghost use Rattle.std.specs.Prelude.{List, length, ◌≤◌};
    ghost use Rattle.xsk_prog.specs.Program.{XdpProgram as Attached};

    ghost Value = { List (Attached F) };

    ghost view = { λ c. c.programs.items };

    ghost invariant = { λ c. length c.programs.items ≤ 8 };
}

impl<F: Fn(&[u8], u32) -> Verdict> Chain<F> {
    /// A chain of no program, which passes every packet on. It takes no memory.
    pub fn new(alloc: Global) -> Chain<F>
        ensures { result ≡ [] }
    {
        Chain {
            programs: Vec::new(alloc),
        }
    }

    /// The chain of one program. It is refused for want of memory alone.
    pub fn of(alloc: Global, program: XdpProgram<F>) -> Result<Chain<F>, OutOfMemory>
        ensures one { IfOk result (λ chain. chain ≡ program ∷ []) }
        ensures obeys { Obeys F.Fn program.rule program.decide → IfOk result (λ chain. AllObey F.Fn chain) }
    {
        let mut chain = Chain::new(alloc);
        match chain.push(program) {
            Ok(()) => Ok(chain),
            Err(_) => Err(OutOfMemory),
        }
    }

    /// Puts a program behind those of the chain. It is refused as `TooLong` exactly where 8 stand there, and else for want of
    /// memory alone; then it comes back, and the chain is as it was.
    pub fn push(&mut self, program: XdpProgram<F>) -> Result<(), (ChainError, XdpProgram<F>)>
        ensures pushed { OnOk result ((self.new ≡ self.old ++ program ∷ []) × (length self.old < 8)) }
        ensures obeys { AllObey F.Fn self.old → Obeys F.Fn program.rule program.decide → OnOk result (AllObey F.Fn self.new) }
        ensures refused { OnErr result (self.new ≡ self.old) }
        ensures back { IfErr result (λ refusal. refusal.1 ≡ program) }
        ensures long { IfErr result (λ refusal. refusal.0 ≡ TooLong → length self.old ≡ 8) }
        ensures short { IfErr result (λ refusal. refusal.0 ≡ ChainError.OutOfMemory → length self.old < 8) }
    {
        if self.programs.len() >= MOST_PROGRAMS {
            return Err((ChainError::TooLong, program));
        }
        if self.programs.reserve(1).is_err() {
            return Err((ChainError::OutOfMemory, program));
        }
        self.programs.push_reserved(program);
        Ok(())
    }

    /// The programs, in order; each tells how often it was asked.
    pub fn programs(&self) -> &[XdpProgram<F>]
        ensures { result.now ≡ self.now }
    {
        self.programs.as_slice()
    }

    /// What the chain answers of a packet of 14 to 262,144 bytes on a queue below 4: the first answer that isn't Pass, and Pass
    /// where there is none. Each program down to that one is asked once, and none behind it.
    pub fn verdict(&mut self, packet: &[u8], queue: u32) -> Verdict
        requires packet { IsRuled packet.now queue }
        requires obeys { AllObey F.Fn self.old }
        ensures asked { ChainAnswers F.Fn self.old packet.now queue result }
        ensures meets { MeetsChain (rules_of self.old) packet.now queue result }
        ensures once { AskedOnce F.Fn packet.now queue result self.old self.new }
        ensures obeys { AllObey F.Fn self.new }
    {
        for place in 0..self.programs.len() {
            let verdict = self.programs[place].verdict(packet, queue);
            if verdict != Verdict::Pass {
                return verdict;
            }
        }
        Verdict::Pass
    }
}
