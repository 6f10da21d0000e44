//! The programs of a command, in a chain.
ghost use Rattle.std.specs.Prelude.{◌≡◌, ◌≤◌, IfOk, length};
ghost use Rattle.xsk_prog.specs.Chain.{AllObey, rules_of};
ghost use Rattle.xsk_prog.specs.Program.{XdpProgram as AProgram, Obeys};
ghost use Rattle.xsk_prog.specs.Rules.{HasSockets, IsSocketCount};
ghost use Rattle.xsk_prog.specs.declared.rule.Rule.{Rule as ARule};
ghost use Rattle.xsk_cli.specs.Outcome.{rule_by, rules_by};

use std::alloc::Global;
use xsk_args::Program;
use xsk_prog::{Chain, Rule, Verdict, XdpProgram};
use xsk_umem::OutOfMemory;

/// The chain of at most eight programs, each of which `attach` makes of its rule, where each queue has so many sockets. It is
/// refused for want of memory alone.
pub(crate) fn chain_of<F: Fn(&[u8], u32) -> Verdict, M: Fn(Rule) -> XdpProgram<F>>(
    alloc: Global,
    programs: &[Program],
    sockets: u32,
    attach: M,
) -> Result<Chain<F>, OutOfMemory>
    requires sockets { IsSocketCount sockets }
    requires few { length programs.now ≤ 8 }
    requires callable { (rule : ARule) → HasSockets rule → M.pre attach rule }
    requires attaches { (rule : ARule) (program : AProgram F) → HasSockets rule → M.post attach rule program → (program.rule ≡ rule) × Obeys F.Fn program.rule program.decide }
    ensures rules { IfOk result (λ chain. rules_of chain ≡ rules_by sockets programs.now) }
    ensures obeys { IfOk result (λ chain. AllObey F.Fn chain) }
{
    let mut chain = Chain::new(alloc);
    for program in programs {
        let Ok(()) = chain.push(attach(rule_of(*program, sockets))) else {
            return Err(OutOfMemory);
        };
    }
    Ok(chain)
}

/// The rule of a program, where each queue has so many sockets.
fn rule_of(program: Program, sockets: u32) -> Rule
    requires { IsSocketCount sockets }
    ensures rule { result ≡ rule_by sockets program }
    ensures sockets { HasSockets result }
{
    match program {
        Program::Redirect => Rule::Redirect { sockets },
        Program::Pass => Rule::Pass,
        Program::Drop => Rule::Drop,
        Program::EtherType(kind) => Rule::EtherType { kind, sockets },
        Program::Fixed(cell) => Rule::Fixed(cell),
        Program::Bounce => Rule::Bounce,
        Program::BounceType(kind) => Rule::BounceType { kind },
    }
}
