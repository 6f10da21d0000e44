//! The program of a script, by one of these lines: `program redirect SOCKETS`, `program drop`, `program pass`,
//! `program ether KIND SOCKETS`, `program fixed CELL`, `program atmost CELLS`, `program bounce`, `program bounce KIND`, or
//! `program even`, which redirects packets to cell 0 whose first byte is even, and drops all others. Without one it is
//! `program redirect 1`. And what the wire does where a packet finds no frame or no room: by `wire drop` it drops it, and else
//! it waits. By `mangle K` an application changes items, and by `after N` it awaits N items on the RX ring of the socket that is to be
//! closed before it closes that.
ghost use Rattle.std.specs.Prelude.{◌≡◌, ◌<◌, ◌≤◌, All, IfOk, None, length};
ghost use Rattle.xsk_model.specs.Config.{IsRegular};
ghost use Rattle.xsk_model.specs.Expected.{nothing};
ghost use Rattle.xsk_prog.specs.Chain.{AllObey};
ghost use Rattle.xsk_prog.specs.Rules.{HasSockets, IsBelow, IsRuled, Meets};
ghost use Rattle.xsk_driver.specs.SentRoom.{IsShort};

use crate::trouble::Trouble;
use crate::words::{Line, number, one_number, two_numbers};
use std::alloc::Global;
use std::cell::Cell;
use xsk_driver::{Driver, Wire};
use xsk_machine::Inputs;
use xsk_model::Config;
use xsk_prog::{Chain, Rule, Verdict, XdpProgram};
use xsk_turns::Manner;
use xsk_umem::PacketList;

#[derive(Clone, Copy)]
pub(crate) struct Program {
    rule: Rule,
    /// Whether it redirects packets whose first byte is even, as far as the rule lets it.
    even: bool,
    wire: Wire,
}

/// The program of a script.
pub(crate) fn program_of(lines: &[Line<'_>]) -> Result<Program, Trouble> {
    let mut program = Program {
        rule: Rule::Redirect { sockets: 1 },
        even: false,
        wire: Wire::Wait,
    };
    for line in lines {
        if let Some(words) = line.behind("program") {
            set_program(&mut program, words)?;
        }
        if line.text == "wire drop" {
            program.wire = Wire::Drop;
        }
    }
    Ok(program)
}

/// The manner of a script's application.
pub(crate) fn manner_of(lines: &[Line<'_>]) -> Result<Manner, Trouble> {
    let mut manner = Manner::plain();
    for line in lines {
        set_manner(&mut manner, line)?;
    }
    Ok(manner)
}

fn set_manner(manner: &mut Manner, line: &Line<'_>) -> Result<(), Trouble> {
    if let Some(words) = line.behind("mangle") {
        let mangle = one_number(words)?;
        manner.mangle = Some(mangle);
        return Ok(());
    }
    if let Some(words) = line.behind("after") {
        manner.after = one_number(words)?;
    }
    Ok(())
}

fn set_program(program: &mut Program, words: &[&str]) -> Result<(), Trouble> {
    let (first, rest) = words.split_first().ok_or(Trouble::BadLine)?;
    if *first == "even" {
        program.even = true;
        program.rule = Rule::AtMost(1);
        return Ok(());
    }
    program.even = false;
    program.rule = match rest {
        [] => plain_rule(first)?,
        [one] => rule_by(first, number(one)?)?,
        _ => ether_rule(first, rest)?,
    };
    Ok(())
}

fn plain_rule(name: &str) -> Result<Rule, Trouble> {
    match name {
        "drop" => Ok(Rule::Drop),
        "pass" => Ok(Rule::Pass),
        "bounce" => Ok(Rule::Bounce),
        _ => Err(Trouble::BadLine),
    }
}

fn rule_by(name: &str, number: u32) -> Result<Rule, Trouble> {
    match name {
        "redirect" => Ok(Rule::Redirect { sockets: number }),
        "fixed" => Ok(Rule::Fixed(number)),
        "atmost" => Ok(Rule::AtMost(number)),
        "bounce" => Ok(Rule::BounceType {
            kind: ether_type(number)?,
        }),
        _ => Err(Trouble::BadLine),
    }
}

fn ether_rule(name: &str, words: &[&str]) -> Result<Rule, Trouble> {
    let (kind, sockets) = two_numbers(words)?;
    if name != "ether" {
        return Err(Trouble::BadLine);
    }
    let kind = ether_type(kind)?;
    Ok(Rule::EtherType { kind, sockets })
}

fn ether_type(number: u32) -> Result<u16, Trouble> {
    match u16::try_from(number) {
        Ok(kind) => Ok(kind),
        Err(_) => Err(Trouble::BadLine),
    }
}

/// The rule of a program, where it can be attached.
fn attachable(rule: Rule) -> Result<Rule, Trouble>
    ensures { IfOk result HasSockets }
{
    let sockets = match rule {
        Rule::Redirect { sockets } => sockets,
        Rule::EtherType { sockets, .. } => sockets,
        _ => 1,
    };
    if sockets == 0 || sockets > 64 {
        return Err(Trouble::BadLine);
    }
    Ok(rule)
}

/// What a program answers.
fn decided(rule: Rule, even: bool, packet: &[u8], queue: u32) -> Verdict
    requires sockets { HasSockets rule }
    requires packet { IsRuled packet.now queue }
    ensures { Meets rule packet.now queue result }
{
    match rule {
        Rule::AtMost(cells) if even && cells > 0 => by_first_byte(packet, cells),
        _ => rule.verdict(packet, queue),
    }
}

fn by_first_byte(packet: &[u8], cells: u32) -> Verdict
    requires packet { 14 ≤ length packet.now }
    requires cells { 0 < cells }
    ensures { IsBelow cells result }
{
    if packet[0] % 2 == 0 {
        Verdict::Redirect(0)
    } else {
        Verdict::Drop
    }
}

/// The driver of a pair, with room for so many sent packets and bytes. Each call of its program's closure is counted, and the
/// program's own count has to be the same.
pub(crate) fn driver_of<'a>(
    alloc: Global,
    config: &'a Config,
    pair: u32,
    packets: &'a PacketList,
    inputs: &'a Inputs,
    program: Program,
    asked: &Cell<u64>,
    room: (u32, u32),
) -> Result<Driver<'a>, Trouble>
    requires regular { IsRegular config.now }
    requires pair { pair < length config.now.pairs }
    requires short { All IsShort packets.now.packets }
    ensures { IfOk result (λ d. d.expected ≡ nothing) }
{
    let Program { rule, even, wire } = program;
    let rule = attachable(rule)?;
    let program = XdpProgram::attach(rule, |packet: &[u8], queue: u32| {
        asked.set(asked.get().saturating_add(1));
        decided(rule, even, packet, queue)
    });
    let mut chain = Chain::of(alloc, program)?;
    let numbers = inputs.of_pair(pair);
    let driver = driver_under(
        alloc, config, pair, packets, numbers, &mut chain, wire, room,
    );
    if are_asked(&chain, asked.get()) {
        driver
    } else {
        Err(Trouble::Miscounted)
    }
}

/// The driver of a pair under a chain of programs.
fn driver_under<'a, F: Fn(&[u8], u32) -> Verdict>(
    alloc: Global,
    config: &'a Config,
    pair: u32,
    packets: &'a PacketList,
    numbers: &'a [u32],
    chain: &mut Chain<F>,
    wire: Wire,
    room: (u32, u32),
) -> Result<Driver<'a>, Trouble>
    requires regular { IsRegular config.now }
    requires pair { pair < length config.now.pairs }
    requires short { All IsShort packets.now.packets }
    requires obeys { AllObey F.Fn chain.old }
    ensures { IfOk result (λ d. d.expected ≡ nothing) }
{
    let (most, bytes) = room;
    match Driver::new(
        alloc, config, pair, packets, numbers, chain, wire, most, bytes,
    ) {
        Ok(driver) => Ok(driver),
        Err(_) => Err(Trouble::NoMemory),
    }
}

/// Whether each program of a chain was asked so often.
fn are_asked<F: Fn(&[u8], u32) -> Verdict>(chain: &Chain<F>, count: u64) -> bool {
    for program in chain.programs() {
        if program.asked() != count {
            return false;
        }
    }
    true
}
