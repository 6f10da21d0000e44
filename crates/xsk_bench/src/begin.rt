//! New drivers in their seats.
ghost use Rattle.std.specs.Prelude.{◌≡◌, ◌<◌, All, List, [], IfOk, OnErr, length, vec_len};
ghost use Rattle.std.specs.List.{slice_index_or};
ghost use Rattle.xsk_model.specs.Config.{pair_at};
ghost use Rattle.xsk_model.specs.Expected.{nothing};
ghost use Rattle.xsk_prog.specs.Chain.{AllObey, SamePrograms};
ghost use Rattle.xsk_prog.specs.declared.rule.Verdict.{Verdict as AVerdict};
ghost use Rattle.xsk_turns.specs.Inputs.{inputs_of};
ghost use Rattle.xsk_turns.specs.Owned.{IsSteady};
ghost use Rattle.xsk_turns.specs.Workers.{packets_to, AreGiven};
ghost use Rattle.xsk_turns.specs.Verdicts.{judged, EachHas, IsGiven};
ghost use Rattle.xsk_driver.specs.Asking.{AreAsked, IsAnswer, verdicts_in};
ghost use Rattle.xsk_driver.specs.Runs.{IsNew};
ghost use Rattle.xsk_machine.specs.Acts.{HasShortPackets};
ghost use Rattle.xsk_machine.specs.Workers.{IsAskedOnce, questions_to, setting_with};
ghost use Rattle.xsk_sim.specs.Seats.{EachFrom};
ghost use Rattle.xsk_bench.specs.Played.{IsSeated};

use crate::seat::Seat;
use std::alloc::Global;
use xsk_driver::{Driver, Wire};
use xsk_machine::{Amount, Inputs};
use xsk_model::Config;
use xsk_prog::{Chain, Verdict};
use xsk_umem::{OutOfMemory, PacketList};

/// The driver of a pair, with room for so many sent packets and bytes.
fn driver_of<'a, F: Fn(&[u8], u32) -> Verdict>(
    alloc: Global,
    config: &'a Config,
    packets: &'a [PacketList],
    inputs: &'a Inputs,
    chain: &mut Chain<F>,
    wire: Wire,
    room: Amount,
    pair: u32,
) -> Result<Driver<'a>, OutOfMemory>
    requires steady { IsSteady config.now }
    requires lists { length packets.now ≡ config.now.ports }
    requires inputs { inputs.now ≡ inputs_of config.now packets.now }
    requires short { All HasShortPackets packets.now }
    requires obeys { AllObey F.Fn chain.old }
    requires pair { pair < length config.now.pairs }
    ensures new { IfOk result (λ d. IsNew wire config.now pair (judged (packets_to config.now packets.now (pair_at config.now.pairs pair)) (verdicts_in d.kept)) d) }
    ensures asked { IfOk result (λ d. EachHas (IsGiven (IsAnswer F.Fn chain.old (pair_at config.now.pairs pair).queue))
        (packets_to config.now packets.now (pair_at config.now.pairs pair)) (verdicts_in d.kept)) }
    ensures once { IfOk result (λ d. AreAsked F.Fn (questions_to config.now packets.now (pair_at config.now.pairs pair)) (verdicts_in d.kept) chain.old chain.new) }
    ensures refused { OnErr result (chain.new ≡ chain.old) }
    ensures obeys { AllObey F.Fn chain.new }
    ensures expected { IfOk result (λ d. d.expected ≡ nothing) }
    ensures room { IfOk result (λ d. (d.sent.most_packets ≡ room.packets) × (d.sent.most_bytes ≡ room.bytes)) }
{
    let info = config.pairs()[pair as usize];
    let list = &packets[info.port as usize];
    let numbers = inputs.of_pair(pair);
    let driver = Driver::new(
        alloc,
        config,
        pair,
        list,
        numbers,
        chain,
        wire,
        room.packets,
        room.bytes,
    )?;
    Ok(driver)
}

/// The drivers of all pairs in their seats, each with room for so many sent packets and bytes. The chain is asked once for each
/// packet that has an Ethernet header.
pub(crate) fn seat_drivers<'a, F: Fn(&[u8], u32) -> Verdict>(
    alloc: Global,
    config: &'a Config,
    packets: &'a [PacketList],
    inputs: &'a Inputs,
    chain: &mut Chain<F>,
    wire: Wire,
    room: Amount,
) -> Result<Vec<Seat<'a>>, OutOfMemory>
    requires steady { IsSteady config.now }
    requires lists { length packets.now ≡ config.now.ports }
    requires inputs { inputs.now ≡ inputs_of config.now packets.now }
    requires short { All HasShortPackets packets.now }
    requires obeys { AllObey F.Fn chain.old }
    ensures once { IfOk result (λ seats. IsAskedOnce F.Fn config.now packets.now chain.old chain.new) }
    ensures same { SamePrograms chain.old chain.new }
    ensures obeys { AllObey F.Fn chain.new }
    ensures count { IfOk result (λ seats. vec_len seats ≡ length config.now.pairs) }
    ensures seated { IfOk result (λ seats. (verdicts : List (List AVerdict))
        × AreGiven (IsAnswer F.Fn chain.old) (setting_with config.now wire packets.now verdicts)
        × EachFrom seats.items 0 (IsSeated (setting_with config.now wire packets.now verdicts) room [])) }
{
    let count = config.pairs().len() as u32;
    let mut seats = Vec::with_capacity(alloc, count as usize)?;
    for pair in 0..count {
        let driver = driver_of(alloc, config, packets, inputs, chain, wire, room, pair)?;
        seats.push(Seat::new(driver))?;
    }
    Ok(seats)
}
