//! New drivers of a setting.
ghost use Rattle.std.specs.Prelude.{◌≡◌, ◌<◌, ◌≤◌, ◌^◌, ◌⊎◌, false, if◌then◌else◌, not, All, List, [], length, IfOk, MatchOption, OnErr};
ghost use Rattle.std.specs.List.{concat, slice_index_or};
ghost use Rattle.xsk_model.specs.Config.{IsRegular, pair_at};
ghost use Rattle.xsk_model.specs.Expected.{nothing};
ghost use Rattle.xsk_prog.specs.Chain.{AllObey, SamePrograms, rules_of};
ghost use Rattle.xsk_laws.specs.Expected.{may_bounce, none_bounces};
ghost use Rattle.xsk_prog.specs.declared.rule.Verdict.{Verdict as AVerdict};
ghost use Rattle.xsk_turns.specs.Inputs.{inputs_of};
ghost use Rattle.xsk_turns.specs.Verdicts.{EachHas, IsGiven};
ghost use Rattle.xsk_turns.specs.Workers.{packets_to, AreGiven};
ghost use Rattle.xsk_driver.specs.Asking.{AreAsked, IsAnswer, verdicts_in};
ghost use Rattle.xsk_machine.specs.Acts.{IsDriver, HasShortPackets, received_by_both, received_there};
ghost use Rattle.xsk_machine.specs.Amounts.{IsAmountOf};
ghost use Rattle.xsk_machine.specs.Workers.{AreNew, HasGiven, kept_in, questions_to, setting_by};
ghost use Rattle.xsk_turns.specs.declared.manner.Manner.{Manner as AManner};

use crate::{Amount, Inputs};
use std::alloc::Global;
use xsk_driver::{Driver, Wire};
use xsk_model::Config;
use xsk_model::steering::{driver_on, paired_port};
use xsk_prog::{Chain, Rule, Verdict};
use xsk_umem::{OutOfMemory, PacketList};

/// The packets that came to a pair's port on its queue and to the paired port, and of them those that came to the paired port.
#[derive(Clone, Copy)]
struct Arrivals {
    by_both: Amount,
    there: Amount,
}

/// The packets that came to a pair's port on its queue and to the paired port, if both they and their bytes are fewer than 2^32.
fn arrivals_at(
    config: &Config,
    packets: &[PacketList],
    inputs: &Inputs,
    pair: u32,
) -> Option<Arrivals>
    requires regular { IsRegular config.now }
    requires lists { length packets.now ≡ config.now.ports }
    requires inputs { inputs.now ≡ inputs_of config.now packets.now }
    requires pair { pair < length config.now.pairs }
    ensures { MatchOption result ((2 ^ 32 ≤ length (received_by_both config.now packets.now pair)) ⊎ (2 ^ 32 ≤ length (concat (received_by_both config.now packets.now pair))))
        (λ arrivals. IsAmountOf (received_by_both config.now packets.now pair) arrivals.by_both × IsAmountOf (received_there config.now packets.now pair) arrivals.there) }
{
    let info = config.pairs()[pair as usize];
    let own = inputs.amount_of(pair, &packets[info.port as usize])?;
    let port = paired_port(info.port);
    let driver = driver_on(config, port, info.queue);
    let there = inputs.amount_of(driver, &packets[port as usize])?;
    let by_both = own.plus(there)?;
    Some(Arrivals { by_both, there })
}

/// Whether a program of this rule never lets a packet bounce (XDP_TX).
fn never_bounces(rule: Rule) -> bool
    ensures { result ≡ not (may_bounce rule) }
{
    match rule {
        Rule::Bounce | Rule::BounceType { .. } => false,
        _ => true,
    }
}

/// Whether no program of a chain ever lets a packet bounce.
fn chain_never_bounces<F: Fn(&[u8], u32) -> Verdict>(chain: &Chain<F>) -> bool
    ensures { result ≡ none_bounces (rules_of chain.now) }
{
    for program in chain.programs() {
        if !never_bounces(program.rule()) {
            return false;
        }
    }
    true
}

/// The room that a driver takes before its chain is asked: for what came to the paired port, and for all where packets may bounce.
fn room_before_asking<F: Fn(&[u8], u32) -> Verdict>(chain: &Chain<F>, arrivals: &Arrivals) -> Amount
    ensures { result ≡ (if none_bounces (rules_of chain.now) then arrivals.now.there else arrivals.now.by_both) }
{
    if chain_never_bounces(chain) {
        arrivals.there
    } else {
        arrivals.by_both
    }
}

/// The driver of a pair with a wire, and with room to send all packets that the paired port received on its queue, and those of its
/// own that bounce (XDP_TX). There is one list of packets for each port, none of which has more than 262,144 bytes, and the inputs are
/// those of these lists.
/// The chain is asked once for each of the driver's packets that has an Ethernet header, and nothing where memory can't be had.
pub fn driver_for<'a, F: Fn(&[u8], u32) -> Verdict>(
    alloc: Global,
    config: &'a Config,
    packets: &'a [PacketList],
    inputs: &'a Inputs,
    chain: &mut Chain<F>,
    wire: Wire,
    pair: u32,
) -> Result<Driver<'a>, OutOfMemory>
    requires regular { IsRegular config.now }
    requires lists { length packets.now ≡ config.now.ports }
    requires inputs { inputs.now ≡ inputs_of config.now packets.now }
    requires short { All HasShortPackets packets.now }
    requires obeys { AllObey F.Fn chain.old }
    requires pair { pair < length config.now.pairs }
    ensures new { IfOk result (λ d. (manner : AManner) (verdicts : List (List AVerdict)) → slice_index_or verdicts pair [] ≡ verdicts_in d.kept
        → IsDriver (setting_by config.now wire manner packets.now verdicts) pair d) }
    ensures asked { IfOk result (λ d. EachHas (IsGiven (IsAnswer F.Fn chain.old (pair_at config.now.pairs pair).queue))
        (packets_to config.now packets.now (pair_at config.now.pairs pair)) (verdicts_in d.kept)) }
    ensures once { IfOk result (λ d. AreAsked F.Fn (questions_to config.now packets.now (pair_at config.now.pairs pair)) (verdicts_in d.kept) chain.old chain.new) }
    ensures refused { OnErr result (chain.new ≡ chain.old) }
    ensures obeys { AllObey F.Fn chain.new }
    ensures expected { IfOk result (λ d. d.expected ≡ nothing) }
{
    let info = config.pairs()[pair as usize];
    let list = &packets[info.port as usize];
    let Some(arrivals) = arrivals_at(config, packets, inputs, pair) else {
        return Err(OutOfMemory);
    };
    // What bounces is known once the chain was asked, for which all memory must be there.
    let room = room_before_asking(chain, &arrivals);
    let there = arrivals.there;
    let mut driver = Driver::new(
        alloc,
        config,
        pair,
        list,
        inputs.of_pair(pair),
        chain,
        wire,
        room.packets,
        room.bytes,
    )?;
    driver.fit(alloc, there.packets, there.bytes);
    Ok(driver)
}

/// A driver for each pair. The chain is asked once for each packet that has an Ethernet header, those of the first pair first;
/// where memory can't be had, it was asked of the packets of the pairs before.
pub fn drivers_for<'a, F: Fn(&[u8], u32) -> Verdict>(
    alloc: Global,
    config: &'a Config,
    packets: &'a [PacketList],
    inputs: &'a Inputs,
    chain: &mut Chain<F>,
    wire: Wire,
) -> Result<Vec<Driver<'a>>, OutOfMemory>
    requires regular { IsRegular config.now }
    requires lists { length packets.now ≡ config.now.ports }
    requires inputs { inputs.now ≡ inputs_of config.now packets.now }
    requires short { All HasShortPackets packets.now }
    requires obeys { AllObey F.Fn chain.old }
    ensures new { IfOk result (λ drivers. (manner : AManner) → AreNew (setting_by config.now wire manner packets.now (kept_in drivers.items)) 0 drivers.items) }
    ensures asked { IfOk result (λ drivers. (manner : AManner) → AreGiven (IsAnswer F.Fn chain.old) (setting_by config.now wire manner packets.now (kept_in drivers.items))) }
    ensures once { IfOk result (λ drivers. HasGiven F.Fn config.now packets.now (kept_in drivers.items) chain.old chain.new) }
    ensures same { SamePrograms chain.old chain.new }
    ensures obeys { AllObey F.Fn chain.new }
    ensures count { IfOk result (λ drivers. length drivers.items ≡ length config.now.pairs) }
{
    let count = config.pairs().len() as u32;
    let mut drivers = Vec::with_capacity(alloc, count as usize)?;
    for pair in 0..count {
        drivers.push(driver_for(alloc, config, packets, inputs, chain, wire, pair)?)?;
    }
    Ok(drivers)
}
