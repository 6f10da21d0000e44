//! The lines of a report, and the whole of it.
ghost use Rattle.std.specs.Prelude.{◌≡◌, ◌++◌, ◌<◌, ◌≤◌, ℕ, List, IfOk, OnOk, [], flat_map, length, string_bytes};
ghost use Rattle.std.specs.List.{range_with_len};
ghost use Rattle.xsk_model.specs.Config.{IsRegular, pair_at};
ghost use Rattle.xsk_stats.specs.Report.{at_queue, calls_line, driver_line, figures_at, lines_of, numbered, pair_line, put_behind, report_text, setting_line, socket_line, socket_lines, stranded_line, total_line, totals_of, wire_word};

use crate::totals::{Statistics, add_up};
use std::alloc::Global;
use std::fmt::Write;
use xsk_driver::{DriverCounters, Wire};
use xsk_machine::{DriverFigures, FigureList, Figures};
use xsk_model::{Config, PairInfo};
use xsk_umem::OutOfMemory;

/// The report of a run of a regular configuration, whose figures are those of each of its drivers.
///
/// It has a line for the configuration and one for the calls, a line for each driver, each pair and each socket, and one for
/// the sums; and where the applications changed items that they sent, one for the frames that the drivers took from TX and didn't
/// give to COMPLETION. No number has a leading zero.
pub fn report(alloc: Global, config: &Config, figures: &Figures) -> Result<Vec<u8>, OutOfMemory>
    requires regular { IsRegular config.now }
    requires drivers { length figures.now.drivers ≡ length config.now.pairs }
    ensures { IfOk result (λ text. text.items ≡ report_text config.now figures.now) }
{
    let mut text = String::new(alloc);
    push_report(&mut text, config, figures)?;
    Ok(text.into_bytes())
}

/// Puts all lines into a text that has none.
fn push_report(text: &mut String, config: &Config, figures: &Figures) -> Result<(), OutOfMemory>
    requires regular { IsRegular config.now }
    requires drivers { length figures.now.drivers ≡ length config.now.pairs }
    requires none { string_bytes text.old ≡ [] }
    ensures { OnOk result (string_bytes text.new ≡ report_text config.now figures.now) }
{
    push_setting(text, config, figures.wire)?;
    push_calls(text, figures.calls)?;
    push_drivers(text, config, &figures.drivers)?;
    push_pairs(text, config, &figures.drivers)?;
    let classes = config.classes();
    push_all_sockets(text, config, &figures.drivers, classes)?;
    let totals = add_up(&figures.drivers, classes);
    push_totals(text, &totals)?;
    push_stranded(text, figures.mangled, totals.stranded)
}

fn push_setting(text: &mut String, config: &Config, wire: Wire) -> Result<(), OutOfMemory>
    requires regular { IsRegular config.now }
    ensures { OnOk result (string_bytes text.new ≡ string_bytes text.old ++ setting_line config.now wire) }
{
    let geometry = config.geometry();
    push_u32(text, "ports ", config.ports())?;
    push_u32(text, " queues ", config.queues())?;
    push_u32(text, " sockets ", config.classes())?;
    push_u32(text, " chunk ", geometry.chunk())?;
    push_u32(text, " headroom ", geometry.headroom())?;
    push_u32(text, " frames ", geometry.frames())?;
    text.push_str(" wire ")?;
    text.push_str(word_of(wire))?;
    text.push_str("\n")?;
    Ok(())
}

fn word_of(wire: Wire) -> &'static str
    ensures { result.now ≡ wire_word wire }
{
    match wire {
        Wire::Wait => "wait",
        Wire::Drop => "drop",
    }
}

fn push_calls(text: &mut String, calls: u64) -> Result<(), OutOfMemory>
    ensures { OnOk result (string_bytes text.new ≡ string_bytes text.old ++ calls_line calls) }
{
    push_u64(text, "calls ", calls)?;
    text.push_str("\n")?;
    Ok(())
}

fn push_drivers(text: &mut String, config: &Config, drivers: &FigureList) -> Result<(), OutOfMemory>
    requires { length drivers.now ≡ length config.now.pairs }
    ensures { OnOk result (string_bytes text.new ≡ string_bytes text.old ++ lines_of driver_line config.now drivers.now) }
{
    for pair in 0..drivers.len() {
        push_driver(text, pair_of(config, pair), figures_of(drivers, pair))?;
    }
    Ok(())
}

fn push_driver(
    text: &mut String,
    pair: &PairInfo,
    figures: &DriverFigures,
) -> Result<(), OutOfMemory>
    ensures { OnOk result (string_bytes text.new ≡ string_bytes text.old ++ driver_line pair.now figures.now) }
{
    let [
        delivered,
        no_frames,
        rx_full,
        too_long,
        runt,
        missed,
        passed,
        dropped,
        bounced,
    ] = figures.kinds;
    push_queue(text, "driver ", pair)?;
    let numbers = [
        (" in ", figures.packets_in),
        (" delivered ", delivered),
        (" noframes ", no_frames),
        (" rxfull ", rx_full),
        (" toolong ", too_long),
        (" runt ", runt),
        (" missed ", missed),
        (" passed ", passed),
        (" dropped ", dropped),
        (" bounced ", bounced),
        (" sent ", figures.sent),
    ];
    push_ended(text, &numbers, "\n")
}

fn push_pairs(text: &mut String, config: &Config, drivers: &FigureList) -> Result<(), OutOfMemory>
    requires { length drivers.now ≡ length config.now.pairs }
    ensures { OnOk result (string_bytes text.new ≡ string_bytes text.old ++ lines_of (λ pair driver. pair_line pair driver.counters) config.now drivers.now) }
{
    for pair in 0..drivers.len() {
        let counters = &figures_of(drivers, pair).counters;
        push_pair(text, pair_of(config, pair), counters)?;
    }
    Ok(())
}

pub(crate) fn push_pair(
    text: &mut String,
    pair: &PairInfo,
    counters: &DriverCounters,
) -> Result<(), OutOfMemory>
    ensures { OnOk result (string_bytes text.new ≡ string_bytes text.old ++ pair_line pair.now counters.now) }
{
    push_queue(text, "pair ", pair)?;
    let numbers = [
        (" rx_dropped ", counters.rx_dropped),
        (" rx_invalid_descs ", counters.rx_invalid_descs),
        (
            " rx_fill_ring_empty_descs ",
            counters.rx_fill_ring_empty_descs,
        ),
    ];
    push_ended(text, &numbers, "\n")
}

fn push_all_sockets(
    text: &mut String,
    config: &Config,
    drivers: &FigureList,
    classes: u32,
) -> Result<(), OutOfMemory>
    requires classes { classes ≤ 4 }
    requires drivers { length drivers.now ≡ length config.now.pairs }
    ensures { OnOk result (string_bytes text.new ≡ string_bytes text.old ++ lines_of (λ pair driver. socket_lines classes pair driver.counters) config.now drivers.now) }
{
    for pair in 0..drivers.len() {
        let counters = &figures_of(drivers, pair).counters;
        push_sockets(text, classes, pair_of(config, pair), counters)?;
    }
    Ok(())
}

/// The lines of a pair's sockets.
pub(crate) fn push_sockets(
    text: &mut String,
    classes: u32,
    pair: &PairInfo,
    counters: &DriverCounters,
) -> Result<(), OutOfMemory>
    requires { classes ≤ 4 }
    ensures { OnOk result (string_bytes text.new ≡ string_bytes text.old ++ socket_lines classes pair.now counters.now) }
{
    for class in 0..classes {
        push_socket(text, pair, counters, class)?;
    }
    Ok(())
}

fn push_socket(
    text: &mut String,
    pair: &PairInfo,
    counters: &DriverCounters,
    class: u32,
) -> Result<(), OutOfMemory>
    requires { class < 4 }
    ensures { OnOk result (string_bytes text.new ≡ string_bytes text.old ++ socket_line pair.now counters.now class) }
{
    let place = class as usize;
    push_queue(text, "socket ", pair)?;
    push_u32(text, ".", class)?;
    let numbers = [
        (" rx_ring_full ", counters.rx_ring_full[place]),
        (" tx_invalid_descs ", counters.tx_invalid_descs[place]),
        (" tx_ring_empty_descs ", counters.tx_ring_empty_descs[place]),
    ];
    push_ended(text, &numbers, "\n")
}

fn push_totals(text: &mut String, total: &Statistics) -> Result<(), OutOfMemory>
    ensures { OnOk result (string_bytes text.new ≡ string_bytes text.old ++ total_line total.now) }
{
    let numbers = [
        ("total rx_dropped ", total.rx_dropped),
        (" rx_invalid_descs ", total.rx_invalid_descs),
        (" tx_invalid_descs ", total.tx_invalid_descs),
        (" rx_ring_full ", total.rx_ring_full),
        (" rx_fill_ring_empty_descs ", total.rx_fill_ring_empty_descs),
        (" tx_ring_empty_descs ", total.tx_ring_empty_descs),
    ];
    push_ended(text, &numbers, "\n")
}

fn push_stranded(text: &mut String, mangled: bool, stranded: u64) -> Result<(), OutOfMemory>
    ensures { OnOk result (string_bytes text.new ≡ string_bytes text.old ++ stranded_line mangled stranded) }
{
    if mangled {
        push_u64(text, "stranded ", stranded)?;
        text.push_str("\n")?;
    }
    Ok(())
}

pub(crate) fn pair_of(config: &Config, pair: u32) -> &PairInfo
    requires { pair < length config.now.pairs }
    ensures { result.now ≡ pair_at config.now.pairs pair }
{
    &config.pairs()[pair as usize]
}

fn figures_of(drivers: &FigureList, pair: u32) -> &DriverFigures
    requires { pair < length drivers.now }
    ensures { result.now ≡ figures_at drivers.now pair }
{
    drivers.get(pair)
}

/// A word, and the port and the queue of a pair.
fn push_queue(text: &mut String, word: &str, pair: &PairInfo) -> Result<(), OutOfMemory>
    ensures { OnOk result (string_bytes text.new ≡ string_bytes text.old ++ at_queue word.now pair.now) }
{
    push_u32(text, word, pair.port)?;
    push_u32(text, ".", pair.queue)?;
    Ok(())
}

/// Words with the numbers behind them, and what ends them.
fn push_ended(text: &mut String, numbers: &[(&str, u64)], end: &str) -> Result<(), OutOfMemory>
    ensures { (before piece : List ℕ) → string_bytes text.old ≡ before ++ piece
        → OnOk result (string_bytes text.new ≡ before ++ (put_behind piece numbers.now ++ end.now)) }
{
    push_numbers(text, numbers)?;
    text.push_str(end)?;
    Ok(())
}

/// Words, each with the number behind it.
fn push_numbers(text: &mut String, numbers: &[(&str, u64)]) -> Result<(), OutOfMemory>
    ensures { OnOk result (string_bytes text.new ≡ put_behind (string_bytes text.old) numbers.now) }
{
    for number in numbers {
        push_u64(text, number.0, number.1)?;
    }
    Ok(())
}

/// A word, and the number behind it.
#[tactic(auto, unfolding(crate::specs::Report::numbered))]
fn push_u64(text: &mut String, word: &str, number: u64) -> Result<(), OutOfMemory>
    ensures { OnOk result (string_bytes text.new ≡ string_bytes text.old ++ numbered word.now number) }
{
    write!(text, "{word}{number}")?;
    Ok(())
}

fn push_u32(text: &mut String, word: &str, number: u32) -> Result<(), OutOfMemory>
    ensures { OnOk result (string_bytes text.new ≡ string_bytes text.old ++ numbered word.now number) }
{
    push_u64(text, word, u64::from(number))
}
