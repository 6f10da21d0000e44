//! What the words of a command ask for.
ghost use Rattle.std.specs.Prelude.{◌≡◌, None, Some, [], ◌∷◌, IfErr, IfOk, IfSome, IfNone, OnOk, false, if◌then◌else◌, length, map, string_bytes, true};
ghost use Rattle.xsk_args.specs.Meaning.{under};
ghost use Rattle.xsk_args.specs.Words.{is_dashed};
ghost use Rattle.xsk_socket.specs.Layout.{fault_of};
ghost use Rattle.xsk_cli.specs.Format.{files_of};
ghost use Rattle.xsk_cli.specs.Steps.{plan_in};
ghost use Rattle.xsk_cli.specs.Words.{are_enough, counted, do_go_together, fault_in, files_counted, files_in, format_of, gen_plan, go_together, has_files, is_planned, layout_by, manner_of, most_of, plan_by, programs_of as programs_said, telling_of, wanted_per_port, wire_of};

use crate::format::Format;
use crate::options;
use xsk_args::{Args, ArgsError, Program, ProgramList, parse_number};
use xsk_socket::{Layout, Unlawful, check_layout};
use xsk_turns::{Manner, Wire};

/// The most bytes of a journal.
const MOST_OF_JOURNAL: usize = 67_108_864;

/// What is told of a run in rounds besides.
#[derive(Clone, Copy)]
pub struct Telling {
    /// The journal of all its calls: behind the report, or where it stalls behind what it stalls for.
    pub journal: bool,
    /// Why it stalls, behind the line of the stall.
    pub why: bool,
}

/// What is made of the files that a command reads.
#[derive(Drop)]
pub enum Work {
    /// A run of the layout's workers over the packets of its ports, under programs and with a wire, in rounds with an order
    /// number. The manner says whether applications change items that they send, and when the layout's socket is closed. With a
    /// number of the generator no files are read, and the packets are made. The packets are read and written as files of the format.
    Simulate {
        layout: Layout,
        programs: ProgramList,
        wire: Wire,
        manner: Manner,
        order: u32,
        number: Option<u32>,
        telling: Telling,
        format: Format,
    },
    /// A capture of the packets that are made of a number.
    Generate {
        number: u32,
    },
    /// The audit of a journal by the layout's configuration, which tells why a line isn't legal where that is asked for.
    Audit {
        layout: Layout,
        why: bool,
    },
}

impl Work {
    /// The most bytes of one input.
    pub(crate) fn most_input(&self) -> usize
        ensures { result ≡ most_of self.now }
    {
        match self {
            Work::Simulate { format, .. } => format.most_input(),
            Work::Generate { .. } => Format::Pcap.most_input(),
            Work::Audit { .. } => MOST_OF_JOURNAL,
        }
    }
}

/// The files that a command reads, those that it writes, and what it does between.
#[derive(Drop)]
pub(crate) struct Plan<'p, 'w> {
    pub(crate) inputs: &'p [&'w str],
    pub(crate) outputs: &'p [&'w str],
    pub(crate) work: Work,
}

impl<'p, 'w> Plan<'p, 'w> {
    /// The plan of parsed words that name as many files as their format wants, unless their layout is refused.
    pub(crate) fn of(args: &'p Args<'w>) -> Result<Plan<'p, 'w>, Unlawful>
        requires { is_planned (under args.now) ≡ true }
        ensures plan { IfOk result (λ plan. plan_in plan ≡ plan_by (under args.now)) }
        ensures accepted { IfOk result (λ plan. fault_in plan.work ≡ None) }
        ensures refused { IfErr result (λ unlawful. fault_of (layout_by (under args.now)) ≡ Some unlawful) }
    {
        let layout = layout_of(args);
        check_layout(&layout)?;
        let Some(files) = args.files() else {
            return Err(Unlawful::Files(0));
        };
        let programs = programs_of(args);
        let wire = wire_of(args);
        let order = args.number_or_usual(&options::ORDER);
        let number = args.number(&options::GEN);
        let format = format_said(args);
        let named = count_inputs(format, number.is_some(), layout.ports);
        let (inputs, outputs) = files.split_at(named as usize);
        Ok(Plan {
            inputs,
            outputs,
            work: Work::Simulate {
                layout,
                programs,
                wire,
                manner: manner_of(args),
                order,
                number,
                telling: telling_of(args),
                format,
            },
        })
    }
}

/// The programs that were asked for, in order, or the one that redirects each packet.
fn programs_of(args: &Args<'_>) -> ProgramList
    ensures { result ≡ programs_said (under args.now) }
{
    match args.programs(&options::PROG) {
        Some(programs) => programs,
        None => ProgramList::one(Program::Redirect),
    }
}

/// The wire that was asked for, or the one that waits.
fn wire_of(args: &Args<'_>) -> Wire
    ensures { result ≡ wire_of (under args.now) }
{
    match args.text(&options::WIRE) {
        Some("drop") => Wire::Drop,
        _ => Wire::Wait,
    }
}

/// The format that was asked for.
fn format_said(args: &Args<'_>) -> Format
    ensures { result ≡ format_of (under args.now) }
{
    if args.is_said(&options::PCAPNG) {
        Format::Pcapng
    } else {
        Format::Pcap
    }
}

/// What the applications change of what they send, and after how many packets of its RX a socket is closed.
fn manner_of(args: &Args<'_>) -> Manner
    ensures { result ≡ manner_of (under args.now) }
{
    Manner {
        mangle: args.number(&options::MANGLE),
        after: args.number_or_usual(&options::AFTER),
    }
}

/// What is told of a run in rounds besides its figures.
fn telling_of(args: &Args<'_>) -> Telling
    ensures { result ≡ telling_of (under args.now) }
{
    Telling {
        journal: args.is_said(&options::JOURNAL),
        why: args.is_said(&options::WHY),
    }
}

/// Passes words that go together and name as many files as their format wants.
pub(crate) fn check_words(args: &Args<'_>) -> Result<(), ArgsError>
    ensures passed { OnOk result (is_planned (under args.now) ≡ true) }
    ensures usage { IfErr result (λ error. (error ≡ ArgsError.Usage) × (is_planned (under args.now) ≡ false)) }
{
    if has_files(args) && do_go_together(args) {
        Ok(())
    } else {
        Err(ArgsError::Usage)
    }
}

/// Whether there are as many files as their format wants, where it wants a number of its own: with pcapng an input and an output,
/// or an output where the packets are made.
fn has_files(args: &Args<'_>) -> bool
    ensures { result ≡ has_files (under args.now) }
{
    let made = args.number(&options::GEN).is_some();
    is_enough(format_said(args), made, number_of_files(args))
}

fn do_go_together(args: &Args<'_>) -> bool
    ensures { result ≡ do_go_together (under args.now) }
{
    let hands = args.number_or_usual(&options::HANDS);
    go_together(
        args.is_said(&options::CLOSE),
        args.is_said(&options::AFTER),
        hands,
    )
}

/// Whether a number of items is said of a socket that is closed alone, and the application that closes one is one thread.
fn go_together(closes: bool, after: bool, hands: u32) -> bool
    ensures { result ≡ go_together closes after hands }
{
    if closes { hands <= 1 } else { !after }
}

/// Whether so many files are enough for a format.
fn is_enough(format: Format, made: bool, count: usize) -> bool
    ensures { result ≡ are_enough format made count }
{
    match format {
        Format::Pcap => true,
        Format::Pcapng => count == if made { 1 } else { 2 },
    }
}

/// The layout that was asked for.
pub(crate) fn layout_of(args: &Args<'_>) -> Layout
    ensures { result ≡ layout_by (under args.now) }
{
    let format = format_said(args);
    Layout {
        ports: args.number_or_usual(&options::PORTS),
        queues: args.number_or_usual(&options::QUEUES),
        sockets: args.number_or_usual(&options::SOCKETS),
        files: count_files(format, args),
        files_wanted_per_port: count_wanted(format, args.number(&options::GEN).is_some()),
        chunk: args.number_or_usual(&options::CHUNK),
        headroom: args.number_or_usual(&options::HEADROOM),
        frames: args.number_or_usual(&options::FRAMES),
        rx: args.number_or_usual(&options::RX),
        tx: args.number_or_usual(&options::TX),
        fill: args.number_or_usual(&options::FILL),
        comp: args.number_or_usual(&options::COMP),
        sg: args.is_said(&options::SG),
        wakeup: args.is_said(&options::WAKEUP),
        empty: args.number(&options::EMPTY),
        close: args.number(&options::CLOSE),
        hands: args.number_or_usual(&options::HANDS),
    }
}

/// The number of files that the layout counts: with pcapng none, for no file is a port's.
fn count_files(format: Format, args: &Args<'_>) -> u32
    ensures { result ≡ files_counted format (length (files_in (under args.now))) }
{
    match format {
        Format::Pcap => count_of(number_of_files(args)),
        Format::Pcapng => 0,
    }
}

/// The number of files that the layout wants for each port.
fn count_wanted(format: Format, made: bool) -> u32
    ensures { result ≡ wanted_per_port format made }
{
    match format {
        Format::Pcap if made => 1,
        Format::Pcap => 2,
        Format::Pcapng => 0,
    }
}

/// The number of files that are read: none where the packets are made.
fn count_inputs(format: Format, made: bool, ports: u32) -> u32
    ensures { result ≡ (if made then 0 else files_of format ports) }
{
    if made { 0 } else { format.files(ports) }
}

/// The number of files that were named.
fn number_of_files(args: &Args<'_>) -> usize
    ensures { result ≡ length (files_in (under args.now)) }
{
    match args.files() {
        Some(files) => files.len(),
        None => 0,
    }
}

/// The number in 32 bits, and the last of these for a larger one.
fn count_of(number: usize) -> u32
    ensures { result ≡ counted number }
{
    if number < 4_294_967_296 {
        number as u32
    } else {
        u32::MAX
    }
}

/// The number and the file of the words behind `gen`.
pub(crate) fn read_gen(words: &[String]) -> Option<(u32, &str)>
    ensures some { IfSome result (λ said. gen_plan (map string_bytes words.now) ≡ Some (record { inputs = []; outputs = said.1.now ∷ []; work = Work.Generate said.0 })) }
    ensures none { IfNone result (gen_plan (map string_bytes words.now) ≡ None) }
{
    if words.len() != 2 {
        return None;
    }
    let file = words[1].as_str();
    if begins_with_dash(file) {
        return None;
    }
    let number = parse_number(words[0].as_str())?;
    Some((number, file))
}

/// Whether a word begins with `-` and is longer than this one character.
fn begins_with_dash(word: &str) -> bool
    ensures { result ≡ is_dashed word.now }
{
    let bytes = word.as_bytes();
    bytes.len() > 1 && bytes[0] == b'-'
}
