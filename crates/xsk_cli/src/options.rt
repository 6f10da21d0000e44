//! The options of the commands, each once: by these rows the words are read, and they are told to who asks.

use xsk_args::{OptionRow, Takes, Unsaid};
use xsk_socket::USUAL;

pub const PORTS: OptionRow = OptionRow {
    name: "ports",
    takes: Takes::Number,
    about: "ports, each paired with another: 0 with 1, and 2 with 3",
    accepts: "2 or 4",
    unsaid: Unsaid::Number(USUAL.ports),
};

pub const QUEUES: OptionRow = OptionRow {
    name: "queues",
    takes: Takes::Number,
    about: "queues of each port",
    accepts: "1, 2 or 4",
    unsaid: Unsaid::Number(USUAL.queues),
};

pub const SOCKETS: OptionRow = OptionRow {
    name: "sockets",
    takes: Takes::Number,
    about: "sockets of each queue, one for each class of packets",
    accepts: "1, 2 or 4",
    unsaid: Unsaid::Number(USUAL.sockets),
};

pub const FRAMES: OptionRow = OptionRow {
    name: "frames",
    takes: Takes::Number,
    about: "frames of the UMEM, as many of them for each queue of each port",
    accepts: "1 to 4096, a multiple of ports x queues",
    unsaid: Unsaid::Number(USUAL.frames),
};

pub const CHUNK: OptionRow = OptionRow {
    name: "chunk",
    takes: Takes::Number,
    about: "bytes of a frame",
    accepts: "2048 or 4096",
    unsaid: Unsaid::Number(USUAL.chunk),
};

pub const HEADROOM: OptionRow = OptionRow {
    name: "headroom",
    takes: Takes::Number,
    about: "bytes that are kept free in a frame",
    accepts: "a number below the chunk less 256",
    unsaid: Unsaid::Number(USUAL.headroom),
};

pub const RX: OptionRow = OptionRow {
    name: "rx",
    takes: Takes::Number,
    about: "entries of each RX ring",
    accepts: "a power of two from 2 to 2048",
    unsaid: Unsaid::Number(USUAL.rx),
};

pub const TX: OptionRow = OptionRow {
    name: "tx",
    takes: Takes::Number,
    about: "entries of each TX ring",
    accepts: "a power of two from 2 to 2048",
    unsaid: Unsaid::Number(USUAL.tx),
};

pub const FILL: OptionRow = OptionRow {
    name: "fill",
    takes: Takes::Number,
    about: "entries of each FILL ring",
    accepts: "a power of two from 2 to 2048, no fewer than a queue's frames",
    unsaid: Unsaid::Number(USUAL.fill),
};

pub const COMP: OptionRow = OptionRow {
    name: "comp",
    takes: Takes::Number,
    about: "entries of each COMPLETION ring",
    accepts: "a power of two from 2 to 2048",
    unsaid: Unsaid::Number(USUAL.comp),
};

pub const EMPTY: OptionRow = OptionRow {
    name: "empty",
    takes: Takes::Number,
    about: "the cell of each port's XSKMAP that holds no socket",
    accepts: "a number below queues x sockets",
    unsaid: Unsaid::Told("none"),
};

pub const CLOSE: OptionRow = OptionRow {
    name: "close",
    takes: Takes::Number,
    about: "the socket that is closed while traffic flows, by port, queue and class",
    accepts: "a number below ports x queues x sockets",
    unsaid: Unsaid::Told("none"),
};

pub const SG: OptionRow = OptionRow {
    name: "sg",
    takes: Takes::Nothing,
    about: "a packet may have up to 18 frames (XDP_USE_SG)",
    accepts: "",
    unsaid: Unsaid::Told("it has one"),
};

pub const WAKEUP: OptionRow = OptionRow {
    name: "wakeup",
    takes: Takes::Nothing,
    about: "drivers that find nothing to do sleep, and applications wake them (XDP_USE_NEED_WAKEUP)",
    accepts: "",
    unsaid: Unsaid::Told("they look again and again"),
};

/// Those that make the configuration.
pub const LAYOUT: &[OptionRow] = &[
    PORTS, QUEUES, SOCKETS, FRAMES, CHUNK, HEADROOM, RX, TX, FILL, COMP, EMPTY, CLOSE, SG, WAKEUP,
];

pub const GEN: OptionRow = OptionRow {
    name: "gen",
    takes: Takes::Number,
    about: "packets are made of this number, and no inputs are named",
    accepts: "any number",
    unsaid: Unsaid::Told("inputs are read"),
};

pub const PROG: OptionRow = OptionRow {
    name: "prog",
    takes: Takes::Program,
    about: "the programs that decide of each packet, in a chain",
    accepts: "one to eight of redirect, pass, drop, type:HHHH, fixed:N, bounce and bounce:HHHH, with commas between them",
    unsaid: Unsaid::Told("redirect"),
};

pub const WIRE: OptionRow = OptionRow {
    name: "wire",
    takes: Takes::OneOf(&["wait", "drop"]),
    about: "what becomes of a packet that finds too few frames on FILL or too little room on RX",
    accepts: "wait or drop",
    unsaid: Unsaid::Told("wait"),
};

pub const AFTER: OptionRow = OptionRow {
    name: "after",
    takes: Takes::Number,
    about: "how many items of its RX the socket's application takes before it is closed (with --close)",
    accepts: "any number",
    unsaid: Unsaid::Number(0),
};

pub const PCAPNG: OptionRow = OptionRow {
    name: "pcapng",
    takes: Takes::Nothing,
    about: "one pcapng file is read and one written, whose interfaces are the ports",
    accepts: "",
    unsaid: Unsaid::Told("a capture for each port"),
};

/// Those of a run.
pub const RUN: &[OptionRow] = &[GEN, PROG, WIRE, AFTER, PCAPNG];

pub const ORDER: OptionRow = OptionRow {
    name: "order",
    takes: Takes::Number,
    about: "the order of the workers in each round",
    accepts: "any number",
    unsaid: Unsaid::Number(0),
};

pub const MANGLE: OptionRow = OptionRow {
    name: "mangle",
    takes: Takes::Number,
    about: "applications change what they send: each item of so many, and with 0 every one",
    accepts: "any number",
    unsaid: Unsaid::Told("none is changed"),
};

pub const JOURNAL: OptionRow = OptionRow {
    name: "journal",
    takes: Takes::Nothing,
    about: "behind the report a line for each call",
    accepts: "",
    unsaid: Unsaid::Told("the report alone"),
};

pub const WHY: OptionRow = OptionRow {
    name: "why",
    takes: Takes::Nothing,
    about: "behind the line of a stall what each worker waits for and what stands in each ring, and with --journal the calls so far",
    accepts: "",
    unsaid: Unsaid::Told("the line alone"),
};

/// Those of a run in rounds.
pub const ROUNDS: &[OptionRow] = &[ORDER, MANGLE, JOURNAL, WHY];

pub const HANDS: OptionRow = OptionRow {
    name: "hands",
    takes: Takes::Number,
    about: "threads of each application (with --close 1)",
    accepts: "1, 2 or 4",
    unsaid: Unsaid::Number(USUAL.hands),
};

/// Those of a run on threads.
pub const THREADS: &[OptionRow] = &[HANDS];

pub const WHY_ILLEGAL: OptionRow = OptionRow {
    about: "behind the first line that isn't legal why, and what stands in each ring and which frames each caller has",
    ..WHY
};

/// Those that an audit has beside the configuration's.
pub const JUDGED: &[OptionRow] = &[WHY_ILLEGAL];

/// All that `simulate` has.
pub const SIMULATE: &[&[OptionRow]] = &[LAYOUT, RUN, ROUNDS];

/// All that `forward` has.
pub const FORWARD: &[&[OptionRow]] = &[LAYOUT, RUN, THREADS];

/// All that `audit` has.
pub const AUDIT: &[&[OptionRow]] = &[LAYOUT, JUDGED];
