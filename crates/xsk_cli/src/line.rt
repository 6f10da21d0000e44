//! The line that tells a refusal, in a buffer of its own. The words are those of `specs/Line`: a line that scripts read
//! changes there first.
ghost use Rattle.std.specs.Prelude.{◌≡◌, ◌+◌, ◌≤◌, ◌++◌, length};
ghost use Rattle.std.specs.Fmt.{decimal};
ghost use Rattle.arrayvec.specs.ArrayString.{array_string_len};
ghost use Rattle.xsk_cli.specs.Line.{cause_text, excess_text, file_cause_text, line_of, numbered, status_text, stream_text, unlawful_text};

use crate::{Excess, Status};
use arrayvec::ArrayString;
use itoa::Buffer;
use xsk_io::Stream;
use xsk_pcap::BadCapture;
use xsk_pcapng::BadPcapng;
use xsk_socket::Unlawful;

/// The room of a line.
const ROOM: usize = 96;

/// The line of a status. It takes no memory.
pub(crate) fn line(status: &Status) -> ArrayString<96>
    ensures { result.bytes ≡ line_of status.now }
{
    let mut line = ArrayString::<ROOM>::new();
    push_status(&mut line, status);
    line.push_str("\n");
    line
}

fn push_status(line: &mut ArrayString<96>, status: &Status)
    requires { array_string_len line.old ≤ 0 }
    ensures text { line.new.bytes ≡ line.old.bytes ++ status_text status.now }
    ensures room { array_string_len line.new ≤ 95 }
{
    match status {
        Status::Done => line.push_str("done"),
        Status::Usage => line.push_str("usage"),
        Status::BadCapture { port, cause } => {
            push_named(line, "bad capture ", u64::from(*port));
            line.push_str(" ");
            push_cause(line, *cause);
        }
        Status::ReadFault { port } => push_named(line, "read fault ", u64::from(*port)),
        Status::WriteFault { stream } => {
            line.push_str("write fault ");
            push_stream(line, *stream);
        }
        Status::OpenFault { stream } => {
            line.push_str("open fault ");
            push_stream(line, *stream);
        }
        Status::Refused(unlawful) => {
            line.push_str("refused ");
            push_unlawful(line, *unlawful);
        }
        Status::Stalled { round } => push_named(line, "stalled ", *round),
        Status::TooMuch(excess) => {
            line.push_str("too much ");
            push_excess(line, *excess);
        }
        Status::OutOfMemory => line.push_str("out of memory"),
        Status::NotLegal { line: at } => push_named(line, "not legal ", *at),
        Status::BadPcapng(cause) => {
            line.push_str("bad pcapng ");
            push_file_cause(line, *cause);
        }
    }
}

fn push_cause(line: &mut ArrayString<96>, cause: BadCapture)
    requires { array_string_len line.old ≤ 50 }
    ensures text { line.new.bytes ≡ line.old.bytes ++ cause_text cause }
    ensures room { array_string_len line.new ≤ array_string_len line.old + 40 }
{
    let (name, number) = cause_parts(cause);
    push_numbered(line, name, number);
}

/// The words of a cause, and the number behind them where there is one.
fn cause_parts(cause: BadCapture) -> (&'static str, Option<u64>)
    ensures text { cause_text cause ≡ numbered result.0.now result.1 }
    ensures name { length result.0.now ≤ 20 }
{
    match cause {
        BadCapture::ShortHeader => ("short header", None),
        BadCapture::BadMagic => ("bad magic", None),
        BadCapture::BadVersion => ("bad version", None),
        BadCapture::BadLink => ("bad link", None),
        BadCapture::Truncated { at } => ("truncated ", Some(at)),
        BadCapture::RecordTooLong { at } => ("record too long ", Some(at)),
        BadCapture::OutOfMemory => ("out of memory", None),
    }
}

fn push_file_cause(line: &mut ArrayString<96>, cause: BadPcapng)
    requires { array_string_len line.old ≤ 50 }
    ensures text { line.new.bytes ≡ line.old.bytes ++ file_cause_text cause }
    ensures room { array_string_len line.new ≤ array_string_len line.old + 40 }
{
    let (name, number) = file_cause_parts(cause);
    push_numbered(line, name, number);
}

/// The words of a cause, and the number behind them where there is one.
fn file_cause_parts(cause: BadPcapng) -> (&'static str, Option<u64>)
    ensures text { file_cause_text cause ≡ numbered result.0.now result.1 }
    ensures name { length result.0.now ≤ 20 }
{
    match cause {
        BadPcapng::ShortHeader => ("short header", None),
        BadPcapng::BadMagic => ("bad magic", None),
        BadPcapng::BadVersion => ("bad version", None),
        BadPcapng::Truncated { at } => ("truncated ", Some(at)),
        BadPcapng::BadBlock { at } => ("bad block ", Some(at)),
        BadPcapng::SecondSection { at } => ("second section ", Some(at)),
        BadPcapng::BadLink { at } => ("bad link ", Some(at)),
        BadPcapng::TooManyInterfaces { at } => ("too many interfaces ", Some(at)),
        BadPcapng::OtherPacket { at } => ("other packet ", Some(at)),
        BadPcapng::NoInterface { at } => ("no interface ", Some(at)),
        BadPcapng::RecordTooLong { at } => ("record too long ", Some(at)),
        BadPcapng::OutOfMemory => ("out of memory", None),
    }
}

/// Words, and the number behind them where there is one.
fn push_numbered(line: &mut ArrayString<96>, name: &str, number: Option<u64>)
    requires room { array_string_len line.old ≤ 50 }
    requires name { length name.now ≤ 20 }
    ensures text { line.new.bytes ≡ line.old.bytes ++ numbered name.now number }
    ensures room { array_string_len line.new ≤ array_string_len line.old + (length name.now + 20) }
{
    match number {
        Some(number) => push_named(line, name, number),
        None => line.push_str(name),
    }
}

fn push_stream(line: &mut ArrayString<96>, stream: Stream)
    requires { array_string_len line.old ≤ 50 }
    ensures text { line.new.bytes ≡ line.old.bytes ++ stream_text stream }
    ensures room { array_string_len line.new ≤ array_string_len line.old + 40 }
{
    match stream {
        Stream::Input(port) => push_named(line, "input ", u64::from(port)),
        Stream::Output(port) => push_named(line, "output ", u64::from(port)),
        Stream::Report => line.push_str("report"),
    }
}

fn push_excess(line: &mut ArrayString<96>, excess: Excess)
    requires { array_string_len line.old ≤ 50 }
    ensures text { line.new.bytes ≡ line.old.bytes ++ excess_text excess }
    ensures room { array_string_len line.new ≤ array_string_len line.old + 40 }
{
    match excess {
        Excess::Input(port) => push_named(line, "input ", u64::from(port)),
        Excess::Packets(packets) => push_named(line, "packets ", packets),
        Excess::Bytes(bytes) => push_named(line, "bytes ", bytes),
    }
}

fn push_unlawful(line: &mut ArrayString<96>, unlawful: Unlawful)
    requires { array_string_len line.old ≤ 50 }
    ensures text { line.new.bytes ≡ line.old.bytes ++ unlawful_text unlawful }
    ensures room { array_string_len line.new ≤ array_string_len line.old + 40 }
{
    let (name, value) = unlawful_parts(unlawful);
    push_named(line, name, u64::from(value));
}

/// What a refusal names, and its value.
fn unlawful_parts(unlawful: Unlawful) -> (&'static str, u32)
    ensures text { unlawful_text unlawful ≡ result.0.now ++ decimal result.1 }
    ensures name { length result.0.now ≤ 20 }
{
    match unlawful {
        Unlawful::Ports(value) => ("ports ", value),
        Unlawful::Queues(value) => ("queues ", value),
        Unlawful::Sockets(value) => ("sockets ", value),
        Unlawful::Files(value) => ("files ", value),
        Unlawful::Chunk(value) => ("chunk ", value),
        Unlawful::Headroom(value) => ("headroom ", value),
        Unlawful::Frames(value) => ("frames ", value),
        Unlawful::Rx(value) => ("rx ", value),
        Unlawful::Tx(value) => ("tx ", value),
        Unlawful::Fill(value) => ("fill ", value),
        Unlawful::Comp(value) => ("comp ", value),
        Unlawful::Pool(value) => ("pool ", value),
        Unlawful::Empty(value) => ("empty ", value),
        Unlawful::Close(value) => ("close ", value),
        Unlawful::Hands(value) => ("hands ", value),
    }
}

fn push_named(line: &mut ArrayString<96>, name: &str, value: u64)
    requires room { array_string_len line.old ≤ 50 }
    requires name { length name.now ≤ 20 }
    ensures text { line.new.bytes ≡ line.old.bytes ++ (name.now ++ decimal value) }
    ensures room { array_string_len line.new ≤ array_string_len line.old + (length name.now + 20) }
{
    line.push_str(name);
    line.push_str(Buffer::new().format(value));
}
