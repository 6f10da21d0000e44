//! The header of a recording, line by line.
ghost use Rattle.std.specs.Prelude.{◌≡◌, IfOk, IfErr};
ghost use Rattle.xsk_recording.specs.Header.{three_at, pair_at, socket_at, size_told, flag_at, kernel_at};
ghost use Rattle.xsk_recording.specs.Header.{no_header, header_after, header_line, towards, pair_line, socket_line, kernel_line};
ghost use Rattle.xsk_recording.specs.Line.{ended};
ghost use Rattle.xsk_recording.specs.HeaderFields.{head_view, flag_view, is_mark, IsNoSetting};

use crate::words::{is_end, is_ended};
use std::alloc::Global;
use std::marker::Model;
use std::mem;
use xsk_lines::{small, word};
use xsk_side::{Pair, Rules, Setting, SettingError, Socket};
use xsk_umem::OutOfMemory;

/// The most pairs, and the most sockets.
const MOST_ENDS: usize = 64;

/// Which line comes next.
#[derive(Clone, Copy, Debug, PartialEq, Eq)]
pub(crate) enum Next {
    Title,
    Umem,
    /// That of a pair, or of the first socket.
    Pairs,
    /// That of a socket, or of the kernel.
    Sockets,
    /// The word `calls`.
    Mark,
    /// That of a call.
    Calls,
}

/// What the lines of a header have told so far.
#[derive(Drop)]
pub(crate) struct Head {
    next: Next,
    frames: u32,
    chunk: u32,
    headroom: u32,
    pairs: Vec<Pair>,
    sockets: Vec<Socket>,
    rules: Rules,
    metadata: bool,
}

impl Model for Head {
    ghost use Rattle.xsk_recording.specs.Header.{Header};
    ghost use Rattle.xsk_recording.specs.HeaderFields.{header_of};

    ghost Value = { Header };

    ghost view = { header_of };

    ghost invariant = { λ h. Unit {0} };
}

impl Head {
    /// Before the first line.
    pub(crate) fn new(alloc: Global) -> Head
        ensures { result ≡ no_header }
    {
        Head {
            next: Next::Title,
            frames: 0,
            chunk: 0,
            headroom: 0,
            pairs: Vec::new(alloc),
            sockets: Vec::new(alloc),
            rules: Rules {
                sg: false,
                own: false,
                at_data: false,
            },
            metadata: false,
        }
    }

    /// Which line comes next.
    pub(crate) fn next(&self) -> Next
        ensures { result ≡ self.now.next }
    {
        self.next
    }

    /// Whether the line of the kernel was read last.
    pub(crate) fn is_told(&self) -> bool
        ensures { result ≡ is_mark self.now.next }
    {
        matches!(self.next, Next::Mark)
    }

    /// Whether the line of the kernel says that the UMEM has room for TX metadata.
    pub(crate) fn metadata(&self) -> bool
        ensures { result ≡ self.now.metadata }
    {
        self.metadata
    }

    /// Reads the next line, and tells whether it is of the form.
    pub(crate) fn read(&mut self, text: &[u8]) -> Result<bool, OutOfMemory>
        ensures { IfOk result (λ read. head_view read self.new ≡ header_after self.old text.now) }
    {
        match self.next {
            Next::Title => Ok(self.pass(text, b"xsk recording 1".as_slice(), Next::Umem)),
            Next::Umem => Ok(self.read_umem(text)),
            Next::Pairs => self.read_pairs(text),
            Next::Sockets => self.read_sockets(text),
            Next::Mark => Ok(self.pass(text, b"calls".as_slice(), Next::Calls)),
            Next::Calls => Ok(false),
        }
    }

    /// Passes a line that is one word, behind which another comes.
    fn pass(&mut self, text: &[u8], expected: &[u8], next: Next) -> bool
        ensures { head_view result self.new ≡ ended expected.now (towards next self.old) text.now }
    {
        if !is_ended(text, expected) {
            return false;
        }
        self.next = next;
        true
    }

    #[tactic(auto, unfolding(crate::specs::Header::umem_at))]
    fn read_umem(&mut self, text: &[u8]) -> bool
        ensures { head_view result self.new ≡ header_line Next.Umem self.old text.now }
    {
        let Some(rest) = word(text, b"umem ".as_slice()) else {
            return false;
        };
        let Some((frames, chunk, headroom)) = three(rest) else {
            return false;
        };
        self.next = Next::Pairs;
        self.frames = frames;
        self.chunk = chunk;
        self.headroom = headroom;
        true
    }

    fn read_pairs(&mut self, text: &[u8]) -> Result<bool, OutOfMemory>
        ensures { IfOk result (λ read. head_view read self.new ≡ header_line Next.Pairs self.old text.now) }
    {
        if let Some(rest) = word(text, b"pair ".as_slice()) {
            return self.read_pair(rest);
        }
        if let Some(rest) = word(text, b"socket ".as_slice()) {
            return self.read_socket(rest);
        }
        Ok(false)
    }

    fn read_sockets(&mut self, text: &[u8]) -> Result<bool, OutOfMemory>
        ensures { IfOk result (λ read. head_view read self.new ≡ header_line Next.Sockets self.old text.now) }
    {
        if let Some(rest) = word(text, b"socket ".as_slice()) {
            return self.read_socket(rest);
        }
        if let Some(rest) = word(text, b"kernel".as_slice()) {
            return Ok(self.read_kernel(rest));
        }
        Ok(false)
    }

    fn read_pair(&mut self, text: &[u8]) -> Result<bool, OutOfMemory>
        ensures { IfOk result (λ read. head_view read self.new ≡ pair_line self.old text.now) }
    {
        let Some(pair) = pair(text) else {
            return Ok(false);
        };
        if self.pairs.len() >= MOST_ENDS {
            return Ok(false);
        }
        self.pairs.push(pair)?;
        self.next = Next::Pairs;
        Ok(true)
    }

    fn read_socket(&mut self, text: &[u8]) -> Result<bool, OutOfMemory>
        ensures { IfOk result (λ read. head_view read self.new ≡ socket_line self.old text.now) }
    {
        let Some(socket) = socket(text) else {
            return Ok(false);
        };
        if self.sockets.len() >= MOST_ENDS {
            return Ok(false);
        }
        self.sockets.push(socket)?;
        self.next = Next::Sockets;
        Ok(true)
    }

    fn read_kernel(&mut self, text: &[u8]) -> bool
        ensures { head_view result self.new ≡ kernel_line self.old text.now }
    {
        let Some((rules, metadata)) = kernel(text) else {
            return false;
        };
        self.rules = rules;
        self.metadata = metadata;
        self.next = Next::Mark;
        true
    }

    /// The setting of what was told, or why it is none. Nothing of it is left here.
    pub(crate) fn take(&mut self, alloc: Global) -> Result<Setting, SettingError>
        ensures ok { IfOk result (λ s. s ≡ self.old.setting) }
        ensures no { IfErr result (λ error. IsNoSetting self.old.setting error) }
        ensures next { self.new.next ≡ self.old.next }
    {
        let pairs = mem::replace(&mut self.pairs, Vec::new(alloc));
        let sockets = mem::replace(&mut self.sockets, Vec::new(alloc));
        Setting::new(
            self.frames,
            self.chunk,
            self.headroom,
            pairs,
            sockets,
            self.rules,
        )
    }
}

/// Three numbers that end the line.
#[tactic(auto, unfolding(crate::specs::Header::three_at))]
fn three(text: &[u8]) -> Option<(u32, u32, u32)>
    ensures { result ≡ three_at text.now }
{
    let (first, rest) = small(text)?;
    let rest = word(rest, b" ".as_slice())?;
    let (second, rest) = small(rest)?;
    let rest = word(rest, b" ".as_slice())?;
    let (third, rest) = small(rest)?;
    if is_end(rest) {
        Some((first, second, third))
    } else {
        None
    }
}

#[tactic(auto, unfolding(crate::specs::Header::pair_at))]
fn pair(text: &[u8]) -> Option<Pair>
    ensures { result ≡ pair_at text.now }
{
    let (fill, rest) = small(text)?;
    let rest = word(rest, b" ".as_slice())?;
    let (comp, rest) = small(rest)?;
    if is_end(rest) {
        Some(Pair { fill, comp })
    } else {
        None
    }
}

#[tactic(auto, unfolding(crate::specs::Header::socket_at))]
fn socket(text: &[u8]) -> Option<Socket>
    ensures { result ≡ socket_at text.now }
{
    let (pair, rx, tx) = three(text)?;
    Some(Socket {
        pair,
        rx: size(rx),
        tx: size(tx),
    })
}

/// The size of a ring; 0 says that there is none.
fn size(told: u32) -> Option<u32>
    ensures { result ≡ size_told told }
{
    if told == 0 { None } else { Some(told) }
}

/// The switches of a kernel, and whether the UMEM has room for TX metadata.
#[tactic(auto, unfolding(crate::specs::Header::kernel_at))]
fn kernel(text: &[u8]) -> Option<(Rules, bool)>
    ensures { result ≡ kernel_at text.now }
{
    let (sg, rest) = flag(text, b" sg".as_slice());
    let (own, rest) = flag(rest, b" own".as_slice());
    let (at_data, rest) = flag(rest, b" data".as_slice());
    let (metadata, rest) = flag(rest, b" metadata".as_slice());
    if is_end(rest) {
        Some((Rules { sg, own, at_data }, metadata))
    } else {
        None
    }
}

/// Whether a word stands here, and the text behind it.
fn flag<'a>(text: &'a [u8], expected: &[u8]) -> (bool, &'a [u8])
    ensures { flag_view result ≡ flag_at expected.now text.now }
{
    match word(text, expected) {
        Some(rest) => (true, rest),
        None => (false, text),
    }
}
