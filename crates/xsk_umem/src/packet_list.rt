//! Lists of packets, as spans of one text. Text, spans and gaps change together: the spans stay in order, apart, behind
//! their gaps and within the text, which is the invariant (`specs/Span`).
ghost use Rattle.std.specs.Prelude.{ℕ, ◌≡◌, ◌+◌, ◌*◌, ◌<◌, ◌≤◌, ◌^◌, All, List, [], ◌∷◌, ◌++◌, length, map, replicate, sum_by, None, Some, false, slice_get, ◌↔◌, IsTrue, IfOk, IfSome, IsSome, OnOk, OnErr, vec_len, vec_capacity};
ghost use Rattle.std.specs.Borrow.{sem};
ghost use Rattle.std.specs.Io.BufRead.{Rests};
ghost use Rattle.std.specs.List.{concat};
ghost use Rattle.xsk_umem.specs.contracts.packet_list.PacketList.{the_row};
ghost use Rattle.xsk_umem.specs.declared.packet_list.Gaps.{Gaps};
ghost use Rattle.std.specs.Arc.{arc_value};
ghost use Rattle.xsk_umem.specs.PacketList.{PacketList as Packets, no_gaps, with_last_extended};
ghost use Rattle.xsk_umem.specs.Shared.{bytes_of, MaySpare};
ghost use Rattle.xsk_umem.specs.Span.{at_span, len_of, AreInText, end_of, spans_from, text_with, laid_from, AreSpans, HaveGaps, HasText, IsWithin, first_gap, gap_before};

use crate::OutOfMemory;
use crate::behind::write_behind;
use crate::front::Front;
use crate::headers::{Headers, Zeros};
use std::alloc::Global;
use std::marker::Model;
use std::sync::Arc;

/// Where a packet's bytes stand in a text.
#[derive(Clone, Copy, Debug)]
pub struct Span {
    /// The place of the first byte, counted from 0.
    pub start: usize,
    /// The number of bytes.
    pub len: usize,
}

/// The bytes that a list keeps free in its text, for what is written there later.
#[derive(Clone, Copy, Debug, PartialEq, Eq)]
pub struct Gaps {
    /// The bytes before the gap of the first packet.
    pub first: u32,
    /// The bytes before each packet.
    pub before_each: u32,
}

/// What a list is made of.
#[derive(Debug, Drop)]
pub struct Parts {
    /// The text in which the packets stand.
    pub text: Vec<u8>,
    /// Where they stand in it.
    pub spans: Vec<Span>,
    /// The gaps between them. None where the list was made of spans, which may stand anywhere.
    pub gaps: Option<Gaps>,
}

/// The bytes of a line, which is what processors have of memory: four spans.
const LINE: u32 = 64;

const NO_SPAN: Span = Span { start: 0, len: 0 };

const NO_GAPS: Gaps = Gaps {
    first: 0,
    before_each: 0,
};

/// Packets in order, each a string of bytes. The packets and bytes for which room is reserved are numbers of their own.
#[derive(Debug, Drop)]
pub struct PacketList {
    text: Vec<u8>,
    /// What stands in the text's place, where lists share one.
    front: Option<Front>,
    spans: Vec<Span>,
    gaps: Option<Gaps>,
    /// Whether headers may stand in the gaps.
    laid: bool,
    spare_packets: u32,
    spare_bytes: u64,
}

impl Model for PacketList {
    ghost use Rattle.std.specs.Prelude.{◌+◌, ◌*◌, ◌<◌, ◌≤◌, ◌^◌, map, vec_len, vec_capacity};
    ghost use Rattle.xsk_umem.specs.PacketList.{PacketList as Packets};

    ghost Value = { Packets };

    ghost use Rattle.xsk_umem.specs.Shared.{bytes_of, MaySpare};
    ghost use Rattle.xsk_umem.specs.Span.{at_span, AreSpans, HaveGaps, HasText, first_gap, gap_before};

    ghost view = { λ p. record { packets = map (at_span (bytes_of p.text.items p.front)) p.spans.items; gaps = p.gaps; spare_packets = p.spare_packets; spare_bytes = p.spare_bytes } };

    ghost invariant = { λ p. AreSpans (first_gap p.gaps) (bytes_of p.text.items p.front) p.spans.items
        × HaveGaps p.gaps p.spans.items
        × (vec_len p.spans + p.spare_packets ≤ vec_capacity p.spans)
        × (vec_len p.text + (p.spare_packets * gap_before p.gaps + p.spare_bytes) ≤ vec_capacity p.text)
        × (vec_len p.spans + p.spare_packets < 2 ^ 32)
        × MaySpare p.front p.spare_packets
        × MaySpare p.front p.spare_bytes
        × HasText p.laid p.gaps (map (at_span (bytes_of p.text.items p.front)) p.spans.items) (bytes_of p.text.items p.front) };
}

impl PacketList {
    /// An empty list. It takes no memory.
    pub fn new(alloc: Global) -> PacketList
        ensures { result ≡ record { packets = []; gaps = no_gaps; spare_packets = 0; spare_bytes = 0 } }
    {
        PacketList {
            text: Vec::new(alloc),
            front: None,
            spans: Vec::new(alloc),
            gaps: Some(NO_GAPS),
            laid: false,
            spare_packets: 0,
            spare_bytes: 0,
        }
    }

    /// An empty list that keeps gaps in its text.
    pub fn with_gaps(alloc: Global, gaps: Gaps) -> Result<PacketList, OutOfMemory>
        ensures { IfOk result (λ list. list ≡ record { packets = []; gaps = Some gaps; spare_packets = 0; spare_bytes = 0 }) }
    {
        let mut text = Vec::with_capacity(alloc, gaps.first as usize)?;
        append_gap(&mut text, gaps.first);
        Ok(PacketList {
            text,
            front: None,
            spans: Vec::new(alloc),
            gaps: Some(gaps),
            laid: false,
            spare_packets: 0,
            spare_bytes: 0,
        })
    }

    /// A list of the packets that stand in a text, each as a span of it, with no room reserved. The spans must be in
    /// order and apart, lie within the text, and be fewer than 2^32. It copies no packet and takes no memory.
    pub fn of_spans(text: Vec<u8>, spans: Vec<Span>) -> PacketList
        requires spans { AreInText text.items spans.items }
        requires few { length spans.items < 2 ^ 32 }
        ensures { result ≡ record { packets = map (at_span text.items) spans.items; gaps = None; spare_packets = 0; spare_bytes = 0 } }
    {
        let mut text = text;
        text.truncate(end(spans.as_slice()));
        PacketList {
            text,
            front: None,
            spans,
            gaps: None,
            laid: false,
            spare_packets: 0,
            spare_bytes: 0,
        }
    }

    /// The list that [`of_spans`](PacketList::of_spans) makes, of a text that other lists may have too. Room is taken for a copy
    /// of it, which is made when the list is to grow or to be taken apart while others have the text.
    pub fn of_shared(
        alloc: Global,
        text: &Arc<Vec<u8>>,
        spans: Vec<Span>,
    ) -> Result<PacketList, OutOfMemory>
        requires spans { AreInText (arc_value text.now).items spans.items }
        requires few { length spans.items < 2 ^ 32 }
        ensures { IfOk result (λ list. list ≡ record { packets = map (at_span (arc_value text.now).items) spans.items; gaps = None; spare_packets = 0; spare_bytes = 0 }) }
    {
        let front = Front::of(alloc, text, end(spans.as_slice()))?;
        Ok(PacketList {
            text: Vec::new(alloc),
            front: Some(front),
            spans,
            gaps: None,
            laid: false,
            spare_packets: 0,
            spare_bytes: 0,
        })
    }

    /// What the list is made of: a text that ends with the last packet, or with the first gap where there is none, and the
    /// packets' spans, in order and apart. The gaps tell both exactly, and have nothing but zeros in them. It takes no memory.
    pub fn into_parts(self) -> Parts
        ensures packets { map (at_span result.text.items) result.spans.items ≡ self.packets }
        ensures spans { AreInText result.text.items result.spans.items }
        ensures kept { result.gaps ≡ self.gaps }
        ensures end { end_of (first_gap result.gaps) result.spans.items ≡ length result.text.items }
        ensures gaps { (gaps : Gaps) → result.gaps ≡ Some gaps → result.spans.items ≡ spans_from gaps.first gaps.before_each self.packets }
        ensures text { (gaps : Gaps) → result.gaps ≡ Some gaps → result.text.items ≡ text_with gaps self.packets }
    {
        let text = own_text(self.text, self.front);
        Parts {
            text: cleared(text, self.spans.as_slice(), self.gaps, self.laid),
            spans: self.spans,
            gaps: self.gaps,
        }
    }

    /// The packets as they stand in the list's own text, with the headers written into its gaps, exactly where these have
    /// the headers' sizes. It copies no packet and takes no memory, and the list stays as it was.
    pub fn lay<H: Headers>(&mut self, headers: &H) -> Option<&[u8]>
        ensures* same { sem 𝓛 (Rests the_row self.entry (λ list. list ≡ self.old)) }
        ensures gaps { IsSome result ↔ (self.old.gaps ≡ Some (H.sizes_of headers.now)) }
        ensures text { IfSome result (λ text. text.now ≡ H.first headers.now ++ laid_from (H.before headers.now) 0 self.old.packets) }
    {
        if self.gaps != Some(headers.sizes()) {
            return None;
        }
        make_own(&mut self.text, &mut self.front);
        self.laid = true;
        fill(self.text.as_mut_slice(), self.spans.as_slice(), headers);
        Some(self.text.as_slice())
    }

    /// The gaps that the list keeps in its text: none where it was made of spans.
    pub fn gaps(&self) -> Option<Gaps>
        ensures { result ≡ self.now.gaps }
    {
        self.gaps
    }

    /// Makes room for at least so many further packets with their gaps, and bytes. The room never gets smaller by it.
    pub fn reserve(&mut self, packets: u32, bytes: u32) -> Result<(), OutOfMemory>
        ensures packets { self.new.packets ≡ self.old.packets }
        ensures gaps { self.new.gaps ≡ self.old.gaps }
        ensures room { OnOk result ((packets ≤ self.new.spare_packets) × (bytes ≤ self.new.spare_bytes)) }
        ensures kept { (self.old.spare_packets ≤ self.new.spare_packets) × (self.old.spare_bytes ≤ self.new.spare_bytes) }
    {
        let packets = packets.max(self.spare_packets);
        let bytes = u64::from(bytes).max(self.spare_bytes);
        let gap = before_each(self.gaps);
        let Some(room) = room_of(self.spans.len(), packets, gap, bytes) else {
            return Err(OutOfMemory);
        };
        self.spans.reserve(packets as usize)?;
        reserve_own(&mut self.text, &mut self.front, room as usize)?;
        self.spare_packets = packets;
        self.spare_bytes = bytes;
        Ok(())
    }

    /// The number of packets.
    pub fn len(&self) -> u32
        ensures value { result ≡ length self.now.packets }
    {
        let _spare = self.spare_packets;
        self.spans.len() as u32
    }

    /// Whether there is no packet.
    pub fn is_empty(&self) -> bool
        ensures { IsTrue result ↔ (self.now.packets ≡ []) }
    {
        self.spans.is_empty()
    }

    /// The number of bytes of all packets.
    pub fn bytes(&self) -> u64
        ensures { result ≡ length (concat self.now.packets) }
    {
        total(self.spans.as_slice())
    }

    /// The bytes of packet `i`, counted from 0.
    pub fn get(&self, i: u32) -> &[u8]
        requires { i < length self.now.packets }
        ensures { slice_get self.now.packets i ≡ Some result.now }
    {
        let span = self.spans[i as usize];
        let bytes = bytes_in(self.text.as_slice(), &self.front);
        &bytes[span.start..span.start + span.len]
    }

    /// Appends a packet in the room that is reserved, which must hold it, and lowers that room by it.
    pub fn push_reserved(&mut self, bytes: &[u8])
        requires packets { 1 ≤ self.old.spare_packets }
        requires bytes { length bytes.now ≤ self.old.spare_bytes }
        ensures packets { self.new.packets ≡ self.old.packets ++ bytes.now ∷ [] }
        ensures gaps { self.new.gaps ≡ self.old.gaps }
        ensures spare_packets { self.new.spare_packets + 1 ≡ self.old.spare_packets }
        ensures spare_bytes { self.new.spare_bytes + length bytes.now ≡ self.old.spare_bytes }
    {
        append_gap(&mut self.text, before_each(self.gaps));
        let start = self.text.len();
        self.text.extend_from_slice(bytes).unwrap();
        self.spans.push_reserved(Span {
            start,
            len: bytes.len(),
        });
        self.spare_packets -= 1;
        self.spare_bytes -= bytes.len() as u64;
    }

    /// Writes ahead, and takes back, what so many packets of so many bytes in all take behind the last packet, as far as there is room
    /// for it: so a processor waits once for the lines on which they are to stand. The list stays as it was.
    pub fn write_ahead(&mut self, packets: u32, bytes: u32)
        ensures { self.new ≡ self.old }
    {
        let gaps = packets.saturating_mul(before_each(self.gaps));
        let lines = gaps.saturating_add(bytes) / LINE;
        write_behind(&mut self.text, &[0; LINE as usize], lines as usize);
        write_behind(&mut self.spans, &[NO_SPAN; 4], packets as usize / 4);
    }

    /// Appends bytes to the last packet in the room that is reserved, which must hold them, and lowers that room by them.
    pub fn extend_last(&mut self, bytes: &[u8])
        requires some { 1 ≤ length self.old.packets }
        requires bytes { length bytes.now ≤ self.old.spare_bytes }
        ensures packets { self.new.packets ≡ with_last_extended self.old.packets bytes.now }
        ensures gaps { self.new.gaps ≡ self.old.gaps }
        ensures spare_packets { self.new.spare_packets ≡ self.old.spare_packets }
        ensures spare_bytes { self.new.spare_bytes + length bytes.now ≡ self.old.spare_bytes }
    {
        self.text.extend_from_slice(bytes).unwrap();
        let last = self.spans.len() - 1;
        self.spans[last].len += bytes.len();
        self.spare_bytes -= bytes.len() as u64;
    }

    /// Appends a packet. Where memory can't be had the packets stay as they were, and no room gets smaller. Otherwise
    /// each room falls by no more than the packet takes.
    pub fn push(&mut self, bytes: &[u8]) -> Result<(), OutOfMemory>
        ensures pushed { OnOk result (self.new.packets ≡ self.old.packets ++ bytes.now ∷ []) }
        ensures refused { OnErr result (self.new.packets ≡ self.old.packets) }
        ensures gaps { self.new.gaps ≡ self.old.gaps }
        ensures kept { OnErr result ((self.old.spare_packets ≤ self.new.spare_packets) × (self.old.spare_bytes ≤ self.new.spare_bytes)) }
        ensures spare_packets { self.old.spare_packets ≤ self.new.spare_packets + 1 }
        ensures spare_bytes { self.old.spare_bytes ≤ self.new.spare_bytes + length bytes.now }
    {
        let bytes_len = u32::try_from(bytes.len()).map_err(|_| OutOfMemory)?;
        self.reserve(1, bytes_len)?;
        self.push_reserved(bytes);
        Ok(())
    }
}

/// The bytes in which the packets of a list stand.
fn bytes_in<'a>(text: &'a [u8], front: &'a Option<Front>) -> &'a [u8]
    ensures { result.now ≡ bytes_of text.now front.now }
{
    match front {
        Some(front) => front.bytes(),
        None => text,
    }
}

/// The bytes in which the packets of a list stand, as a text.
fn own_text(text: Vec<u8>, front: Option<Front>) -> Vec<u8>
    ensures { result.items ≡ bytes_of text.items front }
{
    match front {
        Some(front) => front.into_text(),
        None => text,
    }
}

/// The bytes of so many packets' gaps and so many more, where 64 bits count them, and 32 bits the packets behind so many.
fn room_of(before: usize, packets: u32, gap: u32, bytes: u64) -> Option<u64>
    requires { before < 2 ^ 32 }
    ensures { IfSome result (λ room. (before + packets < 2 ^ 32) × (room ≡ packets * gap + bytes)) }
{
    if before as u64 + u64::from(packets) > u64::from(u32::MAX) {
        return None;
    }
    let gaps = u64::from(packets) * u64::from(gap);
    gaps.checked_add(bytes)
}

/// Makes room for so many further bytes in a list's own text, which takes the place of what is shared.
fn reserve_own(
    text: &mut Vec<u8>,
    front: &mut Option<Front>,
    bytes: usize,
) -> Result<(), OutOfMemory>
    ensures bytes { bytes_of text.new.items front.new ≡ bytes_of text.old.items front.old }
    ensures own { front.new ≡ None }
    ensures room { OnOk result (vec_len text.new + bytes ≤ vec_capacity text.new) }
    ensures kept { (spare : ℕ) → MaySpare front.old spare → vec_len text.old + spare ≤ vec_capacity text.old → vec_len text.new + spare ≤ vec_capacity text.new }
{
    make_own(text, front);
    text.reserve(bytes)?;
    Ok(())
}

/// Puts the bytes in which the packets of a list stand into its own text.
fn make_own(text: &mut Vec<u8>, front: &mut Option<Front>)
    ensures items { text.new.items ≡ bytes_of text.old.items front.old }
    ensures own { front.new ≡ None }
    ensures kept { (spare : ℕ) → MaySpare front.old spare → vec_len text.old + spare ≤ vec_capacity text.old → vec_len text.new + spare ≤ vec_capacity text.new }
{
    if let Some(front) = front.take() {
        *text = front.into_text();
    }
}

/// The bytes of the gap before each packet.
fn before_each(gaps: Option<Gaps>) -> u32
    ensures { result ≡ gap_before gaps }
{
    match gaps {
        Some(gaps) => gaps.before_each,
        None => 0,
    }
}

/// Appends so many zero bytes, for which there must be room: the 16 before a capture's packet in one step, and others 16 at once.
fn append_gap(text: &mut Vec<u8>, gap: u32)
    requires { vec_len text.old + gap ≤ vec_capacity text.old }
    ensures items { text.new.items ≡ text.old.items ++ replicate gap 0 }
    ensures len { vec_len text.new ≡ vec_len text.old + gap }
    ensures capacity { vec_capacity text.old ≤ vec_capacity text.new }
{
    if gap == 16 {
        text.extend_from_slice(&[0; 16]).unwrap();
        return;
    }
    for _ in 0..gap / 16 {
        text.extend_from_slice(&[0; 16]).unwrap();
    }
    append_zeros(text, gap % 16);
}

/// Appends so many zero bytes one by one.
fn append_zeros(text: &mut Vec<u8>, count: u32)
    requires { vec_len text.old + count ≤ vec_capacity text.old }
    ensures items { text.new.items ≡ text.old.items ++ replicate count 0 }
    ensures len { vec_len text.new ≡ vec_len text.old + count }
    ensures capacity { vec_capacity text.new ≡ vec_capacity text.old }
{
    for _ in 0..count {
        text.push_reserved(0);
    }
}

/// Writes headers into the gaps of a text.
fn fill<H: Headers>(text: &mut [u8], spans: &[Span], headers: &H)
    requires within { All (IsWithin text.old) spans.now }
    requires spaced { spans.now ≡ spans_from (H.sizes_of headers.now).first (H.sizes_of headers.now).before_each (map (at_span text.old) spans.now) }
    requires end { end_of (H.sizes_of headers.now).first spans.now ≡ length text.old }
    requires few { length spans.now < 2 ^ 32 }
    ensures { text.new ≡ H.first headers.now ++ laid_from (H.before headers.now) 0 (map (at_span text.old) spans.now) }
{
    let sizes = headers.sizes();
    headers.write_first(&mut text[..sizes.first as usize]);
    for number in 0..spans.len() as u32 {
        let span = spans[number as usize];
        let start = span.start - sizes.before_each as usize;
        headers.write_before(number, span.len, &mut text[start..span.start]);
    }
}

/// A list's text without the headers that may have been laid into its gaps.
fn cleared(text: Vec<u8>, spans: &[Span], gaps: Option<Gaps>, laid: bool) -> Vec<u8>
    requires spans { AreSpans (first_gap gaps) text.items spans.now }
    requires gaps { HaveGaps gaps spans.now }
    requires text { HasText laid gaps (map (at_span text.items) spans.now) text.items }
    requires few { length spans.now < 2 ^ 32 }
    ensures packets { map (at_span result.items) spans.now ≡ map (at_span text.items) spans.now }
    ensures len { length result.items ≡ length text.items }
    ensures text { HasText false gaps (map (at_span text.items) spans.now) result.items }
{
    let mut text = text;
    match gaps {
        Some(sizes) if laid => fill(text.as_mut_slice(), spans, &Zeros { sizes }),
        _ => {}
    }
    text
}

/// Where the last span ends, and 0 where there is none.
fn end(spans: &[Span]) -> usize
    requires { end_of 0 spans.now < 2 ^ 64 }
    ensures { result ≡ end_of 0 spans.now }
{
    if spans.is_empty() {
        return 0;
    }
    let last = spans[spans.len() - 1];
    last.start + last.len
}

/// The bytes of all spans.
fn total(spans: &[Span]) -> u64
    requires { sum_by len_of spans.now < 2 ^ 64 }
    ensures { result ≡ sum_by len_of spans.now }
{
    let mut total = 0;
    for span in spans {
        total += span.len as u64;
    }
    total
}

/// Threads may share a list, also one whose text other lists have, and may be sent it.
#[allow(dead_code)]
fn is_shared(list: &PacketList) {
    needs_sync(list);
    needs_send(list);
}

fn needs_sync<T: Sync>(_shared: &T) {}

fn needs_send<T: Send>(_sent: &T) {}
