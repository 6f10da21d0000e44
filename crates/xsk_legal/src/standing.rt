//! Whether a call is legal after the caller's own earlier calls and replies. It is told nothing but the caller's own
//! calls and replies, and is exact for each list of these that it stands for (`specs/Standing`): nothing here may look
//! at the object.
ghost use Rattle.std.specs.Prelude.{◌≡◌, ◌+◌, ◌^◌, ◌<◌, ◌≤◌, ◌↔◌, ℕ, List, [], ◌∷◌, ◌++◌, length, take, All, IfOk, IfSome, IsTrue, Some};
ghost use Rattle.std.specs.List.{slice_index_or};
ghost use Rattle.std.specs.Option.{option_map};
ghost use Rattle.xsk_umem.specs.Frame.{Frame as Body};
ghost use Rattle.xsk_umem.specs.Geometry.{IsGeometry};
ghost use Rattle.xsk_umem.specs.Limits.{most_items};
ghost use Rattle.xsk_umem.specs.declared.batch.Item.{Item as AnItem};
ghost use Rattle.xsk_model.specs.Asks.{joined_call};
ghost use Rattle.xsk_model.specs.Config.{IsConfig, HasRing, callers_of};
ghost use Rattle.xsk_model.specs.Numbers.{times, numbers};
ghost use Rattle.xsk_model.specs.Rings.{place, places_of, port_of, queue_of, producer};
ghost use Rattle.xsk_model.specs.Entry.{Told, with_told};
ghost use Rattle.xsk_model.specs.Legal.{IsLegal, IsItemOn, IsPlainOn};
ghost use Rattle.xsk_model.specs.Marks.{IsMarkOwner};
ghost use Rattle.xsk_model.specs.History.{MayGive, Fits};
ghost use Rattle.xsk_model.specs.declared.call.Ring.TheVariants.{Comp, Rx, Tx};
ghost use Rattle.xsk_model.specs.declared.call.Call.TheVariants.{Reserve, Submit, Peek, Release, Swap, Look};
ghost use Rattle.xsk_model.specs.declared.call.Reply.TheVariants.{Granted, Submitted, Items, Released, Old};
ghost use Rattle.xsk_legal.specs.Standing.{StandsFor, IsPlacing, IsFetching, IsFresh, places_at, no_queue, with_places};
ghost use Rattle.xsk_legal.specs.ItemNotes.{one_filled, one_held, sources_with, queues_with, queues_without, HasRoom, HasGiven, IsFor, CanGrant, CanRelease, CanFetch, CanPlace};
ghost use Rattle.xsk_legal.specs.Setting.{MaySet, IsTime, IsOpen, AreCleared};
ghost use Rattle.xsk_legal.specs.Pieces.{MaySubmit, MayPlace, has, item_source, IsFill, IsPiece, ArePieces, GivesBack};

use crate::marked::Marked;
use crate::queue::Queue;
use crate::roles::{consumes, is_closing, may_be, owns, produces, seat_of};
use std::alloc::Global;
use std::marker::Model;
use xsk_model::placement::{has_mark, has_ring, ring_place, ring_places};
use xsk_model::{Ask, Config, Mark, Ring};
use xsk_umem::{Batch, Geometry, Item, MOST_ITEMS, OutOfMemory, XDP_PKT_CONTD, XdpDesc};

/// What is reserved and not yet filled of a ring, and what is peeked and not yet released.
#[derive(Clone, Copy, Debug, Default)]
pub(crate) struct Places {
    pub(crate) room: u32,
    pub(crate) held: u32,
}

/// What the legality of a caller's next call needs of its earlier calls and replies.
#[derive(Debug, Drop)]
pub struct Standing {
    who: u32,
    /// By place.
    places: Vec<Places>,
    /// For each frame the ring from which the caller last got it, if the caller has it.
    sources: Vec<Option<Ring>>,
    /// By socket; only the TX rings that the caller consumes have room.
    queues: Vec<Queue>,
    marked: Marked,
}

impl Model for Standing {
    ghost use Rattle.xsk_legal.specs.Noted.{Noted};

    ghost Value = { Noted };

    ghost view = { λ s. record { who = s.who; places = s.places.items; sources = s.sources.items; queues = s.queues.items; marked = s.marked } };
}

impl Standing {
    /// A standing of a caller that has made no call. It takes all the memory that it will need; want of it is the one error.
    pub fn new(alloc: Global, config: &Config, who: u32) -> Result<Standing, OutOfMemory>
        requires { who < callers_of config.now }
        ensures stands { IfOk result (λ standing. StandsFor config.now standing []) }
        ensures caller { IfOk result (λ standing. standing.who ≡ who) }
    {
        let frames = config.geometry().frames();
        let places = vec![in alloc; Places::default(); ring_places(config)]?;
        let sources = vec![in alloc; None; frames as usize]?;
        let queues = queues_of(alloc, config, who)?;
        Ok(Standing {
            who,
            places,
            sources,
            queues,
            marked: Marked::new(),
        })
    }

    /// Whether the call, whose items are in the batch, is legal after the calls and replies that were noted. It is exact
    /// where each of them was legal.
    pub fn allows(&self, config: &Config, ask: Ask, items: &Batch) -> bool
        requires { IsFor config.now self.now }
        ensures { (mine : List Told) → StandsFor config.now self.now mine → (IsTrue result ↔ IsLegal config.now mine self.now.who (joined_call ask items.now)) }
    {
        match ask {
            Ask::Reserve(ring, n) => is_few(n) && self.feeds(config, ring),
            Ask::Submit(ring) => self.feeds(config, ring) && self.may_submit(config, ring, items),
            Ask::Peek(ring, n) => is_few(n) && consumes(config, self.who, ring),
            Ask::Release(ring, n) => {
                is_few(n)
                    && consumes(config, self.who, ring)
                    && n <= self.places[ring_place(config, ring)].held
            }
            Ask::Swap(mark, value) => self.may_set(config, mark, value),
            Ask::Look(mark) => has_mark(config, mark),
        }
    }

    /// Notes a Reserve of `n` places that was granted.
    pub fn granted(&mut self, config: &Config, ring: Ring, n: u32)
        requires { CanGrant config.now self.old ring n }
        ensures kind { IsFor config.now self.new }
        ensures caller { self.new.who ≡ self.old.who }
        ensures stands { (mine : List Told) → StandsFor config.now self.old mine → MayGive config.now mine self.old.who (Reserve ring n) Granted
            → StandsFor config.now self.new (with_told mine (Reserve ring n) Granted) }
    {
        let place = ring_place(config, ring);
        let Places { room, held } = self.places_at(place);
        let room = room + n;
        self.put_places(place, Places { room, held });
    }

    /// Notes an item of a Submit. Its items are noted one by one, in their order.
    pub fn placed(&mut self, config: &Config, ring: Ring, item: &Item)
        requires { CanPlace config.now self.old ring item.now }
        ensures kind { IsFor config.now self.new }
        ensures caller { self.new.who ≡ self.old.who }
        ensures goes_on { (mine : List Told) (done later : List AnItem) → IsPlacing config.now self.old mine ring done
            → IsLegal config.now mine self.old.who (Submit ring (done ++ item.now ∷ later)) → IsPlacing config.now self.new mine ring (done ++ item.now ∷ []) }
        ensures ends { (mine : List Told) (done : List AnItem) → IsPlacing config.now self.old mine ring done
            → IsLegal config.now mine self.old.who (Submit ring (done ++ item.now ∷ [])) → StandsFor config.now self.new (with_told mine (Submit ring (done ++ item.now ∷ [])) Submitted) }
    {
        self.fill(config, ring);
        let source = self.source(item);
        self.note_source(item, None);
        self.give_back(ring, source);
    }

    /// Notes an item of a Peek's reply. Its items are noted one by one, in their order.
    pub fn fetched(&mut self, config: &Config, ring: Ring, item: &Item)
        requires { CanFetch config.now self.old ring item.now }
        ensures kind { IsFor config.now self.new }
        ensures caller { self.new.who ≡ self.old.who }
        ensures goes_on { (mine : List Told) (n : ℕ) (done later : List AnItem) → IsFetching config.now self.old mine ring done
            → MayGive config.now mine self.old.who (Peek ring n) (Items (done ++ item.now ∷ later)) → IsFetching config.now self.new mine ring (done ++ item.now ∷ []) }
        ensures ends { (mine : List Told) (n : ℕ) (done : List AnItem) → IsFetching config.now self.old mine ring done
            → MayGive config.now mine self.old.who (Peek ring n) (Items (done ++ item.now ∷ []))
            → StandsFor config.now self.new (with_told mine (Peek ring n) (Items (done ++ item.now ∷ []))) }
    {
        self.hold(config, ring);
        self.note_source(item, Some(ring));
        self.keep_desc(config, ring, item.desc);
    }

    /// Notes a Release of `n` items.
    pub fn released(&mut self, config: &Config, ring: Ring, n: u32)
        requires { CanRelease config.now self.old ring n }
        ensures kind { IsFor config.now self.new }
        ensures caller { self.new.who ≡ self.old.who }
        ensures stands { (mine : List Told) → StandsFor config.now self.old mine → IsLegal config.now mine self.old.who (Release ring n)
            → StandsFor config.now self.new (with_told mine (Release ring n) Released) }
    {
        let place = ring_place(config, ring);
        let Places { room, held } = self.places_at(place);
        let held = held - n;
        self.put_places(place, Places { room, held });
    }

    /// Notes a Swap of a mark to a number, whatever it was before.
    pub fn swapped(&mut self, config: &Config, mark: Mark, value: u64)
        requires { IsFor config.now self.old }
        ensures kind { IsFor config.now self.new }
        ensures caller { self.new.who ≡ self.old.who }
        ensures stands { (mine : List Told) (old : ℕ) → StandsFor config.now self.old mine → IsLegal config.now mine self.old.who (Swap mark value)
            → Fits config.now mine (Swap mark value) (Old old) → StandsFor config.now self.new (with_told mine (Swap mark value) (Old old)) }
    {
        self.marked.swapped(config, mark, value);
    }

    /// Notes a Look at a mark, which was answered by a number.
    pub fn looked(&mut self, config: &Config, mark: Mark, old: u64)
        requires { IsFor config.now self.old }
        ensures kind { IsFor config.now self.new }
        ensures caller { self.new.who ≡ self.old.who }
        ensures stands { (mine : List Told) → StandsFor config.now self.old mine → IsLegal config.now mine self.old.who (Look mark)
            → Fits config.now mine (Look mark) (Old old) → StandsFor config.now self.new (with_told mine (Look mark) (Old old)) }
    {
        self.marked.looked(config, mark, old);
    }

    /// The caller.
    pub(crate) fn who(&self) -> u32
        ensures { result ≡ self.now.who }
    {
        self.who
    }

    /// What is kept of the ring of a place.
    pub(crate) fn places_at(&self, place: usize) -> Places
        requires { place < length self.now.places }
        ensures { result ≡ places_at self.now place }
    {
        self.places[place]
    }

    /// Keeps something else of the ring of a place.
    fn put_places(&mut self, place: usize, places: Places)
        requires { place < length self.old.places }
        ensures { self.new ≡ with_places self.old place places }
    {
        self.places[place] = places;
    }

    /// Notes that a reserved place of the ring is filled.
    fn fill(&mut self, config: &Config, ring: Ring)
        requires ring { HasRing config.now ring }
        requires rings { length self.old.places ≡ places_of config.now }
        requires some { 1 ≤ (places_at self.old (place config.now ring)).room }
        ensures { self.new ≡ record self.old { places = one_filled self.old (place config.now ring) } }
    {
        self.places[ring_place(config, ring)].room -= 1;
    }

    /// Notes that one more item of the ring is held.
    fn hold(&mut self, config: &Config, ring: Ring)
        requires ring { HasRing config.now ring }
        requires rings { length self.old.places ≡ places_of config.now }
        requires few { (places_at self.old (place config.now ring)).held < 2048 }
        ensures { self.new ≡ record self.old { places = one_held self.old (place config.now ring) } }
    {
        self.places[ring_place(config, ring)].held += 1;
    }

    /// Notes from which ring the caller has the item's frame now, if it has it.
    fn note_source(&mut self, item: &Item, source: Option<Ring>)
        requires { IfSome item.now.frame (λ (frame : Body). frame.number < length self.old.sources) }
        ensures { self.new ≡ record self.old { sources = sources_with self.old.sources item.now.frame source } }
    {
        if let Some(frame) = &item.frame {
            self.sources[frame.number() as usize] = source;
        }
    }

    /// Keeps a descriptor that was fetched, if it came from TX.
    fn keep_desc(&mut self, config: &Config, ring: Ring, desc: XdpDesc)
        requires { HasRoom config.now.geometry config.now.sg self.old ring desc }
        ensures { self.new ≡ record self.old { queues = queues_with config.now.geometry config.now.sg self.old ring desc } }
    {
        if let Ring::Tx(socket) = ring {
            self.queues[socket as usize].push(config.geometry(), config.sg(), desc);
        }
    }

    /// Forgets the first descriptor of the TX ring from which a completed frame came.
    fn give_back(&mut self, ring: Ring, source: Option<Ring>)
        requires { HasGiven self.old ring source }
        ensures { self.new ≡ record self.old { queues = queues_without self.old ring source } }
    {
        if let (Ring::Comp(_), Some(Ring::Tx(socket))) = (ring, source) {
            self.queues[socket as usize].pop_front();
        }
    }

    /// Whether the items may be submitted on the ring, which exists and is the caller's.
    fn may_submit(&self, config: &Config, ring: Ring, items: &Batch) -> bool
        requires ring { HasRing config.now ring }
        requires rings { length self.now.places ≡ places_of config.now }
        requires queues { length self.now.queues ≡ length config.now.sockets }
        ensures value { IsTrue result ↔ MaySubmit config.now self.now ring items.now }
        ensures lawful { IsGeometry config.now.geometry }
    {
        let geometry = config.geometry();
        let count = items.len();
        if count == 0 || count > self.places[ring_place(config, ring)].room {
            return false;
        }
        if !are_items(geometry, ring, items) || !self.has_frames(items) {
            return false;
        }
        self.may_place(config, ring, items)
    }

    /// Whether the items are packets that may stand in the ring.
    pub(crate) fn may_place(&self, config: &Config, ring: Ring, items: &Batch) -> bool
        requires some { 1 ≤ length items.now }
        requires ring { HasRing config.now ring }
        requires queues { length self.now.queues ≡ length config.now.sockets }
        ensures { IsTrue result ↔ MayPlace config.now self.now ring items.now }
    {
        match ring {
            Ring::Fill(_) | Ring::Tx(_) => true,
            Ring::Comp(pair) => self.are_completed(config, pair, items),
            Ring::Rx(_) => self.are_from_fill(items) && are_layouts(config, items),
        }
    }

    /// Whether the ring exists, the caller reserves and submits on it, and it hasn't ended it.
    fn feeds(&self, config: &Config, ring: Ring) -> bool
        ensures { IsTrue result ↔ (HasRing config.now ring × (self.now.who ≡ producer config.now ring) × IsOpen config.now self.now.marked ring) }
    {
        produces(config, self.who, ring) && self.is_open(config, ring)
    }

    pub(crate) fn is_open(&self, config: &Config, ring: Ring) -> bool
        ensures { IsTrue result ↔ IsOpen config.now self.now.marked ring }
    {
        match ring {
            Ring::Fill(_) | Ring::Comp(_) => true,
            Ring::Rx(socket) => !self.marked.acked || !is_closing(config, socket),
            Ring::Tx(socket) => !self.marked.closed || !is_closing(config, socket),
        }
    }

    /// Whether the mark exists and is the caller's, may have the number, and may be set to it now.
    fn may_set(&self, config: &Config, mark: Mark, value: u64) -> bool
        requires { length self.now.places ≡ places_of config.now }
        ensures value { IsTrue result ↔ MaySet config.now self.now mark value }
        ensures lawful { IsConfig config.now }
    {
        // For the proof: it is a configuration (IsConfig).
        let _ports = config.ports();
        owns(config, self.who, mark)
            && may_be(config, mark, value)
            && self.is_time(config, mark, value)
    }

    /// Whether the caller, whose mark it is, may set it to the number now.
    pub(crate) fn is_time(&self, config: &Config, mark: Mark, value: u64) -> bool
        requires lawful { IsConfig config.now }
        requires rings { length self.now.places ≡ places_of config.now }
        requires owner { IsMarkOwner config.now self.now.who mark }
        ensures { IsTrue result ↔ IsTime config.now self.now mark value }
    {
        match mark {
            Mark::NeedFill(_)
            | Mark::NeedTx(_)
            | Mark::Kick(_)
            | Mark::RxDone(_)
            | Mark::Gone(_)
            | Mark::TxDone(_) => true,
            Mark::Cell(_, _) => value == 0,
            Mark::Closing(socket) => value == 1 && self.has_cleared(config, socket),
            Mark::Acked(socket) => {
                value == 1 && self.marked.seen && self.has_no_room(config, socket)
            }
            Mark::Bounced(_) => value > 0 && value - 1 == self.marked.bounced,
        }
    }

    /// Whether the caller lowered each cell of the socket's port that held the socket to close.
    fn has_cleared(&self, config: &Config, socket: u32) -> bool
        requires { HasRing config.now (Rx socket) }
        ensures { IsTrue result ↔ AreCleared config.now self.now.marked (port_of config.now (Rx socket)) }
    {
        let (port, _) = seat_of(config, Ring::Rx(socket));
        self.marked.are_cleared(config, port)
    }

    /// Whether no place of the RX ring is reserved.
    fn has_no_room(&self, config: &Config, socket: u32) -> bool
        requires ring { HasRing config.now (Rx socket) }
        requires rings { length self.now.places ≡ places_of config.now }
        ensures { IsTrue result ↔ ((places_at self.now (place config.now (Rx socket))).room ≡ 0) }
    {
        self.places[ring_place(config, Ring::Rx(socket))].room == 0
    }

    /// The ring from which the caller last got the item's frame, if it has it.
    fn source(&self, item: &Item) -> Option<Ring>
        ensures { result ≡ item_source self.now.sources item.now }
    {
        let frame = item.frame.as_ref()?;
        *self.sources.get(frame.number() as usize)?
    }

    /// Whether the caller has the items' frames, each but once.
    pub(crate) fn has_frames(&self, items: &Batch) -> bool
        ensures { IsTrue result ↔ ((n : ℕ) → times n (numbers items.now) ≤ has self.now.sources n) }
    {
        for i in 0..items.len() {
            if let Some(frame) = number_of(items.item(i)) {
                if !self.has(frame) || stands_before(items, i, frame) {
                    return false;
                }
            }
        }
        true
    }

    /// Whether the caller has a frame.
    pub(crate) fn has(&self, frame: u32) -> bool
        ensures { IsTrue result ↔ (has self.now.sources frame ≡ 1) }
    {
        match self.sources.get(frame as usize) {
            Some(source) => source.is_some(),
            None => false,
        }
    }

    /// Whether the items' frames came from FILL.
    fn are_from_fill(&self, items: &Batch) -> bool
        ensures { IsTrue result ↔ All (λ (item : AnItem). IsFill (item_source self.now.sources item)) items.now }
    {
        for i in 0..items.len() {
            if !self.is_from_fill(items.item(i)) {
                return false;
            }
        }
        true
    }

    /// Whether the caller has the item's frame and last got it from FILL.
    fn is_from_fill(&self, item: &Item) -> bool
        ensures { IsTrue result ↔ IsFill (item_source self.now.sources item.now) }
    {
        match self.source(item) {
            Some(Ring::Fill(_)) => true,
            _ => false,
        }
    }

    /// Whether the items give back the next packet of a TX ring of the pair's queue.
    fn are_completed(&self, config: &Config, pair: u32, items: &Batch) -> bool
        requires some { 1 ≤ length items.now }
        requires pair { HasRing config.now (Comp pair) }
        requires queues { length self.now.queues ≡ length config.now.sockets }
        ensures { IsTrue result ↔ GivesBack config.now self.now pair items.now }
    {
        let Some(Ring::Tx(socket)) = self.source(items.item(0)) else {
            return false;
        };
        has_ring(config, Ring::Tx(socket))
            && is_on_queue(config, socket, pair)
            && self.queues[socket as usize].is_packet(items)
    }
}

/// The empty queues of all TX rings.
fn queues_of(alloc: Global, config: &Config, who: u32) -> Result<Vec<Queue>, OutOfMemory>
    ensures length { IfOk result (λ queues. length queues.items ≡ length config.now.sockets) }
    ensures each { IfOk result (λ queues. (s : ℕ) → IsFresh config.now who s (slice_index_or queues.items s no_queue)) }
{
    let sockets = config.sockets().len();
    let mut queues = Vec::with_capacity(alloc, sockets)?;
    for socket in 0..sockets as u32 {
        queues.push(queue_of(alloc, config, who, socket)?)?;
    }
    Ok(queues)
}

/// The empty queue of a TX ring, with room for all frames where the caller consumes it.
fn queue_of(alloc: Global, config: &Config, who: u32, socket: u32) -> Result<Queue, OutOfMemory>
    ensures { IfOk result (λ queue. IsFresh config.now who socket queue) }
{
    let limit = if consumes(config, who, Ring::Tx(socket)) {
        config.geometry().frames()
    } else {
        0
    };
    Queue::new(alloc, limit)
}

/// Whether so many may be moved at once.
pub(crate) fn is_few(n: u32) -> bool
    ensures { IsTrue result ↔ ((1 ≤ n) × (n ≤ 32)) }
{
    1 <= n && n <= MOST_ITEMS
}

/// Whether a socket is bound to the queue of a pair.
fn is_on_queue(config: &Config, socket: u32, pair: u32) -> bool
    requires socket { HasRing config.now (Tx socket) }
    requires pair { HasRing config.now (Comp pair) }
    ensures { IsTrue result ↔ ((port_of config.now (Tx socket) ≡ port_of config.now (Comp pair)) × (queue_of config.now (Tx socket) ≡ queue_of config.now (Comp pair))) }
{
    let socket = &config.sockets()[socket as usize];
    let pair = &config.pairs()[pair as usize];
    socket.port == pair.port && socket.queue == pair.queue
}

/// Whether a frame is that of an item before item `i`.
fn stands_before(items: &Batch, i: u32, frame: u32) -> bool
    requires { i ≤ length items.now }
    ensures { IsTrue result ↔ (1 ≤ times frame (numbers (take i items.now))) }
{
    for k in 0..i {
        if number_of(items.item(k)) == Some(frame) {
            return true;
        }
    }
    false
}

/// The number of the item's frame, if it has one.
fn number_of(item: &Item) -> Option<u32>
    ensures { result ≡ option_map (λ (frame : Body). frame.number) item.now.frame }
{
    item.frame.as_ref().map(|frame| frame.number())
}

/// Whether each item may stand in the ring.
pub(crate) fn are_items(geometry: &Geometry, ring: Ring, items: &Batch) -> bool
    ensures { IsTrue result ↔ All (IsItemOn geometry.now ring) items.now }
{
    for i in 0..items.len() {
        if !is_item(geometry, ring, items.item(i)) {
            return false;
        }
    }
    true
}

/// Whether the item has a frame exactly where its address has one, and then that one, whole; and on FILL and
/// COMPLETION an address alone.
fn is_item(geometry: &Geometry, ring: Ring, item: &Item) -> bool
    ensures { IsTrue result ↔ IsItemOn geometry.now ring item.now }
{
    let desc = item.desc;
    number_of(item) == geometry.frame_of(desc.addr)
        && is_whole(geometry, item)
        && is_plain(ring, desc)
}

/// Whether the item's frame, if it has one, has all bytes of a chunk.
fn is_whole(geometry: &Geometry, item: &Item) -> bool
    ensures { IsTrue result ↔ IfSome item.now.frame (λ (frame : Body). length frame.bytes ≡ geometry.now.chunk) }
{
    match &item.frame {
        Some(frame) => frame.bytes().len() == geometry.chunk() as usize,
        None => true,
    }
}

/// Whether the descriptor may stand in the ring: FILL and COMPLETION pass on addresses alone.
fn is_plain(ring: Ring, desc: XdpDesc) -> bool
    ensures plain { IsTrue result ↔ IsPlainOn ring desc }
    ensures numbers { (desc.addr < 2 ^ 64) × (desc.len < 2 ^ 32) × (desc.options < 2 ^ 32) }
{
    match ring {
        Ring::Fill(_) | Ring::Comp(_) => desc.len == 0 && desc.options == 0,
        Ring::Rx(_) | Ring::Tx(_) => true,
    }
}

/// Whether the items are whole layouts.
fn are_layouts(config: &Config, items: &Batch) -> bool
    ensures { IsTrue result ↔ ArePieces config.now.geometry config.now.sg items.now }
{
    let count = items.len();
    for i in 0..count {
        if !is_piece(config, items.item(i), i + 1 == count) {
            return false;
        }
    }
    true
}

/// Whether the item names the data of its frame, all that the frame holds or the end of a packet; the last of the
/// items is an end.
fn is_piece(config: &Config, item: &Item, last: bool) -> bool
    ensures { IsTrue result ↔ IsPiece config.now.geometry config.now.sg last item.now }
{
    let geometry = config.geometry();
    let payload = geometry.payload();
    let Some(frame) = &item.frame else {
        return false;
    };
    if frame.number() >= geometry.frames() || item.desc.addr != geometry.data_of(frame.number()) {
        return false;
    }
    if item.desc.options == XDP_PKT_CONTD {
        config.sg() && !last && item.desc.len == payload
    } else {
        item.desc.options == 0 && 1 <= item.desc.len && item.desc.len <= payload
    }
}
