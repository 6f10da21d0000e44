//! The rings and marks of a configuration, and single calls on them. All changes of rings and marks go by this file. A
//! call changes the one that it names (`specs/Object`).
ghost use Rattle.std.specs.Prelude.{◌≡◌, vec_len};
ghost use Rattle.xsk_model.specs.Bases.{ring_bases, mark_bases};
ghost use Rattle.xsk_model.specs.Marks.{mark_places_of};
ghost use Rattle.xsk_model.specs.Sizes.{sizes_of};
ghost use Rattle.xsk_plain.specs.Stores.{sizes_in};

use crate::moving::{give_back, put_items, put_unnoted, take_items, take_unnoted};
use crate::opening::{fill_pools, open_marks, open_rings};
use crate::ring_store::{RingCounts, RingStore};
use std::alloc::Global;
use std::mem;
use xsk_log::Log;
use xsk_model::placement::{
    first_marks, first_rings, has_mark, has_ring, mark_number, ring_number,
};
use xsk_model::{Ask, Config, Mark, Ring};
use xsk_umem::{Batch, Frames, MOST_ITEMS};

/// The rings and the marks of a configuration, by place.
#[derive(Drop)]
pub(crate) struct Object {
    pub(crate) config: Config,
    pub(crate) rings: Vec<RingStore>,
    pub(crate) marks: Vec<u64>,
    /// The place of the first ring, and of the first mark, of each kind.
    first_rings: [usize; 4],
    first_marks: [usize; 10],
    ghost sizes: { sizes_in rings.items ≡ sizes_of config },
    ghost places: { vec_len marks ≡ mark_places_of config },
    ghost rings_begin: { first_rings ≡ ring_bases config },
    ghost marks_begin: { first_marks ≡ mark_bases config },
}

impl Object {
    ghost use Rattle.std.specs.Prelude.{◌≡◌, ◌+◌, ◌<◌, ◌≤◌, ◌↔◌, ℕ, List, [], ◌++◌, length, take, map, slice_get, Some, vec_len, All, IfOk, IfErr, IsOk, IsTrue};
    ghost use Rattle.std.specs.Option.{option_map};
    ghost use Rattle.xsk_umem.specs.declared.batch.Item.{Item as AnItem};
    ghost use Rattle.xsk_model.specs.Asks.{joined_call};
    ghost use Rattle.xsk_plain.specs.Counts.{counts_of, number_of};
    ghost use Rattle.std.specs.List.{slice_index_or};
    ghost use Rattle.xsk_umem.specs.Frames.{Frames as Queue};
    ghost use Rattle.xsk_model.specs.Config.{HasRing, IsLawful, size_of};
    ghost use Rattle.xsk_model.specs.Marks.{HasMark, mark_place as place_of_mark, mark_places_of};
    ghost use Rattle.xsk_model.specs.Rings.{place as place_of_ring, places_of};
    ghost use Rattle.xsk_model.specs.Object.{marks_after};
    ghost use Rattle.xsk_model.specs.Opening.{AreFrames, opening};
    ghost use Rattle.xsk_model.specs.Stored.{stored_item};
    ghost use Rattle.xsk_model.specs.declared.call.Call.TheVariants.{Reserve, Submit, Peek, Release, Swap};
    ghost use Rattle.xsk_plain.specs.Engine.{seen, part_in, CanPerform, frames_out};
    ghost use Rattle.xsk_plain.specs.Kept.{AllKept};
    ghost use Rattle.xsk_log.specs.Log.{noted_in, notes_of, entry_room, byte_room};
    ghost use Rattle.xsk_log.specs.Notes.{Notes};
    ghost use Rattle.xsk_plain.specs.Object.{ChangesRing, KeepsRings, NotesItems};
    ghost use Rattle.xsk_plain.specs.Rooms.{items_bytes};
    ghost use Rattle.xsk_plain.specs.Steps.{free_in};
    ghost use Rattle.xsk_plain.specs.Stores.{IsBlank, parts_of};

    /// The object with empty rings, and its marks as at the opening. Without memory the configuration comes back.
    pub(crate) fn new(alloc: Global, config: Config) -> Result<Object, Config>
        ensures config { IfOk result (λ object. object.config ≡ config) }
        ensures rings { IfOk result (λ object. All IsBlank object.rings.items) }
        ensures marks { IfOk result (λ object. object.marks.items ≡ (opening config []).marks) }
        ensures refused { IfErr result (λ back. back ≡ config) }
    {
        let rings = open_rings(alloc, &config);
        let marks = open_marks(alloc, &config);
        let (Ok(rings), Ok(marks)) = (rings, marks) else {
            return Err(config);
        };
        Ok(Object {
            first_rings: first_rings(&config),
            first_marks: first_marks(&config),
            config,
            rings,
            marks,
        })
    }

    /// The place of a ring, which must exist.
    #[inline(always)]
    fn ring_place(&self, ring: Ring) -> usize
        requires { HasRing self.now.config ring }
        ensures value { result ≡ place_of_ring self.now.config ring }
        ensures within { result < places_of self.now.config }
    {
        // For the proof: the configuration is lawful.
        let _sockets = self.config.sockets();
        let (kind, number) = ring_number(ring);
        self.first_rings[kind] + number
    }

    /// The place of a mark. What the mark belongs to must exist.
    #[inline(always)]
    fn mark_place(&self, mark: Mark) -> usize
        requires { HasMark self.now.config mark }
        ensures value { result ≡ place_of_mark self.now.config mark }
        ensures within { result < mark_places_of self.now.config }
    {
        // For the proof: the configuration is lawful.
        let _sockets = self.config.sockets();
        let (kind, number) = mark_number(mark);
        self.first_marks[kind] + number
    }

    /// Puts all frames into the FILL rings, pool by pool.
    pub(crate) fn fill(&mut self, home: &mut Frames)
        requires lawful { IsLawful self.old.config }
        requires blank { All IsBlank self.old.rings.items }
        requires frames { AreFrames self.old.config.geometry home.old.items }
        ensures config { self.new.config ≡ self.old.config }
        ensures marks { self.new.marks.items ≡ self.old.marks.items }
        ensures rings { parts_of self.new.rings.items ≡ map seen (opening self.old.config home.old.items).rings }
        ensures home { home.new ≡ record home.old { items = [] } }
        ensures kept { (notes : Notes) → AllKept self.old.config notes self.new.rings.items }
    {
        fill_pools(&self.config, home, self.rings.as_mut_slice());
    }

    /// Reserves so many places of a ring, or tells how many are free where they are fewer.
    pub(crate) fn reserve(&mut self, ring: Ring, count: u32) -> Result<(), u32>
        requires can { CanPerform self.old.config (parts_of self.old.rings.items) (Reserve ring count) }
        ensures changes { ChangesRing self.old self.new ring (Reserve ring count) }
        ensures kept { (notes : Notes) → AllKept self.old.config notes self.old.rings.items → AllKept self.old.config notes self.new.rings.items }
        ensures granted { IsOk result ↔ (count ≤ free_in (size_of self.old.config ring) (part_in self.old.config (parts_of self.old.rings.items) ring)) }
        ensures full { IfErr result (λ free. free ≡ free_in (size_of self.old.config ring) (part_in self.old.config (parts_of self.old.rings.items) ring)) }
    {
        let place = self.ring_place(ring);
        self.rings[place].reserve(count)
    }

    /// Moves the items into reserved places of a ring, and notes each in the log with its payload.
    #[inline(always)]
    pub(crate) fn submit(&mut self, ring: Ring, items: &mut Batch, log: &mut Log)
        requires can { CanPerform self.old.config (parts_of self.old.rings.items) (Submit ring items.old) }
        requires spare { 1 ≤ entry_room log.old }
        requires start { noted_in log.old ≡ [] }
        requires bytes { items_bytes self.old.config items.old ≤ byte_room log.old }
        requires kept { AllKept self.old.config (notes_of log.old) self.old.rings.items }
        ensures changes { ChangesRing self.old self.new ring (Submit ring items.old) }
        ensures kept { AllKept self.old.config (notes_of log.new) self.new.rings.items }
        ensures log { NotesItems log.old log.new (items_bytes self.old.config items.old) }
        ensures noted { noted_in log.new ≡ map (stored_item self.old.config.geometry self.old.config.sg) items.old }
        ensures left { items.new ≡ [] }
    {
        let place = self.ring_place(ring);
        put_items(&mut self.rings[place], log, &self.config, items);
    }

    /// Moves the items into reserved places of a ring, and notes nothing of them.
    #[inline(always)]
    pub(crate) fn submit_unnoted(&mut self, ring: Ring, items: &mut Batch)
        requires can { CanPerform self.old.config (parts_of self.old.rings.items) (Submit ring items.old) }
        ensures changes { ChangesRing self.old self.new ring (Submit ring items.old) }
        ensures left { items.new ≡ [] }
    {
        let place = self.ring_place(ring);
        put_unnoted(&mut self.rings[place], items);
    }

    /// Takes at most so many items from a ring into an empty batch, and notes each in the log.
    #[inline(always)]
    pub(crate) fn peek(&mut self, ring: Ring, count: u32, log: &mut Log, items: &mut Batch)
        requires empty { items.old ≡ [] }
        requires can { CanPerform self.old.config (parts_of self.old.rings.items) (Peek ring count) }
        requires spare { 1 ≤ entry_room log.old }
        requires start { noted_in log.old ≡ [] }
        requires kept { AllKept self.old.config (notes_of log.old) self.old.rings.items }
        ensures changes { ChangesRing self.old self.new ring (Peek ring count) }
        ensures kept { AllKept self.old.config (notes_of log.new) self.new.rings.items }
        ensures log { NotesItems log.old log.new 0 }
        ensures noted { noted_in log.new ≡ map (stored_item self.old.config.geometry self.old.config.sg) items.new }
        ensures items { items.new ≡ take count (part_in self.old.config (parts_of self.old.rings.items) ring).out }
    {
        let place = self.ring_place(ring);
        take_items(&mut self.rings[place], log, count, items);
    }

    /// Takes at most so many items from a ring into an empty batch, and notes nothing of them.
    #[inline(always)]
    pub(crate) fn peek_unnoted(&mut self, ring: Ring, count: u32, items: &mut Batch)
        requires empty { items.old ≡ [] }
        requires can { CanPerform self.old.config (parts_of self.old.rings.items) (Peek ring count) }
        ensures changes { ChangesRing self.old self.new ring (Peek ring count) }
        ensures items { items.new ≡ take count (part_in self.old.config (parts_of self.old.rings.items) ring).out }
    {
        let place = self.ring_place(ring);
        take_unnoted(&mut self.rings[place], count, items);
    }

    /// Frees the places of so many held items of a ring.
    pub(crate) fn release(&mut self, ring: Ring, count: u32)
        requires can { CanPerform self.old.config (parts_of self.old.rings.items) (Release ring count) }
        ensures changes { ChangesRing self.old self.new ring (Release ring count) }
        ensures kept { (notes : Notes) → AllKept self.old.config notes self.old.rings.items → AllKept self.old.config notes self.new.rings.items }
    {
        let place = self.ring_place(ring);
        self.rings[place].release(count);
    }

    /// Sets a mark and tells what it was.
    pub(crate) fn swap(&mut self, mark: Mark, value: u64) -> u64
        requires { HasMark self.old.config mark }
        ensures keeps { KeepsRings self.old self.new }
        ensures marks { self.new.marks.items ≡ marks_after self.old.config self.old.marks.items (Swap mark value) }
        ensures old { result ≡ slice_index_or self.old.marks.items (place_of_mark self.old.config mark) 0 }
    {
        let place = self.mark_place(mark);
        mem::replace(&mut self.marks[place], value)
    }

    /// Tells what a mark is.
    pub(crate) fn look(&self, mark: Mark) -> u64
        requires { HasMark self.now.config mark }
        ensures { result ≡ slice_index_or self.now.marks.items (place_of_mark self.now.config mark) 0 }
    {
        let place = self.mark_place(mark);
        self.marks[place]
    }

    /// Whether the call, whose items are in the batch, can be performed: its ring or mark exists, a Submit has at most as many
    /// items as places are reserved, a Peek asks for 1 to 32, and a Release for at most as many as are held.
    pub(crate) fn can_perform(&self, ask: Ask, items: &Batch) -> bool
        ensures { IsTrue result ↔ CanPerform self.now.config (parts_of self.now.rings.items) (joined_call ask items.now) }
    {
        match ask {
            Ask::Reserve(ring, _) => has_ring(&self.config, ring),
            Ask::Submit(ring) => {
                has_ring(&self.config, ring) && items.len() <= self.taken(ring).0
            }
            Ask::Peek(ring, count) => {
                has_ring(&self.config, ring) && count >= 1 && count <= MOST_ITEMS
            }
            Ask::Release(ring, count) => {
                has_ring(&self.config, ring) && count <= self.taken(ring).1
            }
            Ask::Swap(mark, _) | Ask::Look(mark) => has_mark(&self.config, mark),
        }
    }

    /// How many places of a ring are reserved, and how many are held.
    fn taken(&self, ring: Ring) -> (u32, u32)
        requires { HasRing self.now.config ring }
        ensures room { result.0 ≡ (part_in self.now.config (parts_of self.now.rings.items) ring).room }
        ensures held { result.1 ≡ (part_in self.now.config (parts_of self.now.rings.items) ring).held }
    {
        let place = self.ring_place(ring);
        self.rings[place].taken()
    }

    /// A ring in numbers.
    pub(crate) fn counts(&self, ring: Ring) -> RingCounts
        requires { HasRing self.now.config ring }
        ensures { result ≡ counts_of (size_of self.now.config ring) (part_in self.now.config (parts_of self.now.rings.items) ring) }
    {
        let place = self.ring_place(ring);
        self.rings[place].counts()
    }

    /// The number of the frame of an item that is out in a ring, counted from the front, if it has one.
    pub(crate) fn frame(&self, ring: Ring, i: u32) -> Option<u32>
        requires ring { HasRing self.now.config ring }
        requires within { i < length (part_in self.now.config (parts_of self.now.rings.items) ring).out }
        ensures { (item : AnItem) → slice_get (part_in self.now.config (parts_of self.now.rings.items) ring).out i ≡ Some item → result ≡ option_map number_of item.frame }
    {
        let place = self.ring_place(ring);
        self.rings[place].frame(i)
    }

    /// Puts the frames that stand in rings at the end of the queue, ring by ring. Those for which it has no room are
    /// dropped.
    pub(crate) fn empty_into(self, home: &mut Frames)
        ensures frames { length home.old.items + length (frames_out (parts_of self.rings.items)) ≤ home.old.limit → home.new.items ≡ home.old.items ++ frames_out (parts_of self.rings.items) }
        ensures limit { home.new.limit ≡ home.old.limit }
    {
        let Object { rings, .. } = self;
        for store in rings {
            give_back(store, home);
        }
    }
}
