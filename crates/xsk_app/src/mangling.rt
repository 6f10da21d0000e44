//! What an application that changes items does to those that it submits on TX. Descriptors and items change here, and no
//! byte of a frame: which, is said in `xsk_turns/specs/Mangling`.
ghost use Rattle.std.specs.Prelude.{◌≡◌, None, Some, ◌+◌, ◌*◌, ◌<◌, ◌≤◌, [], ◌++◌, length, take, vec_len};
ghost use Rattle.xsk_umem.specs.Limits.{most_frames};
ghost use Rattle.xsk_turns.specs.Turns.{frame_in};
ghost use Rattle.xsk_turns.specs.Mangling.{change_at as change_of_item, made_of, taken_of, made_by, taken_by, mangled, frames_taken, round_of as round_of_changes};

use crate::back::Back;
use crate::machine::Machine;
use xsk_turns::Change;
use xsk_umem::{Batch, Frame, Geometry, Item};

/// What a machine puts on a TX ring.
impl<'a> Machine<'a> {
    ghost use Rattle.xsk_app.specs.declared.machine.Wait.TheVariants as wait;
    ghost use Rattle.xsk_turns.specs.AppTurns.{given_on, passed_on};
    ghost use Rattle.xsk_app.specs.Stands.{HasSameRest, kept_by};

    /// Moves the lane's pending items to the batch, by its manner.
    pub(crate) fn put_out(&mut self, lane: usize, items: &mut Batch)
        requires lane { lane < vec_len self.old.pending }
        requires at { self.old.wait ≡ wait.SubmitTx lane }
        requires empty { items.old ≡ [] }
        ensures items { items.new ≡ given_on self.old.config.now lane (kept_by self.old) }
        ensures kept { kept_by self.new ≡ passed_on self.old.config.now lane (kept_by self.old) }
        ensures rest { HasSameRest self.old self.new }
    {
        match self.manner.mangle {
            None => self.move_on(lane, items),
            Some(every) => self.mangle(lane, every, items),
        }
    }

    /// Moves the lane's pending items to the batch as they are.
    fn move_on(&mut self, lane: usize, items: &mut Batch)
        requires lane { lane < vec_len self.old.pending }
        requires at { self.old.wait ≡ wait.SubmitTx lane }
        requires plain { self.old.manner.mangle ≡ None }
        requires empty { items.old ≡ [] }
        ensures items { items.new ≡ given_on self.old.config.now lane (kept_by self.old) }
        ensures kept { kept_by self.new ≡ passed_on self.old.config.now lane (kept_by self.old) }
        ensures rest { HasSameRest self.old self.new }
    {
        let pending = &mut self.pending[lane];
        // At most 32 items are pending.
        let _count = pending.len();
        items.append(pending);
    }

    /// Moves them there as the manner changes them, and keeps the frames that are taken from them with the side that received
    /// them.
    fn mangle(&mut self, lane: usize, every: u32, items: &mut Batch)
        requires lane { lane < vec_len self.old.pending }
        requires at { self.old.wait ≡ wait.SubmitTx lane }
        requires manner { self.old.manner.mangle ≡ Some every }
        requires empty { items.old ≡ [] }
        ensures items { items.new ≡ given_on self.old.config.now lane (kept_by self.old) }
        ensures kept { kept_by self.new ≡ passed_on self.old.config.now lane (kept_by self.old) }
        ensures rest { HasSameRest self.old self.new }
    {
        let pending = &mut self.pending[lane];
        let back = &mut self.backs[self.ways[lane].side];
        let count = u64::from(pending.len());
        mangle(
            self.config.geometry(),
            every,
            self.number,
            pending,
            back,
            items,
        );
        self.number = (self.number + count) % round_of(every);
    }
}

/// Moves the pending items, of which the first has this number and one of so many is changed, to the batch. The frames that
/// are taken from them are kept behind the others that go back.
pub(crate) fn mangle(
    geometry: &Geometry,
    every: u32,
    number: u64,
    pending: &mut Batch,
    back: &mut Back,
    items: &mut Batch,
)
    requires number { number < 1099511627776 }
    requires few { length pending.old ≤ 32 }
    requires empty { items.old ≡ [] }
    ensures items { items.new ≡ mangled geometry.now every number pending.old }
    ensures pending { pending.new ≡ [] }
    ensures back { back.new ≡ take most_frames (back.old ++ frames_taken every number pending.old) }
{
    // No more stand there than a UMEM may have.
    let _kept = back.len();
    let mut number = number;
    while let Some(mut item) = pending.pop_front() {
        change(geometry, every, number, &mut item, back);
        items.push(item);
        number += 1;
    }
}

/// Changes the item of a number, where it is one of those that are changed, and keeps the frame that is taken from it.
fn change(geometry: &Geometry, every: u32, number: u64, item: &mut Item, back: &mut Back)
    ensures item { item.new ≡ made_by geometry.now (change_of_item every number) item.old }
    ensures back { back.new ≡ take most_frames (back.old ++ taken_by (change_of_item every number) item.old) }
{
    // No more stand there than a UMEM may have.
    let _kept = back.len();
    if let Some(change) = change_at(every, number) {
        back.add(apply(change, geometry, item));
    }
}

/// The items after which the changes are the same again.
pub(crate) fn round_of(every: u32) -> u64
    ensures value { result ≡ round_of_changes every }
    ensures few { result ≤ 21474836475 }
    ensures some { 1 ≤ result }
{
    u64::max(1, 5 * u64::from(every))
}

/// The change of the item of a number, where one of so many is changed.
fn change_at(every: u32, number: u64) -> Option<Change>
    ensures { result ≡ change_of_item every number }
{
    if every == 0 {
        return Some(Change::GoesOn);
    }
    let every = u64::from(every);
    if number % every != every - 1 {
        return None;
    }
    Some(match number / every % 5 {
        0 => Change::NoBytes,
        1 => Change::WholeChunk,
        2 => Change::UnknownOption,
        3 => Change::Outside,
        _ => Change::GoesOn,
    })
}

/// Changes an item, and gives the frame that is taken from it.
fn apply(change: Change, geometry: &Geometry, item: &mut Item) -> Option<Frame>
    ensures item { item.new ≡ made_of geometry.now change item.old }
    ensures taken { frame_in result ≡ taken_of change item.old }
{
    match change {
        Change::NoBytes => item.desc.len = 0,
        Change::WholeChunk => item.desc.len = geometry.chunk(),
        Change::UnknownOption => item.desc.options = 2,
        Change::Outside => {
            let area = u64::from(geometry.frames()) * u64::from(geometry.chunk());
            item.desc.addr = u64::saturating_add(area, item.desc.addr);
            return item.frame.take();
        }
        Change::GoesOn => item.desc.options = 1,
    }
    None
}
