//! Rings, marks, calls and descriptors as C has them, and items made of these.
ghost use Rattle.std.specs.Prelude.{◌≡◌, ◌≤◌, [], None, Some, IfSome, MatchOption, length};
ghost use Rattle.xsk_umem.specs.Limits.{most_items};
ghost use Rattle.xsk_model.specs.Asks.{HasAsked, joined_call};
ghost use Rattle.xsk_c.specs.Items.{call_in, drawn_over, item_of, items_of, left_by, ring_in, mark_in};

use crate::purse::Purse;
use xsk_model::{Ask, Mark, Ring};
use xsk_umem::{Batch, Frame, Geometry, Item, XdpDesc};

/// `struct xdp_desc`.
#[repr(C)]
#[derive(Clone, Copy, Drop)]
pub struct Desc {
    pub addr: u64,
    pub len: u32,
    pub options: u32,
}

/// A call that moves no items: the operation, the kind and number of the ring or mark, and how many places, or what to set it to.
#[repr(C)]
#[derive(Clone, Copy, Drop)]
pub struct Asked {
    pub op: u32,
    pub kind: u32,
    pub index: u32,
    pub count: u32,
    pub value: u64,
}

/// The ring of a kind and a number, if there is such a kind.
pub(crate) fn ring_of(kind: u32, index: u32) -> Option<Ring>
    ensures { result ≡ ring_in kind index }
{
    match kind {
        0 => Some(Ring::Fill(index)),
        1 => Some(Ring::Comp(index)),
        2 => Some(Ring::Rx(index)),
        3 => Some(Ring::Tx(index)),
        _ => None,
    }
}

/// The mark of a kind and a number, if there is such a kind.
pub(crate) fn mark_of(kind: u32, index: u32) -> Option<Mark>
    ensures { result ≡ mark_in kind index }
{
    match kind {
        0 => Some(Mark::NeedFill(index)),
        1 => Some(Mark::NeedTx(index)),
        2 => Some(Mark::Kick(index)),
        _ => None,
    }
}

/// The call that is asked for, if there is such an operation on such a ring or mark.
pub(crate) fn ask_of(asked: &Asked) -> Option<Ask>
    ensures call { MatchOption result (call_in asked.now ≡ None) (λ ask. call_in asked.now ≡ Some (joined_call ask [])) }
    ensures alone { IfSome result (λ ask. HasAsked ask []) }
{
    let Asked {
        op,
        kind,
        index,
        count,
        value,
    } = *asked;
    match op {
        0 => Some(Ask::Reserve(ring_of(kind, index)?, count)),
        1 => Some(Ask::Release(ring_of(kind, index)?, count)),
        2 => Some(Ask::Look(mark_of(kind, index)?)),
        3 => Some(Ask::Swap(mark_of(kind, index)?, value)),
        _ => None,
    }
}

/// Appends items of descriptors to an empty batch, each with the frame of its address, if the purse has that.
pub(crate) fn take_items(purse: &mut Purse, geometry: &Geometry, descs: &[Desc], items: &mut Batch)
    requires few { length descs.now ≤ most_items }
    requires empty { items.old ≡ [] }
    ensures items { items.new ≡ items_of geometry.now purse.old.frames.items descs.now }
    ensures left { purse.new.frames.items ≡ left_by geometry.now purse.old.frames.items descs.now }
{
    for i in 0..descs.len() {
        let desc = descs[i];
        let frame = purse.take(geometry, desc.addr);
        items.push(item_of(frame, desc));
    }
}

fn item_of(frame: Option<Frame>, desc: Desc) -> Item
    ensures { result ≡ item_of frame desc }
{
    let desc = XdpDesc {
        addr: desc.addr,
        len: desc.len,
        options: desc.options,
    };
    Item { frame, desc }
}

/// Writes the descriptors of items to where C wants them, as far as there is room.
pub(crate) fn write_descs(items: &Batch, descs: &mut [Desc])
    ensures { descs.new ≡ drawn_over descs.old items.now }
{
    let count = descs.len().min(items.len() as usize);
    for i in 0..count {
        let item = items.item(i as u32);
        descs[i] = Desc {
            addr: item.desc.addr,
            len: item.desc.len,
            options: item.desc.options,
        };
    }
}
