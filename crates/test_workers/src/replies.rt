//! Replies, in the form of the journal: `granted`, `full 3`, `submitted`, `items 0:60:0 ..`, `empty`, `released`, or what a
//! mark was.
ghost use Rattle.std.specs.Prelude.{◌<◌, length};

use crate::shelf::Shelf;
use crate::trouble::Trouble;
use crate::words::{halves, long_number, number};
use xsk_model::Reply;
use xsk_umem::{Batch, Frame, Item, XdpDesc};

/// The most items of one reply.
const MOST_ITEMS: u32 = 32;

/// The reply of a line. The frames of its items are taken from the shelf.
pub(crate) fn reply_of(line: &str, shelf: &mut Shelf) -> Result<Reply, Trouble> {
    match line {
        "granted" => Ok(Reply::Granted),
        "submitted" => Ok(Reply::Submitted),
        "empty" => Ok(Reply::Empty),
        "released" => Ok(Reply::Released),
        _ => long_reply(line, shelf),
    }
}

fn long_reply(line: &str, shelf: &mut Shelf) -> Result<Reply, Trouble> {
    let Some((word, rest)) = line.split_once(' ') else {
        return old(line);
    };
    match word {
        "full" => full(rest),
        "items" => items(rest, shelf),
        _ => Err(Trouble::BadLine),
    }
}

fn old(word: &str) -> Result<Reply, Trouble> {
    Ok(Reply::Old(long_number(word)?))
}

fn full(word: &str) -> Result<Reply, Trouble> {
    Ok(Reply::Full(number(word)?))
}

fn items(text: &str, shelf: &mut Shelf) -> Result<Reply, Trouble> {
    let mut items = Batch::new();
    push_all(&mut items, text, shelf)?;
    Ok(Reply::Items(items))
}

fn push_all(items: &mut Batch, text: &str, shelf: &mut Shelf) -> Result<(), Trouble> {
    for word in text.split_whitespace() {
        if items.len() == MOST_ITEMS {
            return Err(Trouble::BadLine);
        }
        items.push(item_of(word, shelf)?);
    }
    Ok(())
}

fn item_of(word: &str, shelf: &mut Shelf) -> Result<Item, Trouble> {
    let desc = desc_of(word)?;
    let frame = frame_at(desc.addr, shelf)?;
    Ok(Item { frame, desc })
}

fn desc_of(word: &str) -> Result<XdpDesc, Trouble> {
    let (addr, rest) = halves(word, ':')?;
    let (len, options) = halves(rest, ':')?;
    let addr = long_number(addr)?;
    let len = number(len)?;
    let options = number(options)?;
    Ok(XdpDesc { addr, len, options })
}

/// The frame that an address lies in, and none outside the UMEM.
fn frame_at(addr: u64, shelf: &mut Shelf) -> Result<Option<Frame>, Trouble> {
    match shelf.place(addr) {
        Some((number, _)) => Ok(Some(shelf.take(number)?)),
        None => Ok(None),
    }
}
