//! Words of a line: callers, rings, marks and items, as a journal has them.
use crate::line::{Fault, cut, long_in, number_in};
use xsk_model::{Mark, Ring};
use xsk_umem::XdpDesc;

/// Who makes a call.
#[derive(Clone, Copy)]
pub(crate) enum Who {
    Driver(u32),
    App(u32),
}

/// The frame that goes with an item.
#[derive(Clone, Copy)]
pub(crate) enum Body {
    /// The one in which the address lies, if it is out of all rings.
    Addressed,
    Number(u32),
    Without,
}

/// An item of a Submit.
#[derive(Clone, Copy)]
pub(crate) struct Thing {
    pub(crate) body: Body,
    pub(crate) desc: XdpDesc,
}

/// A call without its items.
#[derive(Clone, Copy)]
pub(crate) enum Move {
    Reserve(Ring, u32),
    Submit(Ring),
    Peek(Ring, u32),
    Release(Ring, u32),
    Swap(Mark, u64),
    Look(Mark),
}

/// What a call is on.
#[derive(Clone, Copy)]
pub(crate) enum Place {
    Ring(Ring),
    Mark(Mark),
}

/// `d0` is the first driver, and `a0` the first application.
pub(crate) fn read_who(word: &str) -> Result<Who, Fault> {
    let (before, driver) = cut(word, "d");
    if before.is_empty() {
        return Ok(Who::Driver(number_in(driver)?));
    }
    let (before, app) = cut(word, "a");
    if !before.is_empty() {
        return Err(Fault::BadLine);
    }
    Ok(Who::App(number_in(app)?))
}

/// `fill.0`, `need.tx.1` or `cell.1.0`.
pub(crate) fn read_place(word: &str) -> Result<Place, Fault> {
    let (kind, rest) = cut(word, ".");
    match kind {
        "cell" => cell_of(rest),
        "need" => need_of(rest),
        _ => place_of(kind, number_in(rest)?),
    }
}

/// The ring or the mark of a kind and a number.
pub(crate) fn place_of(kind: &str, index: u32) -> Result<Place, Fault> {
    match kind {
        "fill" => Ok(Place::Ring(Ring::Fill(index))),
        "comp" => Ok(Place::Ring(Ring::Comp(index))),
        "rx" => Ok(Place::Ring(Ring::Rx(index))),
        "tx" => Ok(Place::Ring(Ring::Tx(index))),
        "needfill" => Ok(Place::Mark(Mark::NeedFill(index))),
        "needtx" => Ok(Place::Mark(Mark::NeedTx(index))),
        "kick" => Ok(Place::Mark(Mark::Kick(index))),
        "rxdone" => Ok(Place::Mark(Mark::RxDone(index))),
        "gone" => Ok(Place::Mark(Mark::Gone(index))),
        "txdone" => Ok(Place::Mark(Mark::TxDone(index))),
        "closing" => Ok(Place::Mark(Mark::Closing(index))),
        "acked" => Ok(Place::Mark(Mark::Acked(index))),
        "bounced" => Ok(Place::Mark(Mark::Bounced(index))),
        _ => Err(Fault::BadLine),
    }
}

/// The cell of a port and a place.
fn cell_of(word: &str) -> Result<Place, Fault> {
    let (port, index) = cut(word, ".");
    let port = number_in(port)?;
    Ok(Place::Mark(Mark::Cell(port, number_in(index)?)))
}

fn need_of(word: &str) -> Result<Place, Fault> {
    let (kind, index) = cut(word, ".");
    let index = number_in(index)?;
    match kind {
        "fill" => Ok(Place::Mark(Mark::NeedFill(index))),
        "tx" => Ok(Place::Mark(Mark::NeedTx(index))),
        _ => Err(Fault::BadLine),
    }
}

/// `256:60:0` is an item in the frame of its address, `3@256:60:0` one in frame 3, and `-@256:60:0` one without a frame.
pub(crate) fn read_thing(word: &str) -> Result<Thing, Fault> {
    let (body, desc) = cut(word, "@");
    if desc.is_empty() {
        return thing_of(Body::Addressed, body);
    }
    thing_of(body_of(body)?, desc)
}

fn body_of(word: &str) -> Result<Body, Fault> {
    if word == "-" {
        return Ok(Body::Without);
    }
    Ok(Body::Number(number_in(word)?))
}

fn thing_of(body: Body, desc: &str) -> Result<Thing, Fault> {
    let (addr, rest) = cut(desc, ":");
    let (len, options) = cut(rest, ":");
    let addr = long_in(addr)?;
    let len = number_in(len)?;
    let options = number_in(options)?;
    Ok(Thing {
        body,
        desc: XdpDesc { addr, len, options },
    })
}
