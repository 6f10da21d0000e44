//! xsk_umem: a packet is put into a frame of a UMEM, and the frame into a batch with its descriptor.

use anyhow::{Context, Result, ensure};
use std::alloc::Global;
use xsk_umem::{Batch, Frame, Item, RESERVED, Umem, XdpDesc};

const PACKET: [u8; 60] = [7; 60];

pub fn fill_a_frame<R: Print>(rt: &R, alloc: Global) -> Result<()> {
    let (geometry, mut frames) = Umem::register(alloc, 16_384, 2048, 0)?;
    println!(rt; "a UMEM of {} frames", frames.len())?;
    let frame = filled(frames.pop_front())?;
    let addr = geometry.data_of(frame.number());
    println!(rt; "{addr} lies in frame {:?}", geometry.frame_of(addr))?;
    hand_over(rt, alloc, frame, addr)
}

/// A frame with the packet at its data, which stands behind the reserved bytes, as there is no headroom.
fn filled(frame: Option<Frame>) -> Result<Frame> {
    let mut frame = frame.context("the UMEM has frames")?;
    ensure!(frame.bytes().len() == 2048, "a frame has a whole chunk");
    frame.fill(RESERVED, &PACKET);
    Ok(frame)
}

/// Puts the frame into a batch, and takes it out again.
fn hand_over<R: Print>(rt: &R, alloc: Global, frame: Frame, addr: u64) -> Result<()> {
    let desc = XdpDesc {
        addr,
        len: 60,
        options: 0,
    };
    let mut batch = Batch::new();
    batch.push(Item {
        frame: Some(frame),
        desc,
    });
    println!(rt; "a batch of {} items", batch.len())?;
    tell(rt, batch.pop_front())
}

fn tell<R: Print>(rt: &R, item: Option<Item>) -> Result<()> {
    let item = item.context("the batch has an item")?;
    let frame = item.frame.context("the item has a frame")?;
    let packet = frame.bytes().get(256..316).context("a whole packet")?;
    println!(rt; "frame {} holds {packet:?}", frame.number())?;
    Ok(())
}
