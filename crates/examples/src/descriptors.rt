//! xsk_desc: descriptors are tried, and those of one packet are gathered.

use anyhow::Result;
use std::alloc::Global;
use xsk_desc::{Gather, Gathered, fragments, validate};
use xsk_umem::{Geometry, Item, Umem, XDP_PKT_CONTD, XdpDesc};

pub fn gather_a_packet<R: Print>(rt: &R, alloc: Global) -> Result<()> {
    let (geometry, _frames) = Umem::register(alloc, 16_384, 4096, 0)?;
    let first = XdpDesc {
        addr: 256,
        len: 3_840,
        options: XDP_PKT_CONTD,
    };
    let last = XdpDesc {
        addr: 4_352,
        len: 1,
        options: 0,
    };
    println!(rt; "{} pieces", fragments(3_841, geometry.payload()))?;
    println!(rt; "with XDP_USE_SG: {:?}", validate(first, &geometry, true))?;
    println!(rt; "without: {:?}", validate(first, &geometry, false))?;
    let mut gather = Gather::new(alloc, true);
    tell(rt, push(&mut gather, &geometry, first))?;
    tell(rt, push(&mut gather, &geometry, last))
}

/// Pushes a descriptor without its frame.
fn push(gather: &mut Gather, geometry: &Geometry, desc: XdpDesc) -> Gathered {
    gather.push(geometry, Item { frame: None, desc })
}

fn tell<R: Print>(rt: &R, gathered: Gathered) -> Result<()> {
    match gathered {
        Gathered::More => println!(rt; "the packet goes on")?,
        Gathered::Whole(items) => println!(rt; "a packet of {} items", items.len())?,
        Gathered::Bad(items) => println!(rt; "{} bad items", items.len())?,
    }
    Ok(())
}
