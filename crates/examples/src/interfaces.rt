//! xsk_gen and xsk_pcapng: packets are made of a number; and one file of two interfaces is written of a list for each, and read.

use anyhow::Result;
use std::alloc::Global;
use xsk_gen::generate;
use xsk_pcapng::{read, write};
use xsk_umem::PacketList;

pub fn make_packets<R: Print>(rt: &R, alloc: Global) -> Result<()> {
    let list = generate(alloc, 7, 0)?;
    println!(rt; "{} packets of {} bytes in all", list.len(), list.bytes())?;
    Ok(())
}

pub fn write_and_read<R: Print>(rt: &R, alloc: Global) -> Result<()> {
    let text = written(alloc)?;
    println!(rt; "a pcapng file of {} bytes", text.len())?;
    tell(rt, alloc, text.get(..text.len() / 2).unwrap_or(&[]))?;
    tell(rt, alloc, text.as_slice())
}

/// The file in which the first interface has a packet and the second has none.
fn written(alloc: Global) -> Result<Vec<u8>> {
    let mut first = PacketList::new(alloc);
    first.push(&[2, 0, 0, 0, 0, 1, 2, 0, 0, 0, 0, 2, 8, 0])?;
    let lists = vec![in alloc; first, PacketList::new(alloc)]?;
    Ok(write(alloc, lists.as_slice())?)
}

/// Reads a file of two interfaces.
fn tell<R: Print>(rt: &R, alloc: Global, bytes: &[u8]) -> Result<()> {
    match read(alloc, bytes, 2) {
        Ok(lists) => {
            for list in &lists {
                println!(rt; "{} packets", list.len())?;
            }
        }
        Err(refusal) => println!(rt; "{refusal}")?,
    }
    Ok(())
}
