//! xsk_pcap: a capture is written of packets, and read again.

use anyhow::{Context, Result};
use std::alloc::Global;
use xsk_pcap::{Capture, GAPS, lay, read};
use xsk_umem::PacketList;

pub fn write_and_read<R: Print>(rt: &R, alloc: Global) -> Result<()> {
    let bytes = written(alloc)?;
    println!(rt; "a capture of {} bytes", bytes.len())?;
    let cut = Vec::from_slice(alloc, bytes.get(..129).context("it has 130 bytes")?)?;
    tell(rt, alloc, cut)?;
    tell(rt, alloc, bytes)
}

/// The capture of two packets, which are copied into it.
fn written(alloc: Global) -> Result<Vec<u8>> {
    let mut list = PacketList::new(alloc);
    list.push(&[1; 14])?;
    list.push(&[2; 60])?;
    let mut capture = Capture::start(alloc)?;
    capture.add(&list)?;
    Ok(capture.into_bytes())
}

/// The capture of a packet in a list that has gaps for its headers: the packet stays where it stands.
pub fn write_in_gaps<R: Print>(rt: &R, alloc: Global) -> Result<()> {
    let mut list = PacketList::with_gaps(alloc, GAPS)?;
    let packet = [2; 60];
    list.push(&packet)?;
    let text = lay(&mut list).context("it has the gaps")?;
    println!(rt; "in gaps, {} bytes", text.len())?;
    tell(rt, alloc, Vec::from_slice(alloc, text)?)
}

/// Reads a capture.
fn tell<R: Print>(rt: &R, alloc: Global, bytes: Vec<u8>) -> Result<()> {
    match read(alloc, bytes) {
        Ok(list) => {
            println!(rt; "{} packets", list.len())?;
            for i in 0..list.len() {
                println!(rt; "{:?}", list.get(i))?;
            }
        }
        Err(back) => println!(rt; "{back}, {} bytes", back.bytes.len())?,
    }
    Ok(())
}
