//! What a file that isn't of the wanted format is, by its first bytes.

use std::fs::{self, File};
use std::io::Read;
use std::rt::Files;

/// What is told of a file that hasn't the magic number of its format, by its first four bytes. Nothing is, where it is no file that
/// can be read twice.
pub(crate) fn hint<R: Files>(rt: &R, name: &str) -> &'static str {
    match front_of(rt, name) {
        Some(front) => hint_of(front),
        None => "",
    }
}

/// The same of four bytes, the first as the highest.
fn hint_of(front: u32) -> &'static str {
    match front {
        0x0a0d_0d0a => "; it is a pcapng file: use --pcapng, with one file in and one out",
        0xd4c3_b2a1 | 0xa1b2_c3d4 => "; it is a capture: leave --pcapng out",
        0x1f8b_0000..=0x1f8b_ffff => "; it is compressed: gunzip it first",
        0x28b5_2ffd => "; it is compressed: unzstd it first",
        0xfd37_7a58 => "; it is compressed: unxz it first",
        _ => "",
    }
}

/// The first four bytes of a regular file.
fn front_of<R: Files>(rt: &R, name: &str) -> Option<u32> {
    let about = fs::metadata(rt, name).ok()?;
    if !about.is_file() {
        return None;
    }
    let mut file = File::open(rt, name).ok()?;
    let mut front = [0; 4];
    file.read_exact(&mut front).ok()?;
    Some(u32::from_be_bytes(front))
}
