//! What is written into frames.
ghost use Rattle.std.specs.Prelude.{◌≤◌};

use xsk_umem::Frame;

/// The most bytes of a chunk.
const MOST: usize = 4096;

/// The first bytes that a number stands for: zeros for 0.
fn pattern(seed: u32, len: usize) -> [u8; 4096]
    requires { len ≤ 4096 }
{
    let mut bytes = [0u8; MOST];
    if seed > 0 {
        for at in 0..len {
            let place = at as u64;
            let sum = u64::from(seed) * 31 + place * 7 + place / 256;
            bytes[at] = (sum % 251) as u8;
        }
    }
    bytes
}

/// Writes all bytes of a frame.
pub(crate) fn write(frame: &mut Frame, seed: u32) {
    let len = frame.bytes().len();
    if len <= MOST {
        let bytes = pattern(seed, len);
        frame.fill(0, &bytes[..len]);
    }
}

/// Whether all bytes of a frame are these.
pub(crate) fn holds(frame: &Frame, seed: u32) -> bool {
    let found = frame.bytes();
    let len = found.len();
    if len > MOST {
        return false;
    }
    let bytes = pattern(seed, len);
    found == &bytes[..len]
}
