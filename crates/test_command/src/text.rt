//! Texts, each said by hexadecimal digits, which may be parted by spaces.

use hex::FromHexError;
use std::alloc::{AllocError, Global};

/// The bytes that the digits say, where they say some.
pub(crate) fn text_of(alloc: Global, tokens: &str) -> Result<Option<Vec<u8>>, AllocError> {
    let mut text = Vec::new(alloc);
    for digits in tokens.split(' ') {
        match hex::decode(alloc, digits.as_bytes()) {
            Ok(bytes) => text.extend_from_slice(bytes.as_slice())?,
            Err(FromHexError::OutOfMemory) => return Err(AllocError),
            Err(_) => return Ok(None),
        }
    }
    Ok(Some(text))
}
