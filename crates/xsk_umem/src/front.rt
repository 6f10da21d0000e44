//! The front of a text that lists share. The room for a copy is taken when the front is made (`enough`), so no later
//! call takes memory.
ghost use Rattle.std.specs.Prelude.{◌≡◌, ◌≤◌, length, take, vec_capacity, IfOk};
ghost use Rattle.std.specs.Arc.{arc_value};

use crate::OutOfMemory;
use std::alloc::Global;
use std::sync::Arc;

/// The front of a text that lists share, and room for a copy of it.
#[derive(Debug, Drop)]
pub(crate) struct Front {
    text: Arc<Vec<u8>>,
    len: usize,
    room: Vec<u8>,
    ghost within: { len ≤ length (arc_value text).items },
    ghost enough: { len ≤ vec_capacity room },
}

impl Front {
    ghost use Rattle.xsk_umem.specs.Shared.{front_of};

    /// The first so many bytes of a text.
    pub(crate) fn of(alloc: Global, text: &Arc<Vec<u8>>, len: usize) -> Result<Front, OutOfMemory>
        requires { len ≤ length (arc_value text.now).items }
        ensures { IfOk result (λ front. front_of front ≡ take len (arc_value text.now).items) }
    {
        let room = Vec::with_capacity(alloc, len)?;
        let text = Arc::try_clone(text)?;
        Ok(Front { text, len, room })
    }

    /// The bytes.
    pub(crate) fn bytes(&self) -> &[u8]
        ensures { result.now ≡ front_of self.now }
    {
        &self.text.as_slice()[..self.len]
    }

    /// The bytes as a text: the shared one where nothing else has it, and a copy otherwise. It takes no memory.
    pub(crate) fn into_text(self) -> Vec<u8>
        ensures { result.items ≡ front_of self }
    {
        let Front { text, len, room } = self;
        match Arc::try_unwrap(text) {
            Ok(text) => cut(text, len),
            Err(text) => copy_into(room, &text.as_slice()[..len]),
        }
    }
}

/// The first so many bytes of a text.
fn cut(text: Vec<u8>, len: usize) -> Vec<u8>
    ensures { result.items ≡ take len text.items }
{
    let mut text = text;
    text.truncate(len);
    text
}

/// The bytes, in the place of what stands in room that is enough.
fn copy_into(room: Vec<u8>, bytes: &[u8]) -> Vec<u8>
    requires { length bytes.now ≤ vec_capacity room }
    ensures { result.items ≡ bytes.now }
{
    let mut text = room;
    text.clear();
    text.extend_from_slice(bytes).unwrap();
    text
}
