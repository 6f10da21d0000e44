//! The bay in memory that never fails.
ghost use Rattle.std.specs.Prelude.{◌≡◌, ◌≢◌, ℕ, ◌<◌, ◌⊎◌, false, true, None, map, min, length, take, IfOk, IfErr, IfSome};
ghost use Rattle.std.specs.Option.{option_map};
ghost use Rattle.xsk_io.specs.declared.bay.Stream.{Stream};
ghost use Rattle.xsk_io.specs.Bay.{HasNumber, IsInput, TakesWrites};
ghost use Rattle.xsk_io.specs.Memory.{MemoryState, HasStreams, new_memory, left_of, held_of, after_open, after_read, after_write, steady_moment};

use crate::memory::Memory;
use crate::{Bay, BayFailed, Stream};
use std::alloc::Global;
use std::marker::Model;

/// A bay in memory that never fails: given inputs, and outputs and a report with a room of their own.
///
/// It tells everything but its writes, a name of more than 256 bytes, and an output or a report to which a write
/// beyond its room came.
#[derive(Drop)]
pub struct SteadyBay {
    memory: Memory,
}

impl Model for SteadyBay {
    ghost use Rattle.xsk_io.specs.Memory.{MemoryState};

    ghost Value = { MemoryState };

    ghost view = { λ bay. bay.memory };
}

impl SteadyBay {
    /// A bay with these inputs, no stream open, and `room` bytes taken for each output and for the
    /// report. Where there is no memory for that, and only there, the inputs come back.
    pub fn new(alloc: Global, inputs: Vec<Vec<u8>>, room: u32) -> Result<SteadyBay, Vec<Vec<u8>>>
        ensures made { IfOk result (λ bay.
            bay ≡ new_memory (map (λ bytes. bytes.items) inputs.items) room) }
        ensures back { IfErr result (λ back. back.items ≡ inputs.items) }
    {
        Ok(SteadyBay {
            memory: Memory::new(alloc, inputs, room as usize)?,
        })
    }

    /// What an output or the report holds. None for an input, and where a write has passed the room.
    pub fn output(&self, stream: Stream) -> Option<&[u8]>
        ensures { option_map (λ bytes. bytes.now) result ≡ held_of self.now stream }
    {
        self.memory.told(stream)
    }
}

// Each call says exactly what it gives and leaves, and the trait's clauses follow.
impl Bay for SteadyBay {
    ghost moment = { steady_moment };

    fn open(&mut self, stream: Stream, name: &str) -> Result<(), BayFailed>
        requires numbered { HasNumber stream }
        requires not_report { stream ≢ Stream.Report }
        ensures opened { result ≡ Ok tt }
        ensures streams { HasStreams self.old }
        ensures after { self.new ≡ after_open self.old stream name.now }
    {
        self.memory.open(stream, name);
        Ok(())
    }

    fn read(&mut self, stream: Stream, buf: &mut [u8]) -> Result<usize, BayFailed>
        requires numbered { HasNumber stream }
        requires input { IsInput stream }
        ensures count { IfSome (left_of self.old stream) (λ left.
            result ≡ Ok (min (length buf.new) (length left))) }
        ensures bytes { IfSome (left_of self.old stream) (λ left.
            IfOk result (λ count. take count buf.new ≡ take count left)) }
        ensures streams { HasStreams self.old }
        ensures after { IfOk result (λ count. self.new ≡ after_read self.old stream count) }
    {
        Ok(self.memory.read(stream, buf))
    }

    fn write(&mut self, stream: Stream, piece: &[u8]) -> Result<usize, BayFailed>
        requires numbered { HasNumber stream }
        requires not_input { ¬ IsInput stream }
        ensures taken { result ≡ Ok (length piece.now) }
        ensures streams { HasStreams self.old }
        ensures after { self.new ≡ after_write self.old stream piece.now }
    {
        self.memory.write(stream, piece);
        Ok(piece.len())
    }
}
