//! What is known before the first call.
ghost use Rattle.std.specs.Prelude.{◌≡◌, ◌++◌, IfOk, map};
ghost use Rattle.xsk_side.specs.Setting.{IsSetting};
ghost use Rattle.xsk_judge.specs.First.{fill_end, tx_end, comp_queue, rx_queue};

use crate::known::End;
use crate::queue::Queue;
use std::alloc::Global;
use xsk_side::{Pair, Setting, Socket};
use xsk_umem::OutOfMemory;

/// FILL by pair and TX by socket: all places are free.
pub(crate) fn ends(alloc: Global, setting: &Setting) -> Result<Vec<End>, OutOfMemory>
    ensures value { IfOk result (λ ends. ends.items ≡ map fill_end setting.now.pairs ++ map tx_end setting.now.sockets) }
{
    let mut ends = Vec::with_capacity(alloc, setting.pairs().len() + setting.sockets().len())?;
    push_fills(&mut ends, setting.pairs())?;
    push_txs(&mut ends, setting.sockets())?;
    Ok(ends)
}

/// COMPLETION by pair and RX by socket: all are empty.
pub(crate) fn queues(alloc: Global, setting: &Setting) -> Result<Vec<Queue>, OutOfMemory>
    ensures value { IfOk result (λ queues. queues.items ≡ map comp_queue setting.now.pairs ++ map rx_queue setting.now.sockets) }
{
    let mut queues = Vec::with_capacity(alloc, setting.pairs().len() + setting.sockets().len())?;
    push_comps(alloc, &mut queues, setting.pairs())?;
    push_rxs(alloc, &mut queues, setting.sockets())?;
    Ok(queues)
}

fn all_free(size: u32) -> End
    ensures { result ≡ record { room = 0; sure = size; shown = 0 } }
{
    End {
        room: 0,
        sure: size,
        shown: 0,
    }
}

fn push_fills(ends: &mut Vec<End>, pairs: &[Pair]) -> Result<(), OutOfMemory>
    ensures { IfOk result (λ _. ends.new.items ≡ ends.old.items ++ map fill_end pairs.now) }
{
    for i in 0..pairs.len() {
        ends.push(all_free(pairs[i].fill))?;
    }
    Ok(())
}

fn push_txs(ends: &mut Vec<End>, sockets: &[Socket]) -> Result<(), OutOfMemory>
    ensures { IfOk result (λ _. ends.new.items ≡ ends.old.items ++ map tx_end sockets.now) }
{
    for i in 0..sockets.len() {
        ends.push(all_free(sockets[i].tx.unwrap_or(0)))?;
    }
    Ok(())
}

fn push_comps(alloc: Global, queues: &mut Vec<Queue>, pairs: &[Pair]) -> Result<(), OutOfMemory>
    ensures { IfOk result (λ _. queues.new.items ≡ queues.old.items ++ map comp_queue pairs.now) }
{
    for i in 0..pairs.len() {
        queues.push(Queue::new(alloc, pairs[i].comp)?)?;
    }
    Ok(())
}

fn push_rxs(alloc: Global, queues: &mut Vec<Queue>, sockets: &[Socket]) -> Result<(), OutOfMemory>
    ensures { IfOk result (λ _. queues.new.items ≡ queues.old.items ++ map rx_queue sockets.now) }
{
    for i in 0..sockets.len() {
        queues.push(Queue::new(alloc, sockets[i].rx.unwrap_or(0))?)?;
    }
    Ok(())
}
