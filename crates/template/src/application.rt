//! The application of one's own: a packet on the RX of a port goes out by the other port, which writes its address over the source's,
//! and a frame on COMPLETION goes back to the FILL of its home.

ghost use Rattle.std.specs.Prelude.{IfOk};
ghost use Rattle.xsk_model.specs.Asks.{HasAnswered};

use anyhow::{Context, Result, bail};
use xsk_bench::Bench;
use xsk_model::steering::paired_port;
use xsk_model::{Answer, Ask, Ring, home_item};
use xsk_umem::{Batch, Item};

/// More than any run takes.
const MOST: u32 = 10_000_000;

/// Makes its calls whenever the drivers wait, until it finds nothing.
pub fn forward(bench: &mut Bench<'_>) -> Result<()> {
    for _ in 0..MOST {
        bench.run_drivers(MOST)?;
        let mut moved = false;
        for port in 0..2 {
            moved |= pass_on(bench, port)? | bring_home(bench, port)?;
        }
        if !moved {
            return Ok(());
        }
    }
    bail!("it goes on and on")
}

/// Passes the next packet of a port on to the other, if there is one.
fn pass_on(bench: &mut Bench<'_>, port: u32) -> Result<bool> {
    let Some(mut item) = take(bench, Ring::Rx(port))? else {
        return Ok(false);
    };
    let other = paired_port(port);
    write_source(&mut item, other);
    put(bench, Ring::Tx(other), item)?;
    Ok(true)
}

/// Writes the address of a port, 02:00:00:00:00:01 or 02, over bytes 6 to 11 of the packet.
fn write_source(item: &mut Item, port: u32) {
    let address = if port == 0 {
        [2, 0, 0, 0, 0, 1]
    } else {
        [2, 0, 0, 0, 0, 2]
    };
    let Some(frame) = &mut item.frame else {
        return;
    };
    let chunk = frame.bytes().len();
    let start = (item.desc.addr % 4096) as usize;
    if start + 12 <= chunk {
        frame.fill(start as u32 + 6, &address);
    }
}

/// Gives the next frame on a port's COMPLETION back to the FILL of its home, if there is one.
fn bring_home(bench: &mut Bench<'_>, port: u32) -> Result<bool> {
    let Some(item) = take(bench, Ring::Comp(port))? else {
        return Ok(false);
    };
    let Some(frame) = item.frame else {
        bail!("an item without its frame");
    };
    let config = bench.config();
    let home = frame
        .number()
        .checked_div(config.pool())
        .context("a pool has frames")?;
    let item = home_item(config.geometry(), frame);
    put(bench, Ring::Fill(home), item)?;
    Ok(true)
}

/// Takes the next item of a ring, if there is one.
fn take(bench: &mut Bench<'_>, ring: Ring) -> Result<Option<Item>> {
    let mut items = Batch::new();
    call(bench, Ask::Peek(ring, 1), &mut items)?;
    let item = items.pop_front();
    if item.is_some() {
        call(bench, Ask::Release(ring, 1), &mut items)?;
    }
    Ok(item)
}

/// Puts an item into a ring, which has room for all frames.
fn put(bench: &mut Bench<'_>, ring: Ring, item: Item) -> Result<()> {
    let mut items = Batch::new();
    if call(bench, Ask::Reserve(ring, 1), &mut items)? != Answer::Granted {
        bail!("the ring is full");
    }
    items.push(item);
    call(bench, Ask::Submit(ring), &mut items)?;
    Ok(())
}

/// Makes a call of this application, which is the only one.
fn call(bench: &mut Bench<'_>, ask: Ask, items: &mut Batch) -> Result<Answer>
    ensures { IfOk result (λ answer. HasAnswered answer items.new) }
{
    Ok(bench.serve(0, ask, items)?)
}
