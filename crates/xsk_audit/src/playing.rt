//! The calls of a journal, made on the object.
ghost use Rattle.std.specs.Prelude.{◌≡◌, List, [], true, OnOk, IfOk, length};
ghost use Rattle.xsk_umem.specs.Frame.{Frame as Body};
ghost use Rattle.xsk_model.specs.Asks.{HasAsked, joined_call};
ghost use Rattle.xsk_model.specs.Entry.{Entry};
ghost use Rattle.xsk_audit.specs.Lines.{lines_of};
ghost use Rattle.xsk_audit.specs.Playing.{IsPlaying, Makes, Plays};
ghost use Rattle.xsk_audit.specs.Reading.{read_call};

use crate::cutting::first_line;
use crate::reading::{Reading, read_line};
use crate::shelf::Shelf;
use std::alloc::Global;
use xsk_model::Ask;
use xsk_plain::{Checked, items_room};
use xsk_umem::{Batch, OutOfMemory};

/// Makes the calls of the lines, as long as each can be read and is legal. No call may have been made before.
pub(crate) fn play(
    alloc: Global,
    checked: &mut Checked,
    shelf: &mut Shelf,
    text: &[u8],
) -> Result<(), OutOfMemory>
    requires opened { (frames : List Body) × IsPlaying checked.old shelf.old frames [] }
    ensures config { checked.new.config ≡ checked.old.config }
    ensures played { OnOk result (Plays checked.new (lines_of text.now)) }
{
    let mut told = Batch::new();
    let mut items = Batch::new();
    play_lines(alloc, checked, shelf, text, &mut told, &mut items)
}

/// The same with two empty batches: one for what a line tells, and one for the items with their frames.
fn play_lines(
    alloc: Global,
    checked: &mut Checked,
    shelf: &mut Shelf,
    text: &[u8],
    told: &mut Batch,
    items: &mut Batch,
) -> Result<(), OutOfMemory>
    requires opened { (frames : List Body) × IsPlaying checked.old shelf.old frames [] }
    requires told { told.old ≡ [] }
    requires items { items.old ≡ [] }
    ensures config { checked.new.config ≡ checked.old.config }
    ensures played { OnOk result (Plays checked.new (lines_of text.now)) }
{
    let pairs = checked.config().pairs().len() as u32;
    let mut rest = text;
    for _line in 0..text.len() {
        if rest.is_empty() {
            return Ok(());
        }
        let (line, later) = first_line(rest);
        let Some(reading) = read_line(pairs, line, told) else {
            return Ok(());
        };
        let Reading { who, ask, .. } = reading;
        if !make(alloc, checked, shelf, who, ask, told, items)? {
            return Ok(());
        }
        empty(told);
        rest = later;
    }
    Ok(())
}

/// Makes a call, if it is legal. Its items stand beside it without frames, and get those of their addresses in an empty
/// batch, which is left empty behind a call that was made.
fn make(
    alloc: Global,
    checked: &mut Checked,
    shelf: &mut Shelf,
    who: u32,
    ask: Ask,
    told: &Batch,
    items: &mut Batch,
) -> Result<bool, OutOfMemory>
    requires asked { HasAsked ask told.now }
    requires told { read_call (joined_call ask told.now) ≡ joined_call ask told.now }
    requires empty { items.old ≡ [] }
    requires playing { (frames : List Body) × (h : List Entry) × IsPlaying checked.old shelf.old frames h }
    ensures config { checked.new.config ≡ checked.old.config }
    ensures made { IfOk result (λ made. (frames : List Body) (h : List Entry) → IsPlaying checked.old shelf.old frames h → Makes checked.new shelf.new frames h who (joined_call ask told.now) made) }
    ensures empty { IfOk result (λ made. made ≡ true → items.new ≡ []) }
{
    if !shelf.lend(checked.config().geometry(), told, items) {
        return Ok(false);
    }
    if !checked.allows(who, ask, items) {
        return Ok(false);
    }
    checked.reserve_log(1, items_room(items))?;
    let _answer = checked.serve(who, ask, items);
    shelf.keep(items);
    Ok(true)
}

/// Takes all items out of a batch.
pub(crate) fn empty(items: &mut Batch)
    ensures { items.new ≡ [] }
{
    for _item in 0..items.len() {
        let _taken = items.pop_front();
    }
}
