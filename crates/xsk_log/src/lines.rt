//! A walk over the entries of a log, each of which tells its journal's line.
ghost use Rattle.std.specs.Prelude.{◌≡◌, ◌<◌, ◌≤◌, List, Some, length, slice_get, sum_by, take};
ghost use Rattle.std.specs.Option.{option_map};
ghost use Rattle.xsk_umem.specs.declared.batch.Item.{Item};
ghost use Rattle.xsk_log.specs.Items.{items_of, next_items, number_in};
ghost use Rattle.xsk_log.specs.Log.{calls_of, entry_with};
ghost use Rattle.xsk_log.specs.Pieces.{count_of};

use crate::line::LineBuffer;
use crate::log::{Event, Log, Row};

/// Goes over the entries of a log, and writes the line of one after another. Each line takes time of its own items alone.
#[derive(Clone, Copy, Debug)]
pub struct Lines<'a> {
    log: &'a Log,
    pairs: u32,
    /// The row of the next entry, and where its items begin.
    row: u32,
    start: u32,
    ghost row_within: { row ≤ calls_of log.now },
    ghost start_is: { start ≡ sum_by count_of (take row log.now.rows.items) },
}

impl Log {
    ghost use Rattle.xsk_log.specs.Log.{entries_of};
    ghost use Rattle.xsk_log.specs.Left.{left_of, pairs_of};

    /// Goes over all entries from the first on. There are so many pairs, whose drivers are the first callers. An engine that knows
    /// its configuration has a call of its own for it.
    pub fn lines(&self, pairs: u32) -> Lines<'_>
        ensures pairs { pairs_of result ≡ pairs }
        ensures all { left_of result ≡ entries_of self.now }
    {
        Lines {
            log: self,
            pairs,
            row: 0,
            start: 0,
        }
    }
}

impl Lines<'_> {
    ghost use Rattle.xsk_log.specs.Left.{left_of, pairs_of};
    ghost use Rattle.xsk_log.specs.Line.{TakesLine};

    /// Puts the line of the next entry, as `Log::write_line` has it, in place of what the buffer held, and tells the
    /// entry's caller. Behind the last entry there is none, and the buffer stays. It takes no memory.
    pub fn write_next(&mut self, out: &mut LineBuffer) -> Option<u32>
        ensures next { TakesLine (pairs_of self.old) (left_of self.old) (left_of self.new) out.old out.new result }
        ensures pairs { pairs_of self.new ≡ pairs_of self.old }
    {
        if self.row == self.log.len() {
            return None;
        }
        // For the proof, a read of a field tells what the type keeps: the items of all rows together are a number of 32 bits.
        let _begun = self.log.begun;
        self.log.write_row(self.pairs, self.row, self.start, out);
        let row = self.log.rows.get(self.row);
        self.row += 1;
        self.start += row.items;
        Some(row.who)
    }

    /// How many items the next entry shows: those of a Submit, or those that a Peek gave. Behind the last entry there are none.
    pub fn items(&self) -> u32
        ensures { result ≡ length (next_items (left_of self.now)) }
    {
        if self.row == self.log.len() {
            return 0;
        }
        items_in(&self.log.rows.get(self.row))
    }

    /// The number of the frame of one of these items, counted from 0, if it has one.
    pub fn frame(&self, i: u32) -> Option<u32>
        requires { i < length (next_items (left_of self.now)) }
        ensures { (item : Item) → slice_get (next_items (left_of self.now)) i ≡ Some item → result ≡ option_map number_in item.frame }
    {
        // For the proof, a read of a field tells what the type keeps: the items of all rows together are a number of 32 bits.
        let _begun = self.log.begun;
        self.log.pieces.get(self.start + i).frame
    }
}

/// How many items the entry of a row shows.
fn items_in(row: &Row) -> u32
    ensures { (items : List Item) → length items ≡ row.now.items → result ≡ length (items_of (entry_with row.now.who row.now.event items)) }
{
    match row.event {
        Event::Submitted(_) | Event::Items(..) => row.items,
        Event::Granted(..)
        | Event::Full(..)
        | Event::Empty(..)
        | Event::Released(..)
        | Event::Swapped(..)
        | Event::Looked(..) => 0,
    }
}
