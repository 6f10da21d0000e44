//! A table with two notes that were taken on it.
use crate::line::Fault;
use crate::makers::{Maker, Makers};
use crate::reply::Asked;
use crate::table::Table;
use std::alloc::Global;
use std::marker::Model;
use xsk_model::{Call, Config};
use xsk_table::Note;
use xsk_umem::Frames;

/// A table on which calls are made, with two notes.
pub(crate) trait Board: Maker {
    /// Makes a call where it is legal, and tells the looks at the other side's count that it took.
    fn ask(&mut self, who: u32, call: Call, anew: bool) -> (Asked, u32);

    /// Takes a note, and tells whether there is such a caller.
    fn note(&mut self, who: u32, late: bool) -> bool;

    /// Lets a caller meet a note, and tells whether both were there.
    fn meet(&mut self, who: u32, late: bool) -> bool;

    /// The number of a caller's pass, if there is such a caller.
    fn caller(&self, who: u32) -> Option<u32>;

    /// Whether each caller's pass could be taken once, and no other.
    fn lent_once(&self) -> bool;

    /// Ends the table, and gives the frames that stand in rings.
    fn close(self) -> Frames;
}

/// A table, and an early note and a late one.
#[derive(Drop)]
pub(crate) struct Noted {
    table: Table,
    early: Option<Note>,
    late: Option<Note>,
}

impl Model for Noted {
    ghost use Rattle.std.specs.Prelude.{◌≡◌, IfSome};
    ghost use Rattle.xsk_table.specs.Held.{Board};

    ghost Value = { Board };

    ghost view = { λ n. n.table };

    ghost invariant = { λ n. IfSome n.early (λ note. note.table ≡ n.table.table) × IfSome n.late (λ note. note.table ≡ n.table.table) };
}

impl Maker for Noted {
    fn open(alloc: Global, config: Config, frames: Frames, makers: Makers) -> Result<Noted, Fault> {
        let first = match makers {
            Makers::Both(first) => first,
            _ => 0,
        };
        match Table::open(alloc, config, frames, first) {
            Some(table) => Ok(Noted {
                table,
                early: None,
                late: None,
            }),
            None => Err(Fault::NotLegal),
        }
    }
}

impl Board for Noted {
    fn ask(&mut self, who: u32, call: Call, anew: bool) -> (Asked, u32) {
        self.table.ask(who, call, anew)
    }

    fn note(&mut self, who: u32, late: bool) -> bool {
        let note = self.table.note(who);
        let taken = note.is_some();
        if late {
            self.late = note;
        } else {
            self.early = note;
        }
        taken
    }

    fn meet(&mut self, who: u32, late: bool) -> bool {
        let note = if late {
            self.late.take()
        } else {
            self.early.take()
        };
        match note {
            Some(note) => self.table.meet(who, note),
            None => false,
        }
    }

    fn caller(&self, who: u32) -> Option<u32> {
        self.table.caller(who)
    }

    fn lent_once(&self) -> bool {
        self.table.lent_once()
    }

    fn close(self) -> Frames {
        let Noted { table, .. } = self;
        table.close()
    }
}
