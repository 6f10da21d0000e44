//! The kinds of marks, what is known of each, and a mark by its kind and its numbers. In code this is the one table of
//! marks: all else takes a mark's kind, number, range and word, and what it belongs to, from here. A new kind is a row
//! here and one in `specs/MarkKinds`.
ghost use Rattle.std.specs.Prelude.{◌≡◌, ◌<◌, ◌≤◌, length};
ghost use Rattle.xsk_model.specs.MarkKinds.{columns_of, index_of, kind_at, kind_of, mark_of, number_of, row_of, word_of};

use crate::call::Mark;

/// What the marks of a kind belong to.
#[derive(Clone, Copy, Debug, PartialEq, Eq)]
pub enum Belongs {
    /// A pair.
    Pair,
    /// A socket.
    Socket,
    /// A socket that has TX.
    Sender,
    /// An application.
    Application,
    /// An entry of a port's XSKMAP.
    Map,
}

/// The numbers that the marks of a kind may have.
#[derive(Clone, Copy, Debug, PartialEq, Eq)]
pub enum Range {
    /// 0 and 1.
    Flag,
    /// The configured number and, where that is the socket to close, 0.
    Cell,
    /// Any count.
    Count,
}

/// What is known of the marks of a kind.
#[derive(Clone, Copy, Debug, PartialEq, Eq)]
pub struct Columns {
    pub belongs: Belongs,
    pub range: Range,
}

/// The kinds of marks, in the order of their places.
#[derive(Clone, Copy, Debug, PartialEq, Eq)]
pub enum MarkKind {
    NeedFill,
    NeedTx,
    Kick,
    RxDone,
    Gone,
    TxDone,
    Cell,
    Closing,
    Acked,
    Bounced,
}

/// The number of kinds.
pub const MARK_KINDS: u32 = 10;

impl Mark {
    /// Its kind.
    #[inline(always)]
    pub fn kind(self) -> MarkKind
        ensures { result ≡ kind_of self }
    {
        match self {
            Mark::NeedFill(_) => MarkKind::NeedFill,
            Mark::NeedTx(_) => MarkKind::NeedTx,
            Mark::Kick(_) => MarkKind::Kick,
            Mark::RxDone(_) => MarkKind::RxDone,
            Mark::Gone(_) => MarkKind::Gone,
            Mark::TxDone(_) => MarkKind::TxDone,
            Mark::Cell(_, _) => MarkKind::Cell,
            Mark::Closing(_) => MarkKind::Closing,
            Mark::Acked(_) => MarkKind::Acked,
            Mark::Bounced(_) => MarkKind::Bounced,
        }
    }

    /// The number of the pair, the socket or the application that it belongs to; of a cell that of its port.
    #[inline(always)]
    pub fn number(self) -> u32
        ensures { result ≡ number_of self }
    {
        match self {
            Mark::NeedFill(number)
            | Mark::NeedTx(number)
            | Mark::Kick(number)
            | Mark::RxDone(number)
            | Mark::Gone(number)
            | Mark::TxDone(number)
            | Mark::Cell(number, _)
            | Mark::Closing(number)
            | Mark::Acked(number)
            | Mark::Bounced(number) => number,
        }
    }

    /// The index of a cell, and 0 of each other mark.
    #[inline(always)]
    pub fn index(self) -> u32
        ensures { result ≡ index_of self }
    {
        match self {
            Mark::Cell(_, index) => index,
            _ => 0,
        }
    }

    /// The mark of a kind, by the number of what it belongs to. The index is a cell's alone.
    #[inline(always)]
    pub fn of(kind: MarkKind, number: u32, index: u32) -> Mark
        ensures { result ≡ mark_of kind number index }
    {
        match kind {
            MarkKind::NeedFill => Mark::NeedFill(number),
            MarkKind::NeedTx => Mark::NeedTx(number),
            MarkKind::Kick => Mark::Kick(number),
            MarkKind::RxDone => Mark::RxDone(number),
            MarkKind::Gone => Mark::Gone(number),
            MarkKind::TxDone => Mark::TxDone(number),
            MarkKind::Cell => Mark::Cell(number, index),
            MarkKind::Closing => Mark::Closing(number),
            MarkKind::Acked => Mark::Acked(number),
            MarkKind::Bounced => Mark::Bounced(number),
        }
    }
}

impl MarkKind {
    /// Its place among the kinds, 0 to 9.
    #[inline(always)]
    pub fn row(self) -> u32
        ensures value { result ≡ row_of self }
        ensures within { result < 10 }
    {
        match self {
            MarkKind::NeedFill => 0,
            MarkKind::NeedTx => 1,
            MarkKind::Kick => 2,
            MarkKind::RxDone => 3,
            MarkKind::Gone => 4,
            MarkKind::TxDone => 5,
            MarkKind::Cell => 6,
            MarkKind::Closing => 7,
            MarkKind::Acked => 8,
            MarkKind::Bounced => 9,
        }
    }

    /// The kind of a place, 0 to 8, and the last of each other.
    #[inline(always)]
    pub fn at(row: u32) -> MarkKind
        ensures { result ≡ kind_at row }
    {
        match row {
            0 => MarkKind::NeedFill,
            1 => MarkKind::NeedTx,
            2 => MarkKind::Kick,
            3 => MarkKind::RxDone,
            4 => MarkKind::Gone,
            5 => MarkKind::TxDone,
            6 => MarkKind::Cell,
            7 => MarkKind::Closing,
            8 => MarkKind::Acked,
            _ => MarkKind::Bounced,
        }
    }

    /// What its marks belong to, and the numbers that they may have.
    pub fn columns(self) -> Columns
        ensures { result ≡ columns_of self }
    {
        let (belongs, range) = match self {
            MarkKind::NeedFill => (Belongs::Pair, Range::Flag),
            MarkKind::NeedTx => (Belongs::Sender, Range::Flag),
            MarkKind::Kick => (Belongs::Pair, Range::Flag),
            MarkKind::RxDone => (Belongs::Pair, Range::Flag),
            MarkKind::Gone => (Belongs::Pair, Range::Flag),
            MarkKind::TxDone => (Belongs::Application, Range::Flag),
            MarkKind::Cell => (Belongs::Map, Range::Cell),
            MarkKind::Closing => (Belongs::Socket, Range::Flag),
            MarkKind::Acked => (Belongs::Socket, Range::Flag),
            MarkKind::Bounced => (Belongs::Pair, Range::Count),
        };
        Columns { belongs, range }
    }

    /// Its word in a journal, with the dot before the number.
    #[inline(always)]
    pub fn word(self) -> &'static str
        ensures value { result.now ≡ word_of self }
        ensures short { length result.now ≤ 10 }
    {
        match self {
            MarkKind::NeedFill => "need.fill.",
            MarkKind::NeedTx => "need.tx.",
            MarkKind::Kick => "kick.",
            MarkKind::RxDone => "rxdone.",
            MarkKind::Gone => "gone.",
            MarkKind::TxDone => "txdone.",
            MarkKind::Cell => "cell.",
            MarkKind::Closing => "closing.",
            MarkKind::Acked => "acked.",
            MarkKind::Bounced => "bounced.",
        }
    }
}
