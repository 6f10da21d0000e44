//! Both engines with the frames that are out of their rings, and what is told of their calls.
use crate::hand::Hand;
use crate::line::cut;
use crate::noted::Board;
use crate::object::Engine;
use crate::reply::is_made;
use crate::told::Told;
use crate::words::{Move, Thing, Who};
use std::alloc::Global;
use std::str;
use xsk_log::LineBuffer;
use xsk_model::Ring;
use xsk_umem::OutOfMemory;

/// Whether a call was made by both engines, and the looks that it took on the table.
#[derive(Clone, Copy)]
pub(crate) struct Made {
    pub(crate) legal: bool,
    pub(crate) looks: u32,
}

#[derive(Drop)]
pub(crate) struct Stage<E, B> {
    pub(crate) alloc: Global,
    pub(crate) object: E,
    /// Where the object makes calls that aren't legal, there is no table.
    pub(crate) table: Option<B>,
    pub(crate) hand: Hand,
    /// What came of the last call, on the object and on the table.
    pub(crate) words: Told,
    pub(crate) other: Told,
    /// All that is printed.
    pub(crate) out: Told,
    /// The lines of the log and their callers.
    pub(crate) lines: Vec<u8>,
    pub(crate) callers: Vec<u32>,
    buffer: LineBuffer,
}

impl<E: Engine, B: Board> Stage<E, B> {
    pub(crate) fn new(alloc: Global, object: E) -> Stage<E, B> {
        Stage {
            alloc,
            object,
            table: None,
            hand: Hand::new(alloc),
            words: Told::new(alloc),
            other: Told::new(alloc),
            out: Told::new(alloc),
            lines: Vec::new(alloc),
            callers: Vec::new(alloc),
            buffer: LineBuffer::new(),
        }
    }

    /// Prints a line of the script and what is told of it.
    pub(crate) fn say(&mut self, line: &str, what: &str) {
        say(&mut self.out, line, what);
    }

    /// Prints a line of the script and what came of the last call.
    pub(crate) fn say_words(&mut self, line: &str) {
        say(&mut self.out, line, self.words.text());
    }

    /// The number of a caller.
    pub(crate) fn caller(&self, who: Who) -> Option<u32> {
        let pairs = self.object.config().pairs().len() as u32;
        match who {
            Who::Driver(number) => Some(number),
            Who::App(number) => pairs.checked_add(number),
        }
    }

    /// Makes a call on the object, and tells whether it was made.
    fn ask_object(&mut self, who: u32, made: Move, things: &[Thing]) -> Result<bool, OutOfMemory> {
        let call = self.hand.mine.call(&self.hand.known, made, things);
        let asked = self.object.ask(who, call)?;
        let legal = is_made(&asked);
        let hand = &mut self.hand;
        if !hand.mine.settle(&hand.known, asked, &mut self.words) {
            self.out.say("  other frames or bytes\n");
        }
        Ok(legal)
    }

    /// Makes it on the table, if there is one, and gives the looks that it took. It is printed where other words came of it.
    fn ask_table(&mut self, who: u32, made: Move, things: &[Thing], anew: bool) -> u32 {
        let Some(table) = &mut self.table else {
            return 0;
        };
        let hand = &mut self.hand;
        let call = hand.theirs.call(&hand.known, made, things);
        let (asked, looks) = table.ask(who, call, anew);
        if !hand.theirs.settle(&hand.known, asked, &mut self.other) {
            self.out.say("  other frames or bytes on the table\n");
        }
        compare(self.words.text(), self.other.text(), &mut self.out);
        looks
    }

    /// Makes a call on both engines. It is printed where they differ, or a frame isn't the right one.
    pub(crate) fn make(
        &mut self,
        who: u32,
        made: Move,
        things: &[Thing],
        anew: bool,
    ) -> Result<Made, OutOfMemory> {
        if let Move::Submit(Ring::Rx(_)) = made {
            self.hand.write(things);
        }
        let legal = self.ask_object(who, made, things)?;
        let looks = self.ask_table(who, made, things, anew);
        Ok(Made { legal, looks })
    }

    /// Prints what came of a call, by the log's line of it.
    pub(crate) fn tell(&mut self, line: &str, who: u32, made: Made) -> Result<(), OutOfMemory> {
        if !made.legal {
            self.say_words(line);
            return Ok(());
        }
        self.keep(who)?;
        let last = last_line(&self.buffer);
        tell_made(last, self.words.text(), made.looks, &mut self.out);
        Ok(())
    }

    /// Keeps the line of a call that was made.
    pub(crate) fn keep(&mut self, who: u32) -> Result<(), OutOfMemory> {
        self.object.tell_last(&mut self.buffer);
        self.lines.extend_from_slice(self.buffer.bytes())?;
        Ok(self.callers.push(who)?)
    }
}

fn say(out: &mut Told, line: &str, what: &str) {
    out.say(line);
    out.say(": ");
    out.say(what);
    out.say("\n");
}

/// Prints where other words came of a call on the table.
fn compare(words: &str, other: &str, out: &mut Told) {
    if other != words {
        out.say("  on the table:\n");
        out.say(other);
        out.say("\n");
    }
}

/// Tells the log's line of a call, with a remark where it hasn't these words or more than one look.
fn tell_made(line: &str, words: &str, looks: u32, out: &mut Told) {
    out.say(line);
    out.say(if looks == 0 { "\n" } else { " (1 look)\n" });
    let (_, reply) = cut(line, " -> ");
    if looks > 1 || reply != words {
        out.say("  another reply or more looks\n");
    }
}

/// The line that the buffer has, without its line feed.
fn last_line(buffer: &LineBuffer) -> &str {
    match str::from_utf8(buffer.bytes()) {
        Ok(line) => {
            let (own, _) = cut(line, "\n");
            own
        }
        Err(_) => "no text",
    }
}
