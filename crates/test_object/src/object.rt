//! The object on one thread, as a script has it.
use crate::line::Fault;
use crate::makers::{Maker, Makers};
use crate::reply::Asked;
use crate::runs::behind;
use std::alloc::Global;
use xsk_log::{LineBuffer, Lines, Log};
use xsk_model::{Call, Config};
use xsk_plain::{Checked, Plain, items_room};
use xsk_umem::{Batch, Frames, OutOfMemory};

/// An engine on one thread, on which the calls of a script are made.
pub(crate) trait Engine: Maker {
    fn config(&self) -> &Config;

    fn log(&self) -> &Log;

    fn lines(&self) -> Lines<'_>;

    /// Makes a call where it is legal, or can be made.
    fn ask(&mut self, who: u32, call: Call) -> Result<Asked, OutOfMemory>;

    /// Puts the line of the last call, if there is one, in the buffer.
    fn tell_last(&self, line: &mut LineBuffer);

    /// The frames that stand in rings, ring by ring and in order.
    fn close(self) -> Frames;
}

/// The engine that tells which calls are legal, and whether it is asked why one isn't.
#[derive(Drop)]
pub(crate) struct Judge {
    pub(crate) checked: Checked,
    pub(crate) asks_why: bool,
}

fn ask_checked(checked: &mut Checked, who: u32, call: Call) -> Result<Asked, OutOfMemory> {
    let mut items = Batch::new();
    let ask = call.split(&mut items);
    let _geometry = checked.config().geometry();
    checked.reserve_log(1, items_room(&items))?;
    if !checked.allows(who, ask, &items) {
        return Ok(Asked::Refused(ask.joined(items), None));
    }
    Ok(Asked::Made(checked.perform(who, ask.joined(items))))
}

fn ask_why(checked: &mut Checked, who: u32, call: Call) -> Result<Asked, OutOfMemory> {
    let mut items = Batch::new();
    let ask = call.split(&mut items);
    let _geometry = checked.config().geometry();
    checked.reserve_log(1, items_room(&items))?;
    if let Some(why) = checked.why_not(who, ask, &items) {
        return Ok(Asked::Refused(ask.joined(items), Some(why)));
    }
    let answer = checked.serve(who, ask, &mut items);
    Ok(Asked::Made(answer.joined(items)))
}

impl Maker for Judge {
    fn open(alloc: Global, config: Config, frames: Frames, makers: Makers) -> Result<Judge, Fault> {
        let asks_why = match makers {
            Makers::Why => true,
            _ => false,
        };
        match Checked::open(alloc, config, frames) {
            Ok(checked) => Ok(Judge { checked, asks_why }),
            Err(_) => Err(Fault::NotLegal),
        }
    }
}

impl Engine for Judge {
    fn config(&self) -> &Config {
        self.checked.config()
    }

    fn log(&self) -> &Log {
        self.checked.log()
    }

    fn lines(&self) -> Lines<'_> {
        self.checked.lines()
    }

    fn ask(&mut self, who: u32, call: Call) -> Result<Asked, OutOfMemory> {
        if self.asks_why {
            ask_why(&mut self.checked, who, call)
        } else {
            ask_checked(&mut self.checked, who, call)
        }
    }

    fn tell_last(&self, line: &mut LineBuffer) {
        if let Some(last) = self.checked.log().len().checked_sub(1) {
            self.checked.write_line(last, line);
        }
    }

    fn close(self) -> Frames {
        let Judge { checked, .. } = self;
        checked.close()
    }
}

impl Maker for Plain {
    fn open(
        alloc: Global,
        config: Config,
        frames: Frames,
        _makers: Makers,
    ) -> Result<Plain, Fault> {
        match Plain::open(alloc, config, frames) {
            Ok(plain) => Ok(plain),
            Err(_) => Err(Fault::NotLegal),
        }
    }
}

/// The engine that makes each call that can be made.
impl Engine for Plain {
    fn config(&self) -> &Config {
        Plain::config(self)
    }

    fn log(&self) -> &Log {
        Plain::log(self)
    }

    fn lines(&self) -> Lines<'_> {
        Plain::lines(self)
    }

    fn ask(&mut self, who: u32, call: Call) -> Result<Asked, OutOfMemory> {
        let mut items = Batch::new();
        let ask = call.split(&mut items);
        let _geometry = Plain::config(self).geometry();
        self.reserve_log(1, items_room(&items))?;
        if !self.can_perform(ask, &items) {
            return Ok(Asked::Refused(ask.joined(items), None));
        }
        Ok(Asked::Made(self.perform(who, ask.joined(items))))
    }

    fn tell_last(&self, line: &mut LineBuffer) {
        if let Some(last) = Plain::log(self).len().checked_sub(1) {
            self.write_line(last, line);
        }
    }

    fn close(self) -> Frames {
        Plain::close(self)
    }
}

/// Whether the lines of all calls, one behind the other, are these, and their callers these. Behind the last one there is none.
pub(crate) fn walks<E: Engine>(engine: &E, lines: &[u8], callers: &[u32]) -> bool {
    let mut line = LineBuffer::new();
    let mut walk = engine.lines();
    let mut rest = lines;
    let mut same = engine.log().len() as usize == callers.len();
    for who in callers {
        let found = walk.write_next(&mut line);
        same = same && is_caller(found, *who) && begins(rest, line.bytes());
        rest = behind(rest, line.bytes().len());
    }
    same && rest.is_empty() && walk.write_next(&mut line).is_none()
}

/// Whether a number was found, and is this one.
pub(crate) fn is_caller(found: Option<u32>, who: u32) -> bool {
    match found {
        Some(found) => found == who,
        None => false,
    }
}

fn begins(text: &[u8], start: &[u8]) -> bool {
    match text.get(..start.len()) {
        Some(found) => found == start,
        None => false,
    }
}
