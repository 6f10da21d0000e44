//! Frames on TX, and whether a wake stands behind them.
ghost use Rattle.std.specs.Prelude.{◌≡◌, ◌++◌, ℕ, List, [], ◌∷◌, IfOk, OnOk, length};
ghost use Rattle.xsk_judge.specs.Stands.{Line, IsReady, StandsFor};
ghost use Rattle.xsk_recording.specs.Text.{Beside};
ghost use Rattle.xsk_hints.specs.Wakes.{Wakens, ring_of, wake_with, wake_line, wakes_text, woken};

use crate::tally::tally_behind;
use crate::text::push_unwoken;
use std::alloc::Global;
use std::marker::Model;
use xsk_judge::Judge;
use xsk_model::Ring;
use xsk_recording::Wakeup;
use xsk_side::Setting;
use xsk_umem::OutOfMemory;

/// The line of the last wake of a TX, that of the last look at its flag, and what this showed; a line 0 says that there is none.
#[derive(Clone, Copy, Debug)]
pub(crate) struct Wake {
    pub(crate) kicked: u64,
    pub(crate) looked: u64,
    pub(crate) needed: bool,
}

impl Wake {
    fn with(self, line: u64, wakeup: Wakeup) -> Wake
        ensures { result ≡ wake_with line wakeup self }
    {
        match wakeup {
            Wakeup::Look(_, needed) => Wake {
                kicked: self.kicked,
                looked: line,
                needed,
            },
            Wakeup::Kick(_) => Wake {
                kicked: line,
                looked: self.looked,
                needed: self.needed,
            },
        }
    }
}

/// Looks at the flags of TX and its wakes, by socket. It takes some memory for each, all at the start.
#[derive(Debug, Drop)]
pub struct Wakes {
    wakes: Vec<Wake>,
}

impl Model for Wakes {
    ghost use Rattle.std.specs.Prelude.{List};
    ghost use Rattle.xsk_hints.specs.declared.wakes.Wake.{Wake as AWake};

    ghost Value = { List AWake };

    ghost view = { λ w. w.wakes.items };
}

impl Wakes {
    /// Before the first look. It takes all the memory that it will need; want of it is the one error.
    pub fn new(alloc: Global, setting: &Setting) -> Result<Wakes, OutOfMemory>
        ensures sized { IfOk result (λ wakes. length wakes ≡ length setting.now.sockets) }
        ensures wakens { IfOk result (λ wakes. Wakens wakes []) }
    {
        let none = Wake {
            kicked: 0,
            looked: 0,
            needed: false,
        };
        let wakes = vec![in alloc; none; setting.sockets().len()]?;
        Ok(Wakes { wakes })
    }

    /// Notes the next look or wake, which stands in this line. It takes no memory.
    pub fn note(&mut self, line: u64, wakeup: Wakeup)
        ensures sized { length self.new ≡ length self.old }
        ensures wakens { (asides : List Beside) → Wakens self.old asides → Wakens self.new (record { line = line; wakeup = wakeup } ∷ asides) }
    {
        note_for(&mut self.wakes, ring(wakeup), line, wakeup);
    }

    /// Puts behind a text, of each TX, how many frames are on it with no wake behind them, and since which lines, where the last look
    /// behind them says that a wake is needed, or nobody looked. It takes time of the frames for each, and fails for want of memory
    /// alone.
    pub fn append(
        &self,
        text: &mut Vec<u8>,
        setting: &Setting,
        judge: &Judge,
    ) -> Result<(), OutOfMemory>
        requires ready { IsReady setting.now judge.now }
        requires sized { length self.now ≡ length setting.now.sockets }
        ensures { (lines : List Line) (asides : List Beside) → StandsFor setting.now judge.now lines → Wakens self.now asides
            → OnOk result (text.new.items ≡ text.old.items ++ wakes_text setting.now lines asides) }
    {
        push_wakes(text, setting, judge, self.wakes.as_slice())
    }
}

fn push_wakes(
    text: &mut Vec<u8>,
    setting: &Setting,
    judge: &Judge,
    wakes: &[Wake],
) -> Result<(), OutOfMemory>
    requires ready { IsReady setting.now judge.now }
    requires sized { length wakes.now ≡ length setting.now.sockets }
    ensures { (lines : List Line) (asides : List Beside) → StandsFor setting.now judge.now lines → Wakens wakes.now asides
        → OnOk result (text.new.items ≡ text.old.items ++ wakes_text setting.now lines asides) }
{
    for socket in 0..setting.sockets().len() as u32 {
        push_wake(text, setting, judge, socket, wakes[socket as usize])?;
    }
    Ok(())
}

fn push_wake(
    text: &mut Vec<u8>,
    setting: &Setting,
    judge: &Judge,
    socket: u32,
    wake: Wake,
) -> Result<(), OutOfMemory>
    requires { IsReady setting.now judge.now }
    ensures { (lines : List Line) → StandsFor setting.now judge.now lines → OnOk result (text.new.items ≡ text.old.items ++ wake_line setting.now lines socket wake) }
{
    let frames = tally_behind(setting, judge, Ring::Tx(socket), wake.kicked);
    push_unwoken(text, socket, wake, frames)
}

/// The ring that a look or a wake is for.
fn ring(wakeup: Wakeup) -> Ring
    ensures { result ≡ ring_of wakeup }
{
    match wakeup {
        Wakeup::Look(ring, _) | Wakeup::Kick(ring) => ring,
    }
}

/// A look or a wake for a ring.
fn note_for(wakes: &mut Vec<Wake>, ring: Ring, line: u64, wakeup: Wakeup)
    ensures { wakes.new.items ≡ woken ring line wakeup wakes.old.items }
{
    if let Ring::Tx(socket) = ring {
        let socket = socket as usize;
        if socket < wakes.len() {
            wakes[socket] = wakes[socket].with(line, wakeup);
        }
    }
}
