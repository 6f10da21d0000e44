//! Lists of programs in words.
ghost use Rattle.std.specs.Prelude.{◌≡◌, ◌≤◌, ◌<◌, [], ◌∷◌, ◌++◌, IsSome, IsNone, ◌↔◌, length, option_map};
ghost use Rattle.xsk_args.specs.Program.{programs_in};

use crate::program::{Program, parse_program};
use arrayvec::ArrayVec;
use std::marker::Model;

/// The most programs of a list.
const MOST_PROGRAMS: usize = 8;

/// At most eight programs, in the order in which they are asked. Contracts see the list of them.
#[derive(Drop)]
pub struct ProgramList {
    list: ArrayVec<Program, MOST_PROGRAMS>,
}

impl Model for ProgramList {
    ghost use Rattle.std.specs.Prelude.{List, length, ◌≤◌};
    ghost use Rattle.xsk_args.specs.declared.program.Program.{Program as AProgram};

    ghost Value = { List AProgram };

    ghost view = { λ p. p.list.items };

    ghost invariant = { λ p. length p.list.items ≤ 8 };
}

impl ProgramList {
    /// No program.
    fn none() -> ProgramList
        ensures { result ≡ [] }
    {
        ProgramList {
            list: ArrayVec::new(),
        }
    }

    /// This program alone.
    pub fn one(program: Program) -> ProgramList
        ensures { result ≡ program ∷ [] }
    {
        let mut programs = ProgramList::none();
        programs.list.push(program);
        programs
    }

    /// The programs, in order.
    pub fn as_slice(&self) -> &[Program]
        ensures value { result.now ≡ self.now }
        ensures few { length result.now ≤ 8 }
    {
        self.list.as_slice()
    }

    /// Puts a program behind the others. It is refused exactly where there are eight.
    fn push(&mut self, program: Program) -> Option<()>
        ensures pushed { IsSome result → (self.new ≡ self.old ++ program ∷ []) × (length self.old < 8) }
        ensures refused { IsNone result → length self.old ≡ 8 }
    {
        self.list.try_push(program).ok()
    }
}

/// The programs that a text names: one to eight, each as `parse_program` takes it, with commas between them.
pub fn parse_programs(text: &str) -> Option<ProgramList>
    ensures { result ≡ programs_in text.now }
{
    let mut programs = ProgramList::none();
    let mut rest = text;
    while let Some((first, later)) = rest.split_once(',') {
        programs.push(parse_program(first)?)?;
        rest = later;
    }
    programs.push(parse_program(rest)?)?;
    Some(programs)
}
