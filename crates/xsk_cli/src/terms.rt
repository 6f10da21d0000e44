//! The terms of a command's run, lent from its work.
ghost use Rattle.xsk_cli.specs.Forward.{IsRun};
ghost use Rattle.xsk_cli.specs.Terms.{AreTermsOf};

use crate::format::Format;
use crate::words::{Telling, Work};
use xsk_args::ProgramList;
use xsk_socket::Layout;
use xsk_turns::{Manner, Wire};

/// The terms of a command's run: the layout, the programs that are asked of each packet, the wire, the applications' manner, the number
/// of the rounds' order where it is one in rounds, what is told of it beside its report, and the format of the files.
#[derive(Clone, Copy)]
pub(crate) struct Terms<'a> {
    pub(crate) layout: &'a Layout,
    pub(crate) programs: &'a ProgramList,
    pub(crate) wire: Wire,
    pub(crate) manner: Manner,
    pub(crate) order: u32,
    pub(crate) telling: Telling,
    pub(crate) format: Format,
}

impl<'a> Terms<'a> {
    /// Those of work that is a run.
    pub(crate) fn of(work: &'a Work) -> Terms<'a>
        requires { IsRun work.now }
        ensures { AreTermsOf work.now result }
    {
        match work {
            Work::Simulate {
                layout,
                programs,
                wire,
                manner,
                order,
                telling,
                format,
                ..
            } => Terms {
                layout,
                programs,
                wire: *wire,
                manner: *manner,
                order: *order,
                telling: *telling,
                format: *format,
            },
            Work::Generate { .. } | Work::Audit { .. } => unreachable!(),
        }
    }
}
