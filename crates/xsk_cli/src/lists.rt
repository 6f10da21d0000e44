//! The packets of all ports, from files or made.
ghost use Rattle.std.specs.Prelude.{◌≡◌, None, IfErr, IfOk, length, map};
ghost use Rattle.xsk_cli.specs.Forward.{IsRun};
ghost use Rattle.xsk_cli.specs.Judged.{AreShort, excess_of};
ghost use Rattle.xsk_cli.specs.Outcome.{AreListsOf, listed};
ghost use Rattle.xsk_cli.specs.Steps.{IsBeforeRun, MakesNone, lists_in, read_by};
ghost use Rattle.xsk_cli.specs.Words.{fault_in, most_of, ports_in};

use crate::captures::take_captures;
use crate::failure::RunFailure;
use crate::files::take_file;
use crate::format::Format;
use crate::made::make_lists;
use crate::words::Work;
use std::alloc::Global;
use xsk_umem::PacketList;

/// The packets of all ports: those of the files, or those that are made.
pub(crate) fn take_lists(
    alloc: Global,
    work: &Work,
    inputs: Vec<Vec<u8>>,
) -> Result<Vec<PacketList>, RunFailure>
    requires accepted { fault_in work.now ≡ None }
    requires runs { IsRun work.now }
    requires count { length inputs.items ≡ read_by work.now }
    requires short { AreShort (most_of work.now) (map (λ bytes. bytes.items) inputs.items) (length inputs.items) }
    ensures taken { IfOk result (λ lists. AreListsOf work.now (map (λ bytes. bytes.items) inputs.items) (lists_in lists.items)) }
    ensures within { IfOk result (λ lists. excess_of (lists_in lists.items) ≡ None) }
    ensures count { IfOk result (λ lists. length lists.items ≡ ports_in work.now) }
    ensures listed { IfOk result (λ lists. lists.items ≡ map listed (lists_in lists.items)) }
    ensures failed { IfErr result (MakesNone work.now (map (λ bytes. bytes.items) inputs.items)) }
    ensures no_run { IfErr result IsBeforeRun }
{
    match work {
        Work::Simulate {
            layout,
            number: None,
            format,
            ..
        } => match format {
            Format::Pcap => take_captures(alloc, inputs),
            Format::Pcapng => take_file(alloc, inputs, layout.ports),
        },
        Work::Simulate {
            layout,
            number: Some(number),
            ..
        } => Ok(make_lists(alloc, *number, layout.ports)?),
        Work::Generate { .. } | Work::Audit { .. } => unreachable!(),
    }
}
