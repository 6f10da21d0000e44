//! Packets that are made of a number, and what is written of them.
ghost use Rattle.std.specs.Prelude.{◌≡◌, ◌≤◌, ◌<◌, ◌∷◌, [], ◌++◌, All, IfOk, codes, length, map};
ghost use Rattle.std.specs.Fmt.{decimal};
ghost use Rattle.std.specs.List.{concat};
ghost use Rattle.xsk_driver.specs.SentRoom.{IsShort};
ghost use Rattle.xsk_gen.specs.Generator.{first, packet};
ghost use Rattle.xsk_cli.specs.Outcome.{AreTextsBy, capture_of, listed, made_lists, report_on};
ghost use Rattle.xsk_cli.specs.Steps.{CanBeLaid, lists_in, outputs_in, written_in};
ghost use Rattle.xsk_cli.specs.declared.words.Work.TheVariants.{Generate};

use crate::captures::without_room;
use crate::texts::{Outputs, Texts, capture_text};
use std::alloc::Global;
use std::fmt::Write;
use xsk_gen::generate;
use xsk_umem::{OutOfMemory, PacketList};

/// Makes the packets of a number for each of so many ports.
#[tactic(auto, using(crate::proofs::Ports::more_ports))]
pub(crate) fn make_lists(
    alloc: Global,
    number: u32,
    ports: u32,
) -> Result<Vec<PacketList>, OutOfMemory>
    requires { ports ≤ 4 }
    ensures lists { IfOk result (λ lists. lists_in lists.items ≡ made_lists number ports) }
    ensures listed { IfOk result (λ lists. lists.items ≡ map listed (lists_in lists.items)) }
{
    let mut lists = Vec::with_capacity(alloc, ports as usize)?;
    for port in 0..ports {
        let list = make_list(alloc, number, port)?;
        lists.push_reserved(list);
    }
    Ok(lists)
}

/// The packets of a number for a port, with no room for others.
fn make_list(alloc: Global, number: u32, port: u32) -> Result<PacketList, OutOfMemory>
    requires { port < 4 }
    ensures { IfOk result (λ list. list ≡ listed (first 2000 (packet number port))) }
{
    let list = generate(alloc, number, port)?;
    Ok(without_room(list))
}

/// The capture of the packets that are made of a number for the first port, and the line that counts them.
pub(crate) fn generated_texts(alloc: Global, number: u32) -> Result<Texts, OutOfMemory>
    ensures made { IfOk result (λ texts. AreTextsBy (Generate number) (made_lists number 1) (written_in [] texts)) }
    ensures laid { IfOk result (λ texts. CanBeLaid [] texts.outputs) }
{
    let list = make_list(alloc, number, 0)?;
    made_texts(alloc, &list)
}

/// The capture of packets, and the line that counts them.
fn made_texts(alloc: Global, list: &PacketList) -> Result<Texts, OutOfMemory>
    requires short { All IsShort list.now.packets }
    requires few { length list.now.packets ≤ 65536 }
    requires small { length (concat list.now.packets) ≤ 33554432 }
    ensures outputs { IfOk result (λ texts. outputs_in [] texts.outputs ≡ capture_of list.now.packets ∷ []) }
    ensures laid { IfOk result (λ texts. CanBeLaid [] texts.outputs) }
    ensures report { IfOk result (λ texts. texts.report.items ≡ report_on list.now.packets) }
{
    let mut texts = Vec::with_capacity(alloc, 1)?;
    let text = capture_text(alloc, list)?;
    texts.push_reserved(text);
    let report = count_text(alloc, list.len(), list.bytes())?;
    Ok(Texts {
        outputs: Outputs::Copied(texts),
        report,
    })
}

/// The one line of the report.
fn count_text(alloc: Global, packets: u32, bytes: u64) -> Result<Vec<u8>, OutOfMemory>
    ensures { IfOk result (λ text. text.items ≡ codes "packets " ++ decimal packets ++ codes " bytes " ++ decimal bytes ++ codes "\n") }
{
    let mut report = String::new(alloc);
    writeln!(report, "packets {packets} bytes {bytes}")?;
    Ok(report.into_bytes())
}
