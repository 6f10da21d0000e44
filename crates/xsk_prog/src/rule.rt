//! Verdicts, and rules that say which verdicts a packet may have.
ghost use Rattle.std.specs.Prelude.{◌≡◌, ◌<◌, ◌≤◌, length};
ghost use Rattle.xsk_model.specs.Steering.{packet_cell as packet_cell_of};
ghost use Rattle.xsk_prog.specs.Rules.{HasSockets, IsRuled, IsSocketCount, Meets, ether_type_of, verdict_of};

use xsk_model::steering::packet_cell;

/// What a program answers of a packet (XDP_DROP, XDP_PASS, XDP_REDIRECT and XDP_TX).
#[derive(Clone, Copy, Debug, PartialEq, Eq)]
pub enum Verdict {
    /// The packet is dropped.
    Drop,
    /// It goes to the system's own network stack, which isn't simulated.
    Pass,
    /// It is redirected to the socket in this cell of its port's XSKMAP.
    Redirect(u32),
    /// It leaves by the port on which it came.
    Bounce,
}

/// Which verdicts a packet may have. All rules but `AtMost` leave exactly one.
#[derive(Clone, Copy, Debug, PartialEq, Eq)]
pub enum Rule {
    /// Each packet is redirected to the cell of its queue and class, where each queue has so many sockets.
    Redirect { sockets: u32 },
    /// Each packet is dropped.
    Drop,
    /// Each packet passes.
    Pass,
    /// A packet of this EtherType is redirected as by `Redirect`, and each other packet passes.
    EtherType { kind: u16, sockets: u32 },
    /// Each packet is redirected to this cell.
    Fixed(u32),
    /// Each packet is dropped, passes, or is redirected to a cell below this number.
    AtMost(u32),
    /// Each packet bounces.
    Bounce,
    /// A packet of this EtherType bounces, and each other packet passes.
    BounceType { kind: u16 },
}

impl Rule {
    /// A verdict that meets the rule for a packet of 14 to 262,144 bytes on a queue below 4: the only one, and for
    /// `AtMost` that the packet is dropped. The rule's `sockets`, where it has them, are 1 to 64.
    pub fn verdict(&self, packet: &[u8], queue: u32) -> Verdict
        requires sockets { HasSockets self.now }
        requires packet { IsRuled packet.now queue }
        ensures value { result ≡ verdict_of self.now packet.now queue }
        ensures meets { Meets self.now packet.now queue result }
    {
        match *self {
            Rule::Redirect { sockets } => Verdict::Redirect(cell_of(packet, queue, sockets)),
            Rule::Drop => Verdict::Drop,
            Rule::Pass => Verdict::Pass,
            Rule::EtherType { kind, sockets } if ether_type(packet) == kind => {
                Verdict::Redirect(cell_of(packet, queue, sockets))
            }
            Rule::EtherType { .. } => Verdict::Pass,
            Rule::Fixed(cell) => Verdict::Redirect(cell),
            Rule::AtMost(_) => Verdict::Drop,
            Rule::Bounce => Verdict::Bounce,
            Rule::BounceType { kind } if ether_type(packet) == kind => Verdict::Bounce,
            Rule::BounceType { .. } => Verdict::Pass,
        }
    }
}

/// The cell of a packet's queue and class, where each queue has so many sockets. No byte is read where it has one.
fn cell_of(packet: &[u8], queue: u32, sockets: u32) -> u32
    requires sockets { IsSocketCount sockets }
    requires queue { queue < 4 }
    ensures { result ≡ packet_cell_of sockets queue packet.now }
{
    if sockets == 1 {
        return queue;
    }
    packet_cell(packet, queue, sockets)
}

/// The EtherType of a packet with an Ethernet header: the two bytes behind both addresses, big endian.
fn ether_type(packet: &[u8]) -> u16
    requires { 14 ≤ length packet.now }
    ensures { result ≡ ether_type_of packet.now }
{
    u16::from_be_bytes([packet[12], packet[13]])
}
