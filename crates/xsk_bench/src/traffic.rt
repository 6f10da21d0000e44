//! What is received: a list of packets for each port, with the driver to which each packet goes.
use std::alloc::Global;
use std::marker::Model;
use xsk_machine::Inputs;
use xsk_model::Config;
use xsk_umem::{OutOfMemory, PacketList};

/// The packets that each port receives, and to which driver each of them goes.
#[derive(Drop)]
pub struct Traffic {
    config: Config,
    packets: Vec<PacketList>,
    inputs: Inputs,
}

impl Model for Traffic {
    ghost use Rattle.xsk_bench.specs.Traffic.{Received, received_of, IsSplit};

    ghost Value = { Received };

    ghost view = { received_of };

    ghost invariant = { IsSplit };
}

impl Traffic {
    ghost use Rattle.std.specs.Prelude.{◌≡◌, All, IfOk, length};
    ghost use Rattle.xsk_turns.specs.Inputs.{inputs_of};
    ghost use Rattle.xsk_turns.specs.Owned.{IsSteady};
    ghost use Rattle.xsk_machine.specs.Acts.{HasShortPackets};

    /// The packets of a regular configuration in which no socket is closed: one list for each port, none of which has a packet
    /// of more than 262,144 bytes. A packet goes to the driver of its queue (`Inputs::split`).
    pub fn new(
        alloc: Global,
        config: Config,
        packets: Vec<PacketList>,
    ) -> Result<Traffic, OutOfMemory>
        requires steady { IsSteady config }
        requires lists { length packets.items ≡ config.ports }
        requires short { All HasShortPackets packets.items }
        ensures { IfOk result (λ traffic. traffic ≡ record { config = config; packets = packets.items }) }
    {
        let inputs = Inputs::split(alloc, &config, packets.as_slice())?;
        Ok(Traffic {
            config,
            packets,
            inputs,
        })
    }

    /// The configuration.
    pub fn config(&self) -> &Config
        ensures value { result.now ≡ self.now.config }
        ensures steady { IsSteady self.now.config }
    {
        &self.config
    }

    /// The packets of each port.
    pub fn packets(&self) -> &[PacketList]
        ensures value { result.now ≡ self.now.packets }
        ensures lists { length self.now.packets ≡ self.now.config.ports }
        ensures short { All HasShortPackets self.now.packets }
    {
        self.packets.as_slice()
    }

    /// The numbers of each driver's packets.
    pub(crate) fn inputs(&self) -> &Inputs
        ensures { result.now ≡ inputs_of self.now.config self.now.packets }
    {
        &self.inputs
    }
}
