//! In which format packets are read and written.
ghost use Rattle.std.specs.Prelude.{◌≡◌};
ghost use Rattle.xsk_cli.specs.Format.{files_of, most_input};

/// The format of the files.
#[derive(Clone, Copy)]
pub enum Format {
    /// A capture for each port (pcap-savefile(5)).
    Pcap,
    /// One file whose interfaces are the ports (pcapng draft).
    Pcapng,
}

impl Format {
    /// How many files so many ports have.
    pub(crate) fn files(self, ports: u32) -> u32
        ensures { result ≡ files_of self ports }
    {
        match self {
            Format::Pcap => ports,
            Format::Pcapng => 1,
        }
    }

    /// The most bytes of one input: a capture of 65,536 packets with 33,554,432 captured bytes, or 64 MiB.
    pub(crate) fn most_input(self) -> usize
        ensures { result ≡ most_input self }
    {
        match self {
            Format::Pcap => 24 + 16 * 65_536 + 33_554_432,
            Format::Pcapng => 67_108_864,
        }
    }
}
