//! How an application treats the items that it submits on TX: as it should, or as a broken or hostile one would.
ghost use Rattle.std.specs.Prelude.{◌≡◌};
ghost use Rattle.xsk_turns.specs.Mangling.{plain};

/// How an application behaves.
#[derive(Clone, Copy, Debug, PartialEq, Eq)]
pub struct Manner {
    /// Of the items that it submits on TX, numbered from 0 in that order, those whose number leaves `every - 1` when divided
    /// by `every` are changed, in turn as the changes are listed; with 0 each packet goes on. `None` changes nothing.
    pub mangle: Option<u32>,
    /// How many items come on the RX ring of the socket that it closes before it closes it.
    pub after: u32,
}

impl Manner {
    /// It changes nothing.
    pub fn plain() -> Manner
        ensures { result ≡ plain }
    {
        Manner {
            mangle: None,
            after: 0,
        }
    }
}

/// What is done to an item, in the order in which the changes take turns.
#[derive(Clone, Copy, Debug, PartialEq, Eq)]
pub enum Change {
    /// Its length is 0.
    NoBytes,
    /// Its length is the chunk size.
    WholeChunk,
    /// Its options are 2, which if_xdp.h has as XDP_TX_METADATA, and a driver without metadata takes for unknown.
    UnknownOption,
    /// Its address lies behind the UMEM, and it has no frame.
    Outside,
    /// Its options are 1, XDP_PKT_CONTD, so its packet goes on.
    GoesOn,
}
