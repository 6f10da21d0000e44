//! The entries that one call puts into a ring, or is shown.
ghost use Rattle.std.specs.Prelude.{◌≡◌};

use std::alloc::Global;
use std::marker::Model;
use xsk_umem::XdpDesc;

/// Any number of entries, in the order of their ring. FILL and COMPLETION have addresses alone: length and options are 0.
#[derive(Debug, Drop)]
pub struct Entries {
    items: Vec<XdpDesc>,
}

impl Model for Entries {
    ghost use Rattle.std.specs.Prelude.{List};
    ghost use Rattle.xsk_umem.specs.declared.batch.XdpDesc.{XdpDesc};

    ghost Value = { List XdpDesc };

    ghost view = { λ e. e.items.items };

    ghost invariant = { λ e. Unit {0} };
}

impl Entries {
    /// The entries of a list.
    pub fn of_vec(items: Vec<XdpDesc>) -> Entries
        ensures { result ≡ items.items }
    {
        Entries { items }
    }

    /// The entries, in order.
    pub fn as_slice(&self) -> &[XdpDesc]
        ensures { result.now ≡ self.now }
    {
        self.items.as_slice()
    }

    /// The list of the entries, with the memory that it had.
    pub fn into_vec(self) -> Vec<XdpDesc>
        ensures { result.items ≡ self }
    {
        self.items
    }
}
