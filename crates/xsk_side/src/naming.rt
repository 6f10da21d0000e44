//! The frames that entries name, and the entries that may come on RX.
ghost use Rattle.std.specs.Prelude.{◌≡◌, ◌<◌, if◌then◌else◌, IfSome, Some, None};
ghost use Rattle.xsk_model.specs.Descriptor.{is_inside, is_valid as lawful};
ghost use Rattle.xsk_side.specs.Entries.{frame as frame_number, is_laid as laid, is_received as may_come};

use crate::Setting;
use xsk_umem::{RESERVED, XDP_PKT_CONTD, XdpDesc};

impl Setting {
    /// The frame in which the entry's address lies, if it lies in the UMEM.
    pub fn frame(&self, entry: XdpDesc) -> Option<u32>
        ensures value { result ≡ (if is_inside self.now.geometry entry then Some (frame_number self.now entry) else None) }
        ensures known { IfSome result (λ frame. frame < self.now.geometry.frames) }
    {
        let chunk = u64::from(self.chunk());
        if entry.addr >= u64::from(self.frames()) * chunk {
            return None;
        }
        Some((entry.addr / chunk) as u32)
    }

    /// Whether a kernel may put the entry into RX, but for where its frame is: it is a valid descriptor, and where the kernel lays
    /// packets in copy mode it lies as that lays them.
    pub fn is_received(&self, entry: XdpDesc) -> bool
        ensures { result ≡ may_come self.now entry }
    {
        self.is_valid(entry) && (!self.rules().at_data || self.is_laid(entry))
    }

    fn is_valid(&self, entry: XdpDesc) -> bool
        ensures { result ≡ lawful self.now.geometry self.now.rules.sg entry }
    {
        let chunk = u64::from(self.chunk());
        entry.addr < u64::from(self.frames()) * chunk
            && entry.len != 0
            && entry.addr % chunk + u64::from(entry.len) <= chunk
            && (entry.options == 0 || (self.rules().sg && entry.options == XDP_PKT_CONTD))
    }

    fn is_laid(&self, entry: XdpDesc) -> bool
        ensures { result ≡ laid self.now entry }
    {
        let chunk = u64::from(self.chunk());
        let behind = self.headroom() + RESERVED;
        entry.addr % chunk == u64::from(behind)
            && (entry.options == 0 || entry.len == self.chunk() - behind)
    }
}
