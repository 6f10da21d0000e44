//! What a pass keeps of a ring.

/// Two counts of a caller on a ring, and where the ring's words stand.
#[derive(Clone, Copy)]
pub struct End {
    /// The word that the caller raises.
    pub near: u32,
    /// As far as it may raise it.
    pub far: u32,
    /// The ring's first word.
    pub base: usize,
    /// The ring's size, less one.
    pub mask: u32,
    /// What the last look at the other side's count found, less what was had of it since: free places, or items.
    pub known: u32,
}
