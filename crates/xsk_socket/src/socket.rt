//! A socket that is being set up.
ghost use Rattle.std.specs.Prelude.{◌≡◌, Some};
ghost use Rattle.xsk_socket.specs.Rings.{with_ring};
ghost use Rattle.xsk_socket.specs.Setup.{no_socket, ring_in};

/// A kind of ring.
#[derive(Clone, Copy, Debug, PartialEq, Eq)]
pub enum RingKind {
    Rx,
    Tx,
    Fill,
    Comp,
}

/// The port and queue of a socket that is bound.
#[derive(Clone, Copy, Debug, PartialEq, Eq)]
pub struct Binding {
    pub port: u32,
    pub queue: u32,
}

/// A socket: the sizes of its rings, and where it is bound.
#[derive(Clone, Copy, Debug, PartialEq, Eq)]
pub struct Socket {
    pub rx: Option<u32>,
    pub tx: Option<u32>,
    pub fill: Option<u32>,
    pub comp: Option<u32>,
    pub bound: Option<Binding>,
}

impl Socket {
    pub fn new() -> Socket
        ensures { result ≡ no_socket }
    {
        Socket {
            rx: None,
            tx: None,
            fill: None,
            comp: None,
            bound: None,
        }
    }

    /// The size of its ring of a kind, if it has one.
    pub fn ring(self, kind: RingKind) -> Option<u32>
        ensures { result ≡ ring_in kind self }
    {
        match kind {
            RingKind::Rx => self.rx,
            RingKind::Tx => self.tx,
            RingKind::Fill => self.fill,
            RingKind::Comp => self.comp,
        }
    }

    /// The socket with a ring more.
    pub fn with_ring(self, kind: RingKind, size: u32) -> Socket
        ensures { result ≡ with_ring kind size self }
    {
        let size = Some(size);
        match kind {
            RingKind::Rx => Socket { rx: size, ..self },
            RingKind::Tx => Socket { tx: size, ..self },
            RingKind::Fill => Socket { fill: size, ..self },
            RingKind::Comp => Socket { comp: size, ..self },
        }
    }

    /// The socket, bound to a place.
    pub fn bound_to(self, place: Binding) -> Socket
        ensures { result ≡ record self { bound = Some place } }
    {
        Socket {
            bound: Some(place),
            ..self
        }
    }
}
