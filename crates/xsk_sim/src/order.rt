//! The order of the workers in each round.
ghost use Rattle.std.specs.Prelude.{◌≡◌, ◌<◌, ◌*◌, ◌/◌, ◌%◌, ◌^◌};

/// The order numbers of rounds: each is the one before it times 1103515245, modulo 2^32.
#[derive(Clone, Copy)]
pub(crate) struct Order {
    number: u32,
}

const FACTOR: u64 = 1_103_515_245;

impl Order {
    pub(crate) fn new(number: u32) -> Order
        ensures { result.number ≡ number }
    {
        Order { number }
    }

    /// The caller that begins the round, of so many, after which the next round's order stands.
    pub(crate) fn start(&mut self, callers: u32) -> u32
        requires { 0 < callers }
        ensures start { result ≡ (self.old.number / 65536) % callers }
        ensures next { self.new.number ≡ (self.old.number * 1103515245) % 2 ^ 32 }
    {
        let start = (self.number >> 16) % callers;
        self.number = (u64::from(self.number) * FACTOR % (1 << 32)) as u32;
        start
    }
}
