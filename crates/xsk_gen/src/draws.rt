//! The numbers that the generator draws.
ghost use Rattle.std.specs.Prelude.{◌≡◌, ◌<◌};
ghost use Rattle.xsk_gen.specs.Generator.{drawn, first_state, next_state};

/// Draws of numbers, one after another.
#[derive(Drop)]
pub(crate) struct Draws {
    pub(crate) state: u32,
}

impl Draws {
    /// The draws for a number and a port.
    pub(crate) fn new(number: u32, port: u32) -> Draws
        requires { port < 4 }
        ensures { result.state ≡ first_state number port }
    {
        Draws {
            state: number.wrapping_add(65_536 * port),
        }
    }

    /// The next draw, below 65,536.
    pub(crate) fn next(&mut self) -> u32
        ensures state { self.new.state ≡ next_state self.old.state }
        ensures value { result ≡ drawn self.new.state }
    {
        self.state = self.state.wrapping_mul(1_103_515_245).wrapping_add(12_345);
        self.state / 65_536
    }
}
