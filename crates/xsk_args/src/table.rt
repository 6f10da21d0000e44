//! The tables of a command's options.
ghost use Rattle.std.specs.Prelude.{◌≡◌};
ghost use Rattle.xsk_args.specs.Meaning.{number_unsaid};

/// What value an option takes.
#[derive(Clone, Copy)]
pub enum Takes {
    /// None: the option is a flag.
    Nothing,
    /// One to ten decimal digits, at most 4,294,967,295.
    Number,
    /// One to eight of `redirect`, `pass`, `drop`, `type:HHHH`, `fixed:N`, `bounce` and `bounce:HHHH`, with commas between them.
    Program,
    /// One of these words.
    OneOf(&'static [&'static str]),
    /// Any word.
    AnyText,
}

/// What stands where an option isn't said.
#[derive(Clone, Copy)]
pub enum Unsaid {
    /// This number.
    Number(u32),
    /// What these words tell, and no number.
    Told(&'static str),
}

impl Unsaid {
    /// The number, and 0 where none stands.
    pub fn number(self) -> u32
        ensures { result ≡ number_unsaid self }
    {
        match self {
            Unsaid::Number(number) => number,
            Unsaid::Told(_) => 0,
        }
    }
}

/// An option that a command has, and what is told of it to who asks. Words are read by its name, by what it takes and by the number
/// that stands where it isn't said.
#[derive(Clone, Copy)]
pub struct OptionRow {
    /// The name without its two hyphens.
    pub name: &'static str,
    pub takes: Takes,
    /// What it is, in a line.
    pub about: &'static str,
    /// Which values are accepted. A flag has none.
    pub accepts: &'static str,
    pub unsaid: Unsaid,
}
