//! The words of marks, counted from the first mark of each kind.
ghost use Rattle.std.specs.Prelude.{◌≡◌, ◌+◌, ◌*◌, ◌≤◌};
ghost use Rattle.xsk_model.specs.Config.{Config as Setting};
ghost use Rattle.xsk_table.specs.Layout.{mark as word_of_mark, mark_bases, most_ring_words, word_at};

use crate::layout::{MARK, marks_base};
use xsk_model::placement::{first_marks, mark_number};
use xsk_model::{Config, Mark};

/// The words of the first mark of each kind, which are found once for all marks of a configuration.
#[derive(Clone, Copy)]
pub struct MarkBases {
    pub words: [u32; 10],
}

/// The word of the mark at a place, where the words of marks begin at `base`.
fn word_from(base: usize, place: usize) -> u32
    requires { (base ≤ most_ring_words) × (place ≤ 776) }
    ensures { result ≡ base + (8 * place + 7) }
{
    (base + MARK * place + (MARK - 1)) as u32
}

impl MarkBases {
    /// Those of a configuration.
    pub fn of(config: &Config) -> MarkBases
        ensures { result ≡ mark_bases config.now }
    {
        let base = marks_base(config);
        let places = first_marks(config);
        MarkBases {
            words: [
                word_from(base, places[0]),
                word_from(base, places[1]),
                word_from(base, places[2]),
                word_from(base, places[3]),
                word_from(base, places[4]),
                word_from(base, places[5]),
                word_from(base, places[6]),
                word_from(base, places[7]),
                word_from(base, places[8]),
                word_from(base, places[9]),
            ],
        }
    }

    /// The word of a mark.
    #[inline(always)]
    pub fn word(&self, mark: Mark) -> usize
        ensures { (c : Setting) → self.now ≡ mark_bases c → result ≡ word_at c (word_of_mark mark) }
    {
        let (kind, number) = mark_number(mark);
        self.words[kind] as usize + MARK * number
    }
}
