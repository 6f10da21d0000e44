//! Laws of words, and what follows from what the steps of a table tell, each the contract of a function that does nothing.
ghost use Rattle.xsk_model.specs.Config.{HasRing};
ghost use Rattle.xsk_table.specs.Known.{IsLeft};
ghost use Rattle.xsk_table.specs.Held.{known_on};
ghost use Rattle.xsk_table.specs.Layout.{OwnWords};
ghost use Rattle.xsk_table.specs.Laws.{FindsWhatWasSeen};
ghost use Rattle.xsk_table.specs.Words.{PackedBack, UnpackedBack, UsedIs};

use crate::pass::Pass;
use xsk_model::Ring;

/// Each word has a place of its own.
pub fn own_words()
    ensures { OwnWords }
{}

/// A descriptor is as it was, packed and unpacked.
pub fn packed_back()
    ensures { PackedBack }
{}

/// So are two words, unpacked and packed.
pub fn unpacked_back()
    ensures { UnpackedBack }
{}

/// Counts that are less than 2^32 apart are as far apart as their words say.
pub fn used_is()
    ensures { UsedIs }
{}

/// A Peek finds items where its consumer has seen that more came into the ring than it has peeked.
pub fn finds_what_was_seen()
    ensures { FindsWhatWasSeen }
{}

/// What a pass knows of a ring is what its last look at the other side found, less what it had since.
pub fn known_is_left(pass: &Pass, ring: Ring)
    requires { HasRing pass.now.view.setup.config ring }
    ensures { IsLeft pass.now.view.setup pass.now.who pass.now.view.seen ring (known_on pass.now ring) }
{
    let (_caller, _ring) = (pass.who, ring);
}
