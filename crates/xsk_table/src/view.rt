//! What a seat of the table knows, the rule, and what each step tells. No value of these types is made: a step's type
//! says what the step tells (`specs/Plays`), and each keeps `specs/Rule`.
ghost use Rattle.std.specs.Prelude.{◌≡◌};

use atomic_table::{Play, Split, TableRule};
use std::marker::{Brand, Model, PhantomData};
use std::snapshot::Snapshot;
use xsk_model::Config;
use xsk_umem::{Frame, Frames};

/// What a seat knows. No value of it is made.
pub struct View;

impl Model for View {
    ghost use Rattle.std.specs.Prelude.{[]};
    ghost use Rattle.xsk_table.specs.View.{View as Seen, no_setup, newcomer};

    ghost Value = { Seen };

    ghost view = { λ _. newcomer no_setup [] };
}

/// What the table is told once.
#[derive(Drop)]
pub struct Key {
    pub config: Snapshot<Config>,
    pub first: u32,
    pub frames: Snapshot<Frames>,
}

impl Model for Key {
    ghost use Rattle.xsk_table.specs.View.{Basis};

    ghost Value = { Basis };

    ghost view = { λ k. record { config = k.config.value; first = k.first; frames = k.frames.value.items } };
}

/// The rule of the table.
pub struct Law;

impl TableRule<Option<Frame>, View, Key> for Law {
    ghost use Rattle.xsk_table.specs.View.{newcomer};
    ghost use Rattle.xsk_table.specs.Rule.{Rule, all_callers};

    ghost holds = { λ k s. Rule k s };

    ghost first = { λ k. newcomer k (all_callers k) };
}

/// What a step is for. Each call of a step picks it.
pub trait Asking {
    ghost use Rattle.xsk_table.specs.Plays.{Purpose};

    ghost ask: { Purpose };
}

impl Asking for Brand {
    ghost use Rattle.xsk_model.specs.declared.call.Ring.TheVariants.{Fill};
    ghost use Rattle.xsk_table.specs.View.{no_setup};
    ghost use Rattle.xsk_table.specs.Plays.{ask_for};

    ghost ask = { ask_for no_setup 0 (Fill 0) 0 };
}

/// The look of a Reserve.
pub struct ReserveStep<J> {
    marker: PhantomData<J>,
}

impl<J: Asking> Play<Option<Frame>, View> for ReserveStep<J> {
    ghost use Rattle.xsk_table.specs.Plays.{reserves};

    ghost then = { reserves J.ask };
}

/// The look, or the write of an entry's second word, that takes the slot of a frame.
pub struct LiftStep<J> {
    marker: PhantomData<J>,
}

impl<J: Asking> Play<Option<Frame>, View> for LiftStep<J> {
    ghost use Rattle.xsk_table.specs.Plays.{lifts};

    ghost then = { lifts J.ask };
}

/// The write of an entry, which gives the slot home with the frame.
pub struct PlaceStep<J> {
    marker: PhantomData<J>,
}

impl<J: Asking> Play<Option<Frame>, View> for PlaceStep<J> {
    ghost use Rattle.xsk_table.specs.Plays.{places};

    ghost then = { places J.ask };
}

/// The raise of the producer.
pub struct RaiseStep<J> {
    marker: PhantomData<J>,
}

impl<J: Asking> Play<Option<Frame>, View> for RaiseStep<J> {
    ghost use Rattle.xsk_table.specs.Plays.{submits};

    ghost then = { submits J.ask };
}

/// The look of a Peek.
pub struct PeekStep<J> {
    marker: PhantomData<J>,
}

impl<J: Asking> Play<Option<Frame>, View> for PeekStep<J> {
    ghost use Rattle.xsk_table.specs.Plays.{peeks};

    ghost then = { peeks J.ask };
}

/// The read of an entry, which takes the slot with the frame.
pub struct FetchStep<J> {
    marker: PhantomData<J>,
}

impl<J: Asking> Play<Option<Frame>, View> for FetchStep<J> {
    ghost use Rattle.xsk_table.specs.Plays.{fetches};

    ghost then = { fetches J.ask };
}

/// The look that gives the slot home, empty.
pub struct SettleStep<J> {
    marker: PhantomData<J>,
}

impl<J: Asking> Play<Option<Frame>, View> for SettleStep<J> {
    ghost use Rattle.xsk_table.specs.Plays.{settles};

    ghost then = { settles J.ask };
}

/// The read of an entry's second word, which gives the slot home, empty.
pub struct ReadStep<J> {
    marker: PhantomData<J>,
}

impl<J: Asking> Play<Option<Frame>, View> for ReadStep<J> {
    ghost use Rattle.xsk_table.specs.Plays.{reads};

    ghost then = { reads J.ask };
}

/// The raise of the consumer.
pub struct ReleaseStep<J> {
    marker: PhantomData<J>,
}

impl<J: Asking> Play<Option<Frame>, View> for ReleaseStep<J> {
    ghost use Rattle.xsk_table.specs.Plays.{releases};

    ghost then = { releases J.ask };
}

/// How the opening deals the callers out.
pub struct CallerSplit;

impl Split<View> for CallerSplit {
    ghost use Rattle.xsk_table.specs.View.{first_caller, other_callers};

    ghost left = { other_callers };

    ghost right = { first_caller };
}
