//! Each caller of a run gets its pass, its machine and its parker: those of its own number, in the order of the numbers (`seat_at`), so
//! nobody makes another's calls.
ghost use Rattle.std.specs.Prelude.{◌≡◌, ℕ, ◌≤◌, ◌==◌, [], map, length, false, true, IfOk, vec_capacity};
ghost use Rattle.std.specs.List.{range_with_len};
ghost use Rattle.xsk_model.specs.Config.{IsRegular, callers_of};
ghost use Rattle.xsk_model.specs.Expected.{nothing};
ghost use Rattle.xsk_turns.specs.Owned.{IsSteady};
ghost use Rattle.xsk_machine.specs.Workers.{AreNew};
ghost use Rattle.xsk_table.specs.View.{idle};
ghost use Rattle.xsk_table.specs.Opening.{new_passes};
ghost use Rattle.xsk_workers.specs.Crew.{Seat};
ghost use Rattle.xsk_workers.specs.Terms.{setting_over};
ghost use Rattle.xsk_workers.specs.Shown.{seat_of, seat_with, seat_at};
ghost use Rattle.xsk_workers.specs.Hands.{SuitHands, team_seat};
ghost use Rattle.xsk_workers.specs.Members.{either_seat, member_seat};
ghost use Rattle.xsk_workers.specs.Parking.{IsParkerOf, token_of, token_in};
ghost use Rattle.xsk_workers.specs.Gathering.{AreTaken};

use crate::context::{Source, Terms, Verdicts};
use crate::member::Member;
use crate::plan::{HandsPlan, Rest};
use crate::team::Team;
use crate::worker::Worker;
use crossbeam_utils::sync::Parker;
use xsk_app::side_pair;
use xsk_driver::Driver;
use xsk_machine::{AnyWorker, Machine, worker_of};
use xsk_shared_ends::Ends;
use xsk_table::{Pass, Passes, Shared};
use xsk_umem::OutOfMemory;

/// A caller of a run: a driver or an application by itself, or an application by several hands.
pub(crate) type Caller<'a, V> = Member<Worker<'a, AnyWorker<'a>, V>, Team<'a, V>>;

/// A member for each caller, with its pass: the drivers of all pairs, each with its parker where they sleep, and then the
/// applications by so many hands.
pub(crate) fn seat_members<'a, V: Verdicts>(
    shared: &Shared,
    source: Source<'a, V>,
    drivers: Vec<Driver<'a>>,
    parkers: Vec<Parker>,
    passes: &mut Passes,
) -> Result<Vec<Caller<'a, V>>, OutOfMemory>
    requires suit { SuitHands source.terms.hands source.terms.config.now }
    requires regular { IsRegular source.terms.config.now }
    requires count { length drivers.items ≡ length source.terms.config.now.pairs }
    requires new { AreNew (setting_over source.terms V.verdicts) 0 drivers.items }
    requires table { shared.now.setup.config ≡ source.terms.config.now }
    requires parkers { map token_in parkers.items ≡ map token_of source.wakers.now }
    requires few { length source.wakers.now ≤ length source.terms.config.now.pairs }
    requires passes { passes.old ≡ new_passes shared.now }
    ensures taken { IfOk result (λ members. AreTaken shared.now (callers_of shared.now.setup.config) passes.new) }
    ensures seats { IfOk result (λ members. map member_seat members.items
        ≡ map (seat_at source.entry.terms.hands (setting_over source.entry.terms V.verdicts) shared.now) (range_with_len 0 (callers_of shared.now.setup.config))) }
{
    let callers = source.terms.config.callers();
    let mut members = Vec::with_capacity(source.terms.alloc, callers as usize)?;
    seat_drivers(shared, source, drivers, parkers, passes, &mut members);
    for who in source.terms.config.pairs().len() as u32..callers {
        let Some(pass) = passes.take(who) else {
            unreachable!()
        };
        let member = seat_app(source, pass)?;
        members.push_reserved(member);
    }
    Ok(members)
}

/// The driver of each pair, with its pass, and its parker where it sleeps.
fn seat_drivers<'a, V: Verdicts>(
    shared: &Shared,
    source: Source<'a, V>,
    drivers: Vec<Driver<'a>>,
    parkers: Vec<Parker>,
    passes: &mut Passes,
    members: &mut Vec<Caller<'a, V>>,
)
    requires count { length drivers.items ≡ length source.terms.config.now.pairs }
    requires new { AreNew (setting_over source.terms V.verdicts) 0 drivers.items }
    requires table { shared.now.setup.config ≡ source.terms.config.now }
    requires parkers { map token_in parkers.items ≡ map token_of source.wakers.now }
    requires passes { passes.old ≡ new_passes shared.now }
    requires none { members.old.items ≡ [] }
    requires room { length source.terms.config.now.pairs ≤ vec_capacity members.old }
    ensures room { vec_capacity members.new ≡ vec_capacity members.old }
    ensures taken { AreTaken shared.now (length source.entry.terms.config.now.pairs) passes.new }
    ensures seats { (hands : ℕ) → map member_seat members.new.items
        ≡ map (seat_at hands (setting_over source.entry.terms V.verdicts) shared.now) (range_with_len 0 (length source.entry.terms.config.now.pairs)) }
{
    let pairs = source.terms.config.pairs().len() as u32;
    let mut drivers = drivers.into_iter();
    let mut parkers = parkers.into_iter();
    for who in 0..pairs {
        let Some(pass) = passes.take(who) else {
            unreachable!()
        };
        let Some(driver) = drivers.next() else {
            unreachable!()
        };
        let machine = AnyWorker::Driver(driver);
        let member = seat_alone(source, machine, pass, parkers.next());
        members.push_reserved(member);
    }
}

/// An application, with its pass: one machine makes all calls with one hand, and else a team.
fn seat_app<'a, V: Verdicts>(
    source: Source<'a, V>,
    pass: Pass,
) -> Result<Caller<'a, V>, OutOfMemory>
    requires suit { SuitHands source.terms.hands source.terms.config.now }
    requires regular { IsRegular source.terms.config.now }
    requires unused { (pass.view.flight ≡ idle) × (pass.view.seen ≡ []) × (pass.view.setup.config ≡ source.terms.config.now) }
    requires app { length source.terms.config.now.pairs ≤ pass.who }
    requires few { length source.wakers.now ≤ length source.terms.config.now.pairs }
    ensures { IfOk result (λ member. member_seat member
        ≡ seat_with (setting_over source.entry.terms V.verdicts) pass (source.entry.terms.hands == 1)) }
{
    if source.terms.hands == 1 {
        return seat_one(source, pass);
    }
    let team = seat_team(source, pass)?;
    Ok(Member::Several(team))
}

/// The machine of an application, with its pass.
fn seat_one<'a, V: Verdicts>(
    source: Source<'a, V>,
    pass: Pass,
) -> Result<Caller<'a, V>, OutOfMemory>
    requires regular { IsRegular source.terms.config.now }
    requires unused { (pass.view.flight ≡ idle) × (pass.view.seen ≡ []) × (pass.view.setup.config ≡ source.terms.config.now) }
    requires app { length source.terms.config.now.pairs ≤ pass.who }
    requires few { length source.wakers.now ≤ length source.terms.config.now.pairs }
    ensures { IfOk result (λ member. member_seat member
        ≡ seat_with (setting_over source.entry.terms V.verdicts) pass true) }
{
    let Terms {
        alloc,
        config,
        manner,
        ..
    } = source.terms;
    let machine = worker_of(alloc, config, None, pass.caller(), manner)?;
    Ok(seat_alone(source, machine, pass, None))
}

/// A machine by itself, with its pass, and its parker where it sleeps.
fn seat_alone<'a, M: Machine + Drop, V: Verdicts, B>(
    source: Source<'a, V>,
    machine: M,
    pass: Pass,
    parker: Option<Parker>,
) -> Member<Worker<'a, M, V>, B>
    requires expected { M.expected machine ≡ nothing }
    requires pass { (pass.view.flight ≡ idle) × (pass.view.seen ≡ []) × (pass.view.setup.config ≡ (setting_over source.terms V.verdicts).config) }
    requires machine { M.is_new (setting_over source.terms V.verdicts) pass.who machine }
    requires parker { IsParkerOf (map token_of source.wakers.now) pass.who parker }
    ensures { (several : B → Seat) → either_seat seat_of several result ≡ seat_with (setting_over source.entry.terms V.verdicts) pass true }
{
    Member::One(Worker::new(source, machine, pass, parker))
}

/// The team of an application, with its pass.
fn seat_team<'a, V: Verdicts>(source: Source<'a, V>, pass: Pass) -> Result<Team<'a, V>, OutOfMemory>
    requires steady { IsSteady source.terms.config.now }
    requires unused { (pass.view.flight ≡ idle) × (pass.view.seen ≡ []) × (pass.view.setup.config ≡ source.terms.config.now) }
    requires app { length source.terms.config.now.pairs ≤ pass.who }
    ensures { IfOk result (λ team. team_seat team ≡ seat_with (setting_over source.entry.terms V.verdicts) pass false) }
{
    let Terms {
        alloc,
        config,
        hands,
        ..
    } = source.terms;
    let who = pass.caller();
    let app = who - config.pairs().len() as u32;
    let plan = HandsPlan {
        alloc,
        hands,
        base: config.callers().saturating_add(app.saturating_mul(hands)),
        pairs: [side_pair(config, app, 0), side_pair(config, app, 1)],
    };
    let rest = Rest { source, who, plan };
    match Ends::new(alloc, config, pass) {
        Ok(ends) => Ok(Team::new(rest, ends)),
        Err(_) => Err(OutOfMemory),
    }
}
