//! Drivers and applications as machines of one kind. An engine knows a worker by this trait alone, and laws of whole
//! runs speak of what it `stands` for.
ghost use Rattle.std.specs.Prelude.{◌≡◌, ℕ, None, Some, List, [], length};
ghost use Rattle.xsk_model.specs.Entry.{Told, with_told};
ghost use Rattle.xsk_model.specs.Expected.{Expected, CanCome, expected_of};
ghost use Rattle.xsk_model.specs.History.{MayGive};
ghost use Rattle.xsk_model.specs.declared.call.Act.{Act};
ghost use Rattle.xsk_model.specs.declared.call.Act.TheVariants.{Call as Calls};
ghost use Rattle.xsk_model.specs.declared.call.Call.{Call};
ghost use Rattle.xsk_model.specs.declared.call.Reply.{Reply};
ghost use Rattle.xsk_turns.specs.Stepping.{joined_answer, joined_ask, IsLent, IsGivenBack};
ghost use Rattle.xsk_turns.specs.Workers.{Setting};
ghost use Rattle.xsk_machine.specs.Acts.{IsDriver, DriverStands, IsApp, AppStands, IsActAfter};

use xsk_app::App;
use xsk_driver::Driver;
use xsk_model::{Answer, Ask};
use xsk_umem::Batch;

/// A worker that makes one call at a time and goes on with its reply, whose items stand in a batch that is lent.
pub trait Machine {
    // What it waits for.
    ghost expected: { Self → Expected };

    // How many packets have their disposals.
    ghost has_settled: { Self → ℕ };

    // It is new, as this caller of a setting.
    ghost is_new: { Setting → ℕ → Self → Type 0 };

    // As this caller it stands for a list of its calls and replies, and gave this act after it.
    ghost stands: { Setting → ℕ → Self → Act → List Told → Type 0 };

    /// How many packets have their disposals; an application has none.
    fn settled(&self) -> usize
        ensures { result ≡ has_settled self.now };

    /// Goes on with the answer to the last call (none at first) and writes the next call, or `None` where it has ended. The
    /// batch has items only where some were taken, and is left with items only for a Submit.
    fn step(&mut self, answer: Option<Answer>, items: &mut Batch, next: &mut Option<Ask>)
        requires comes { CanCome (expected self.old) (joined_answer answer items.old) }
        requires lent { IsLent answer items.old }
        ensures given_back { IsGivenBack next.new items.new }
        ensures expected { expected self.new ≡ expected_of (joined_ask next.new items.new) }
        ensures begins { (s : Setting) (who : ℕ) → is_new s who self.old → joined_answer answer items.old ≡ None
            → stands s who self.new (joined_ask next.new items.new) [] × IsActAfter s who (joined_ask next.new items.new) [] }
        ensures goes_on { (s : Setting) (who : ℕ) (l : List Told) (call : Call) (r : Reply)
            → stands s who self.old (Calls call) l → joined_answer answer items.old ≡ Some r → MayGive s.config l who call r
            → stands s who self.new (joined_ask next.new items.new) (with_told l call r)
            × IsActAfter s who (joined_ask next.new items.new) (with_told l call r) };
}

impl Machine for Driver<'_> {
    ghost expected = { λ d. d.expected };

    ghost has_settled = { λ d. length d.kept.disposals };

    ghost is_new = { IsDriver };

    ghost stands = { DriverStands };

    #[inline(always)]
    fn settled(&self) -> usize {
        self.disposals().len()
    }

    #[inline(always)]
    fn step(&mut self, answer: Option<Answer>, items: &mut Batch, next: &mut Option<Ask>) {
        Driver::step(self, answer, items, next);
    }
}

impl Machine for App<'_> {
    ghost expected = { λ a. a.expected };

    ghost has_settled = { λ _. 0 };

    ghost is_new = { IsApp };

    ghost stands = { AppStands };

    #[inline(always)]
    fn settled(&self) -> usize {
        0
    }

    #[inline(always)]
    fn step(&mut self, answer: Option<Answer>, items: &mut Batch, next: &mut Option<Ask>) {
        App::step(self, answer, items, next);
    }
}
