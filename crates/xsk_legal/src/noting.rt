//! What a standing notes of a whole call and its reply.
ghost use Rattle.std.specs.Prelude.{◌≡◌, ◌↔◌, ℕ, List, IsTrue};
ghost use Rattle.xsk_umem.specs.declared.batch.Item.{Item};
ghost use Rattle.xsk_model.specs.Asks.{joined_call, joined_reply};
ghost use Rattle.xsk_model.specs.Entry.{Told, with_told};
ghost use Rattle.xsk_model.specs.Legal.{IsLegal};
ghost use Rattle.xsk_model.specs.History.{MayGive, Fits};
ghost use Rattle.xsk_model.specs.declared.call.Call.TheVariants.{Submit, Peek, Swap, Look};
ghost use Rattle.xsk_model.specs.declared.call.Reply.TheVariants.{Submitted, Items, Old};
ghost use Rattle.xsk_legal.specs.Given.{StandsGiven};
ghost use Rattle.xsk_legal.specs.ItemNotes.{IsFor};
ghost use Rattle.xsk_legal.specs.Standing.{StandsFor};

use crate::Standing;
use xsk_model::{Answer, Ask, Config, Ring};
use xsk_umem::Batch;

impl Standing {
    /// Notes what a legal call gives, before it is made: the items of a Submit, and the places of a Release.
    pub fn gives(&mut self, config: &Config, ask: Ask, items: &Batch)
        requires legal { (mine : List Told) × StandsFor config.now self.old mine × IsLegal config.now mine self.old.who (joined_call ask items.now) }
        ensures caller { self.new.who ≡ self.old.who }
        ensures given { (mine : List Told) → StandsFor config.now self.old mine → IsLegal config.now mine self.old.who (joined_call ask items.now)
            → StandsGiven config.now self.new mine (joined_call ask items.now) }
    {
        match ask {
            Ask::Submit(ring) => self.submitted(config, ring, items),
            Ask::Release(ring, count) => self.released(config, ring, count),
            Ask::Reserve(_, _) | Ask::Peek(_, _) | Ask::Swap(_, _) | Ask::Look(_) => {}
        }
    }

    /// Notes what a call got, once it was made: the places of a Reserve, the items of a Peek, and the number of a Swap or
    /// a Look.
    pub fn got(&mut self, config: &Config, ask: Ask, answer: Answer, items: &Batch)
        requires may { (mine : List Told) × (given : List Item) × StandsGiven config.now self.old mine (joined_call ask given)
            × MayGive config.now mine self.old.who (joined_call ask given) (joined_reply answer items.now) }
        ensures caller { self.new.who ≡ self.old.who }
        ensures stands { (mine : List Told) (given : List Item) → StandsGiven config.now self.old mine (joined_call ask given)
            → MayGive config.now mine self.old.who (joined_call ask given) (joined_reply answer items.now)
            → StandsFor config.now self.new (with_told mine (joined_call ask given) (joined_reply answer items.now)) }
    {
        match ask {
            Ask::Reserve(ring, count) => {
                if is_granted(answer) {
                    self.granted(config, ring, count);
                }
            }
            Ask::Peek(ring, _) => {
                if has_items(answer) {
                    self.peeked(config, ring, items);
                }
            }
            Ask::Submit(_) => {}
            Ask::Release(_, _) => {}
            Ask::Swap(mark, value) => {
                if let Answer::Old(_) = answer {
                    self.swapped(config, mark, value);
                }
            }
            Ask::Look(mark) => {
                if let Answer::Old(old) = answer {
                    self.looked(config, mark, old);
                }
            }
        }
    }

    /// Notes all items of a Submit.
    fn submitted(&mut self, config: &Config, ring: Ring, items: &Batch)
        requires legal { (mine : List Told) × StandsFor config.now self.old mine × IsLegal config.now mine self.old.who (Submit ring items.now) }
        ensures caller { self.new.who ≡ self.old.who }
        ensures stands { (mine : List Told) → StandsFor config.now self.old mine → IsLegal config.now mine self.old.who (Submit ring items.now)
            → StandsFor config.now self.new (with_told mine (Submit ring items.now) Submitted) }
    {
        for i in 0..items.len() {
            self.placed(config, ring, items.item(i));
        }
    }

    /// Notes all items of a Peek's reply.
    fn peeked(&mut self, config: &Config, ring: Ring, items: &Batch)
        requires may { (mine : List Told) × (count : ℕ) × StandsFor config.now self.old mine × MayGive config.now mine self.old.who (Peek ring count) (Items items.now) }
        ensures caller { self.new.who ≡ self.old.who }
        ensures stands { (mine : List Told) (count : ℕ) → StandsFor config.now self.old mine → MayGive config.now mine self.old.who (Peek ring count) (Items items.now)
            → StandsFor config.now self.new (with_told mine (Peek ring count) (Items items.now)) }
    {
        for i in 0..items.len() {
            self.fetched(config, ring, items.item(i));
        }
    }
}

fn is_granted(answer: Answer) -> bool
    ensures { IsTrue result ↔ (answer ≡ Answer.Granted) }
{
    match answer {
        Answer::Granted => true,
        _ => false,
    }
}

fn has_items(answer: Answer) -> bool
    ensures { IsTrue result ↔ (answer ≡ Answer.Items) }
{
    match answer {
        Answer::Items => true,
        _ => false,
    }
}
