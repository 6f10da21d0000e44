//! The judge, call by call. A step is exact: Ok where the calls so far are possible (`xsk_side/specs/Possible`), and a
//! reason where not. What is kept stands for all of them (`specs/Stands`), so a step that keeps less is refused there.
ghost use Rattle.std.specs.Prelude.{◌≡◌, ◌≢◌, ◌+◌, ◌-◌, ◌^◌, ◌<◌, ◌≤◌, ◌↔◌, ◌⊎◌, ℕ, min, [], IfOk, IfErr, IfSome, IsNone, IsTrue, List, ◌∷◌, true, false, length, take};
ghost use Rattle.xsk_side.specs.Setting.{HasRing, pair_of};
ghost use Rattle.xsk_side.specs.Object.{is_made as made};
ghost use Rattle.xsk_side.specs.Own.{held_of, room_of};
ghost use Rattle.xsk_side.specs.Local.{FitsAnswer};
ghost use Rattle.xsk_side.specs.declared.call.Call.TheVariants.{Reserve, Free, Submit, Peek, Release, Cancel};
ghost use Rattle.xsk_judge.specs.Kept.{place, queue_at, standing, strays_at};
ghost use Rattle.xsk_judge.specs.Stands.{Line, IsReady, IsKnown, IsWhy, StandsFor, calls_of};
ghost use Rattle.xsk_judge.specs.Judging.{IsFor, MayCall, MayAnswer, Agrees, CanCome, after, come_after, held_after, reserved, told_free};
ghost use Rattle.xsk_judge.specs.Reasons.{AnswersNot, FreesNot, IsReasonOf, ShowsNot, entry_at};
ghost use Rattle.xsk_judge.specs.Refusing.{IsReason, NoPlace, Stops};

use crate::known::{End, Known, Whereabouts};
use crate::queue::Queue;
use crate::why::{Denial, Rule, Why};
use crate::{first, following};
use std::alloc::Global;
use std::marker::Model;
use xsk_model::Ring;
use xsk_side::{Answer, Call, Setting, is_made};
use xsk_umem::{OutOfMemory, XdpDesc};

/// What the calls of a program leave, as far as later calls hang on it: where each frame is, and of each ring some numbers and the
/// entries that are held. It takes 24 bytes a frame and 16 a place of RX and COMPLETION, all at the start.
#[derive(Debug, Drop)]
pub struct Judge {
    frames: Vec<Known>,
    /// FILL by pair, then TX by socket.
    ends: Vec<End>,
    /// COMPLETION by pair, then RX by socket.
    queues: Vec<Queue>,
    /// By pair: addresses that name no frame, submitted on TX and not come.
    strays: Vec<u64>,
}

impl Model for Judge {
    ghost use Rattle.xsk_judge.specs.Kept.{Kept};

    ghost Value = { Kept };

    ghost view = { λ j. record { frames = j.frames.items; ends = j.ends.items; queues = j.queues.items; strays = j.strays.items } };
}

impl Judge {
    /// A judge that stands for no call. It takes all the memory that it will need; want of it is the one error.
    pub fn new(alloc: Global, setting: &Setting) -> Result<Judge, OutOfMemory>
        ensures ready { IfOk result (λ judge. IsReady setting.now judge) }
        ensures stands { IfOk result (λ judge. StandsFor setting.now judge []) }
    {
        let start = Known {
            place: Whereabouts::Start,
            since: 0,
        };
        let frames = vec![in alloc; start; setting.frames() as usize]?;
        let strays = vec![in alloc; 0u64; setting.pairs().len()]?;
        let ends = first::ends(alloc, setting)?;
        let queues = first::queues(alloc, setting)?;
        Ok(Judge {
            frames,
            ends,
            queues,
            strays,
        })
    }

    /// Judges the next call, which stands in this line: Ok exactly where some kernel can have answered so, and else why not. After an
    /// error the judge isn't used again. It takes no memory.
    pub fn step(&mut self, setting: &Setting, line: u64, call: &Call) -> Result<(), Why>
        requires { IsReady setting.now self.old }
        ensures ready { IfOk result (λ _. IsReady setting.now self.new) }
        ensures stands { IfOk result (λ _. (lines : List Line) → StandsFor setting.now self.old lines → StandsFor setting.now self.new (record { line = line; call = call.now } ∷ lines)) }
        ensures why { IfErr result (λ why. (lines : List Line) → StandsFor setting.now self.old lines → IsWhy setting.now lines call.now why) }
        ensures reason { IfErr result (λ why. (lines : List Line) → StandsFor setting.now self.old lines → IsReasonOf setting.now lines line call.now why) }
    {
        match self.judge(setting, line, call) {
            Ok(()) => Ok(()),
            Err(why) => Err(why),
        }
    }

    /// Where a frame is, and since which line.
    pub fn known(&self, setting: &Setting, frame: u32) -> Known
        requires ready { IsReady setting.now self.now }
        requires frame { frame < setting.now.geometry.frames }
        ensures { (lines : List Line) → StandsFor setting.now self.now lines → IsKnown setting.now lines frame result }
    {
        self.frames[frame as usize]
    }

    /// How many places of FILL or TX are reserved and not filled.
    pub fn room(&self, setting: &Setting, ring: Ring) -> u32
        requires ready { IsReady setting.now self.now }
        requires ring { HasRing setting.now ring }
        requires side { IsTrue (made ring) }
        ensures { (lines : List Line) → StandsFor setting.now self.now lines → result ≡ room_of ring (calls_of lines) }
    {
        match ring {
            Ring::Fill(pair) => self.ends[pair as usize].room,
            Ring::Tx(socket) => self.ends[setting.pairs().len() + socket as usize].room,
            Ring::Comp(_) | Ring::Rx(_) => unreachable!(),
        }
    }

    /// How many entries of COMPLETION or RX are peeked and not released.
    pub fn held(&self, setting: &Setting, ring: Ring) -> u32
        requires ready { IsReady setting.now self.now }
        requires ring { HasRing setting.now ring }
        requires side { made ring ≡ false }
        ensures { (lines : List Line) → StandsFor setting.now self.now lines → result ≡ length (held_of setting.now ring (calls_of lines)) }
    {
        match ring {
            Ring::Comp(pair) => self.queues[pair as usize].held(),
            Ring::Rx(socket) => self.queues[setting.pairs().len() + socket as usize].held(),
            Ring::Fill(_) | Ring::Tx(_) => unreachable!(),
        }
    }

    fn judge(&mut self, setting: &Setting, line: u64, call: &Call) -> Result<(), Why>
        requires { IsFor setting.now self.old }
        ensures ok { IfOk result (λ _. MayCall setting.now self.old call.now × MayAnswer setting.now self.old call.now × (self.new ≡ after setting.now line self.old call.now)) }
        ensures why { IfErr result (λ why. IsReason setting.now line self.old call.now why) }
    {
        match call {
            Call::Reserve(ring, places, answer) => self.reserve(
                setting, line, *ring, *places, *answer,
            ),
            Call::Free(ring, asked, places) => self.free(setting, line, *ring, *asked, *places),
            Call::Submit(ring, entries) => self.submit(setting, line, *ring, entries.as_slice()),
            Call::Peek(ring, asked, entries) => self.peek(
                setting,
                line,
                *ring,
                *asked,
                entries.as_slice(),
            ),
            Call::Release(ring, count) => self.release(setting, *ring, *count),
            Call::Cancel(ring, count) => self.cancel(setting, line, *ring, *count),
        }
    }

    /// The place of a ring that the program produces.
    fn end_place(&self, setting: &Setting, ring: Ring) -> Result<usize, Rule>
        requires { IsFor setting.now self.now }
        ensures ok { IfOk result (λ at. (at ≡ place setting.now ring) × (at < length self.now.ends) × HasRing setting.now ring × IsTrue (made ring)) }
        ensures rule { IfErr result (λ rule. NoPlace setting.now true ring rule × (HasRing setting.now ring × IsTrue (made ring) → ⊥)) }
    {
        if !setting.has_ring(ring) {
            return Err(Rule::Ring);
        }
        match ring {
            Ring::Fill(pair) => Ok(pair as usize),
            Ring::Tx(socket) => Ok(setting.pairs().len() + socket as usize),
            Ring::Comp(_) | Ring::Rx(_) => Err(Rule::Side),
        }
    }

    /// The place of a ring that the kernel produces.
    fn queue_place(&self, setting: &Setting, ring: Ring) -> Result<usize, Rule>
        requires { IsFor setting.now self.now }
        ensures ok { IfOk result (λ at. (at ≡ place setting.now ring) × (at < length self.now.queues) × HasRing setting.now ring × (made ring ≡ false)) }
        ensures rule { IfErr result (λ rule. NoPlace setting.now false ring rule × (HasRing setting.now ring × (made ring ≡ false) → ⊥)) }
    {
        if !setting.has_ring(ring) {
            return Err(Rule::Ring);
        }
        match ring {
            Ring::Comp(pair) => Ok(pair as usize),
            Ring::Rx(socket) => Ok(setting.pairs().len() + socket as usize),
            Ring::Fill(_) | Ring::Tx(_) => Err(Rule::Side),
        }
    }

    fn reserve(
        &mut self,
        setting: &Setting,
        line: u64,
        ring: Ring,
        places: u32,
        answer: Answer,
    ) -> Result<(), Why>
        requires { IsFor setting.now self.old }
        ensures ok { IfOk result (λ _. MayCall setting.now self.old (Reserve ring places answer) × MayAnswer setting.now self.old (Reserve ring places answer) × (self.new ≡ after setting.now line self.old (Reserve ring places answer))) }
        ensures why { IfErr result (λ why. IsReason setting.now line self.old (Reserve ring places answer) why) }
    {
        let at = match self.end_place(setting, ring) {
            Ok(at) => at,
            Err(rule) => return Err(Why::Rule(rule)),
        };
        match answered(self.ends[at], setting.size(ring), line, places, answer) {
            Ok(end) => self.ends[at] = end,
            Err(denial) => return Err(Why::Kernel(denial)),
        }
        Ok(())
    }

    fn free(
        &mut self,
        setting: &Setting,
        line: u64,
        ring: Ring,
        asked: u32,
        places: u32,
    ) -> Result<(), Why>
        requires { IsFor setting.now self.old }
        ensures ok { IfOk result (λ _. MayCall setting.now self.old (Free ring asked places) × MayAnswer setting.now self.old (Free ring asked places) × (self.new ≡ after setting.now line self.old (Free ring asked places))) }
        ensures why { IfErr result (λ why. IsReason setting.now line self.old (Free ring asked places) why) }
    {
        let at = match self.end_place(setting, ring) {
            Ok(at) => at,
            Err(rule) => return Err(Why::Rule(rule)),
        };
        match told(self.ends[at], setting.size(ring), line, asked, places) {
            Ok(end) => self.ends[at] = end,
            Err(denial) => return Err(Why::Kernel(denial)),
        }
        Ok(())
    }

    fn submit(
        &mut self,
        setting: &Setting,
        line: u64,
        ring: Ring,
        entries: &[XdpDesc],
    ) -> Result<(), Why>
        requires { IsFor setting.now self.old }
        ensures ok { IfOk result (λ _. MayCall setting.now self.old (Submit ring entries.now) × MayAnswer setting.now self.old (Submit ring entries.now) × (self.new ≡ after setting.now line self.old (Submit ring entries.now))) }
        ensures why { IfErr result (λ why. IsReason setting.now line self.old (Submit ring entries.now) why) }
    {
        let at = match self.end_place(setting, ring) {
            Ok(at) => at,
            Err(rule) => return Err(Why::Rule(rule)),
        };
        let end = self.ends[at];
        if entries.len() > end.room as usize {
            return Err(Why::Rule(Rule::Places(end.room)));
        }
        if let Err(rule) = following::give(
            self.frames.as_mut_slice(),
            setting,
            line,
            ring,
            entries,
        ) {
            return Err(Why::Rule(rule));
        }
        self.ends[at] = End {
            room: end.room - entries.len() as u32,
            sure: end.sure,
            shown: end.shown,
        };
        if let Ring::Tx(_) = ring {
            let pair = setting.pair(ring) as usize;
            match self.strays[pair].checked_add(following::count_strays(setting, entries)) {
                Some(strays) => self.strays[pair] = strays,
                None => return Err(Why::TooMany),
            }
        }
        Ok(())
    }

    fn peek(
        &mut self,
        setting: &Setting,
        line: u64,
        ring: Ring,
        asked: u32,
        entries: &[XdpDesc],
    ) -> Result<(), Why>
        requires { IsFor setting.now self.old }
        ensures ok { IfOk result (λ _. MayCall setting.now self.old (Peek ring asked entries.now) × MayAnswer setting.now self.old (Peek ring asked entries.now) × (self.new ≡ after setting.now line self.old (Peek ring asked entries.now))) }
        ensures why { IfErr result (λ why. IsReason setting.now line self.old (Peek ring asked entries.now) why) }
    {
        let at = match self.queue_place(setting, ring) {
            Ok(at) => at,
            Err(rule) => return Err(Why::Rule(rule)),
        };
        let again = match agreed(&self.queues[at], asked, entries) {
            Ok(again) => again,
            Err(denial) => return Err(Why::Kernel(denial)),
        };
        let (known, new) = entries.split_at(again as usize);
        let first = self.queues[at].first();
        let held = self.queues[at].held();
        if let Err(denial) = self.come(setting, line, ring, first, held + again, known.len(), new) {
            return Err(Why::Kernel(denial));
        }
        self.hold(setting, line, ring, at, known, new);
        Ok(())
    }

    /// The program holds entries that stood in the ring before, and new ones.
    fn hold(
        &mut self,
        setting: &Setting,
        line: u64,
        ring: Ring,
        at: usize,
        known: &[XdpDesc],
        new: &[XdpDesc],
    )
        requires size { length self.old.frames ≡ setting.now.geometry.frames }
        requires place { (at ≡ place setting.now ring) × (at < length self.old.queues) }
        requires standing { (queue_at setting.now self.old ring).held + length known.now ≤ length (queue_at setting.now self.old ring).entries }
        requires all { new.now ≡ [] ⊎ ((queue_at setting.now self.old ring).held + length known.now ≡ length (queue_at setting.now self.old ring).entries) }
        requires room { length (queue_at setting.now self.old ring).entries + length new.now ≤ (queue_at setting.now self.old ring).size }
        ensures { self.new ≡ held_after setting.now line self.old ring known.now new.now }
    {
        let first = self.queues[at].first();
        let held = self.queues[at].held();
        following::show(
            self.frames.as_mut_slice(),
            setting,
            line,
            ring,
            first,
            held,
            known,
        );
        self.queues[at].show(known.len() as u32, new);
    }

    /// Entries come on a ring that the kernel produces, from the one of this number on, behind so many that stood there.
    #[allow(clippy::too_many_arguments)]
    fn come(
        &mut self,
        setting: &Setting,
        line: u64,
        ring: Ring,
        first: u32,
        at: u32,
        skipped: usize,
        entries: &[XdpDesc],
    ) -> Result<(), Denial>
        requires kind { IsFor setting.now self.old }
        requires ring { HasRing setting.now ring }
        requires side { made ring ≡ false }
        requires few { at + length entries.now < 2 ^ 32 }
        requires counted { skipped + length entries.now < 2 ^ 32 }
        ensures ok { IfOk result (λ _. CanCome setting.now self.old ring entries.now × (self.new ≡ come_after setting.now line self.old ring first at entries.now)) }
        ensures denied { IfErr result (λ denial. (CanCome setting.now self.old ring entries.now → ⊥) × Stops setting.now self.old.frames ring first line at skipped (strays_at self.old (pair_of setting.now ring)) entries.now denial) }
    {
        let frames = self.frames.as_mut_slice();
        match ring {
            Ring::Rx(socket) => following::receive(
                frames, setting, line, socket, first, at, skipped, entries,
            ),
            Ring::Comp(pair) => {
                let strays = self.strays[pair as usize];
                match following::complete(
                    frames, setting, line, pair, first, at, skipped, strays, entries,
                ) {
                    Ok(left) => self.strays[pair as usize] = left,
                    Err(denial) => return Err(denial),
                }
                Ok(())
            }
            Ring::Fill(_) | Ring::Tx(_) => unreachable!(),
        }
    }

    fn release(&mut self, setting: &Setting, ring: Ring, count: u32) -> Result<(), Why>
        requires { IsFor setting.now self.old }
        ensures ok { IfOk result (λ _. MayCall setting.now self.old (Release ring count) × MayAnswer setting.now self.old (Release ring count) × (self.new ≡ after setting.now 0 self.old (Release ring count))) }
        ensures why { IfErr result (λ why. (line : ℕ) → IsReason setting.now line self.old (Release ring count) why) }
    {
        let at = match self.queue_place(setting, ring) {
            Ok(at) => at,
            Err(rule) => return Err(Why::Rule(rule)),
        };
        let held = self.queues[at].held();
        if count > held {
            return Err(Why::Rule(Rule::Release(held)));
        }
        self.queues[at].release(count);
        Ok(())
    }

    fn cancel(&mut self, setting: &Setting, line: u64, ring: Ring, count: u32) -> Result<(), Why>
        requires { IsFor setting.now self.old }
        ensures ok { IfOk result (λ _. MayCall setting.now self.old (Cancel ring count) × MayAnswer setting.now self.old (Cancel ring count) × (self.new ≡ after setting.now line self.old (Cancel ring count))) }
        ensures why { IfErr result (λ why. IsReason setting.now line self.old (Cancel ring count) why) }
    {
        if is_made(ring) {
            return self.give_up(setting, line, ring, count);
        }
        let at = match self.queue_place(setting, ring) {
            Ok(at) => at,
            Err(rule) => return Err(Why::Rule(rule)),
        };
        let held = self.queues[at].held();
        if count > held {
            return Err(Why::Rule(Rule::Cancel(held)));
        }
        if let Err(rule) = following::are_latest(
            self.frames.as_slice(),
            setting,
            ring,
            &self.queues[at],
            count,
        ) {
            return Err(Why::Rule(rule));
        }
        following::put_back(
            self.frames.as_mut_slice(),
            setting,
            line,
            ring,
            &self.queues[at],
            count,
        );
        self.queues[at].put_back(count, line);
        Ok(())
    }

    /// The program gives up places that it reserved.
    fn give_up(&mut self, setting: &Setting, line: u64, ring: Ring, count: u32) -> Result<(), Why>
        requires kind { IsFor setting.now self.old }
        requires ring { IsTrue (made ring) }
        ensures ok { IfOk result (λ _. MayCall setting.now self.old (Cancel ring count) × MayAnswer setting.now self.old (Cancel ring count) × (self.new ≡ after setting.now line self.old (Cancel ring count))) }
        ensures why { IfErr result (λ why. IsReason setting.now line self.old (Cancel ring count) why) }
    {
        let at = match self.end_place(setting, ring) {
            Ok(at) => at,
            Err(rule) => return Err(Why::Rule(rule)),
        };
        let end = self.ends[at];
        if count > end.room {
            return Err(Why::Rule(Rule::Cancel(end.room)));
        }
        self.ends[at] = given_up(end, setting.size(ring), count);
        Ok(())
    }
}

/// What is known behind the answer to a call that asks for places of a ring of that size.
fn answered(end: End, size: u32, line: u64, places: u32, answer: Answer) -> Result<End, Denial>
    requires { end.room + end.sure ≤ size }
    ensures ok { IfOk result (λ now. FitsAnswer end.sure (size - end.room) places answer × (now ≡ reserved end line places answer)) }
    ensures denied { IfErr result (λ denial. (FitsAnswer end.sure (size - end.room) places answer → ⊥) × AnswersNot end.sure end.shown (size - end.room) line places answer denial) }
{
    let most = size - end.room;
    match answer {
        Answer::Granted => {
            if places > most {
                return Err(Denial::Granted(most));
            }
            Ok(End {
                room: end.room + places,
                sure: end.sure.saturating_sub(places),
                shown: if end.sure < places { line } else { end.shown },
            })
        }
        Answer::Full(free) => {
            if free >= places {
                return Err(Denial::Refused(free, line));
            }
            if free > most {
                return Err(Denial::Taken(most));
            }
            if free < end.sure {
                return Err(Denial::FewerFree(end.sure, end.shown));
            }
            Ok(End {
                room: end.room,
                sure: free,
                shown: line,
            })
        }
        Answer::Refused => {
            if end.sure >= places {
                return Err(Denial::Refused(end.sure, end.shown));
            }
            Ok(end)
        }
    }
}

/// What is known of a ring of that size behind a call that gives up so many places.
fn given_up(end: End, size: u32, count: u32) -> End
    requires size { end.room + end.sure ≤ size }
    requires few { count ≤ end.room }
    ensures { result ≡ record end { room = end.room - count; sure = end.sure + count } }
{
    End {
        room: end.room - count,
        sure: end.sure + count,
        shown: end.shown,
    }
}

/// What is known behind the reply to a call that asks whether places are free.
fn told(end: End, size: u32, line: u64, asked: u32, places: u32) -> Result<End, Denial>
    requires { end.room + end.sure ≤ size }
    ensures ok { IfOk result (λ now. (places ≤ size - end.room) × (places < asked → end.sure ≤ places) × (now ≡ told_free end line asked places)) }
    ensures denied { IfErr result (λ denial. ((places ≤ size - end.room) × (places < asked → end.sure ≤ places) → ⊥) × FreesNot end.sure end.shown (size - end.room) asked places denial) }
{
    let most = size - end.room;
    if places > most {
        return Err(Denial::Granted(most));
    }
    if places < asked && places < end.sure {
        return Err(Denial::FewerFree(end.sure, end.shown));
    }
    let shows = places < asked || end.sure < places;
    Ok(End {
        room: end.room,
        sure: end.sure.max(places),
        shown: if shows { line } else { end.shown },
    })
}

/// How many of the entries that are shown stood in the ring before: as many as stand there again, or all, which must be the same. The
/// ring must have places for all.
fn agreed(queue: &Queue, asked: u32, entries: &[XdpDesc]) -> Result<u32, Denial>
    ensures ok { IfOk result (λ again. (again ≡ min (length (standing queue.now)) (length entries.now)) × Agrees queue.now asked entries.now) }
    ensures denied { IfErr result (λ denial. (Agrees queue.now asked entries.now → ⊥) × ShowsNot (standing queue.now) queue.now.held queue.now.size queue.now.again asked entries.now denial) }
{
    if entries.len() > asked as usize {
        return Err(Denial::More);
    }
    let standing = queue.standing();
    if entries.is_empty() && asked > 0 && standing > 0 {
        return Err(Denial::Empty(standing, queue.again()));
    }
    let held = queue.held();
    if entries.len() > (queue.size() - held) as usize {
        return Err(Denial::Full(held));
    }
    let again = standing.min(entries.len() as u32);
    if let Some(i) = first_other(queue, again, entries) {
        let stood = queue.stood(held + i);
        return Err(Denial::Other(i as usize, stood, queue.again()));
    }
    Ok(again)
}

/// The first of so many entries that isn't the one that stands there again.
fn first_other(queue: &Queue, again: u32, entries: &[XdpDesc]) -> Option<u32>
    requires standing { again ≤ length (standing queue.now) }
    requires within { again ≤ length entries.now }
    ensures same { IsNone result ↔ (take again entries.now ≡ take again (standing queue.now)) }
    ensures known { IfSome result (λ i. (i < again) × (take i entries.now ≡ take i (standing queue.now)) × (entry_at entries.now i ≢ entry_at (standing queue.now) i)) }
{
    let held = queue.held();
    for i in 0..again {
        if !queue.is_at(held + i, entries[i as usize]) {
            return Some(i);
        }
    }
    None
}
