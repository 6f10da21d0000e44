//! Where the frames of a call's entries are, before it and behind it.
ghost use Rattle.std.specs.Prelude.{◌≡◌, ◌+◌, ◌^◌, ◌<◌, ◌≤◌, ℕ, if◌then◌else◌, true, false, IfOk, IfErr, IsTrue, Some, length};
ghost use Rattle.xsk_model.specs.declared.call.Ring.TheVariants.{Comp, Rx, Tx};
ghost use Rattle.xsk_model.specs.Descriptor.{is_inside};
ghost use Rattle.xsk_side.specs.Setting.{HasRing};
ghost use Rattle.xsk_side.specs.Entries.{frame as frame_number, names as is_named, stands, strays_in};
ghost use Rattle.xsk_side.specs.Legal.{IsReceived, IsCompleted};
ghost use Rattle.xsk_judge.specs.Kept.{known_in};
ghost use Rattle.xsk_judge.specs.Judging.{IsMineAt, AreMine, is_latest, AreLatest, AreNew, marked, given, again, peeked, given_in, last_held, set_known};
ghost use Rattle.xsk_judge.specs.Reasons.{ComesNot, GivesNot};
ghost use Rattle.xsk_judge.specs.Refusing.{IsIn, PassesOn, Stops, mine_in};

use crate::known::{Known, Whereabouts};
use crate::queue::Queue;
use crate::why::{Denial, Rule};
use xsk_model::Ring;
use xsk_side::Setting;
use xsk_umem::XdpDesc;

/// Keeps where the entry's frame is, if it names one.
fn mark(frames: &mut [Known], setting: &Setting, entry: XdpDesc, known: Known)
    requires { length frames.old ≡ setting.now.geometry.frames }
    ensures { frames.new ≡ set_known setting.now frames.old entry known }
{
    if let Some(frame) = setting.frame(entry) {
        frames[frame as usize] = known;
    }
}

/// The program gives away the frame that the entry names, if it names one. The frame must be its, and else it is told which it is, and
/// where.
fn give_one(
    frames: &mut [Known],
    setting: &Setting,
    entry: XdpDesc,
    known: Known,
) -> Result<(), (u32, Known)>
    requires { length frames.old ≡ setting.now.geometry.frames }
    ensures ok { IfOk result (λ _. (frames.new ≡ set_known setting.now frames.old entry known) × IsMineAt setting.now frames.old entry) }
    ensures not_mine { IfErr result (λ told. (IsMineAt setting.now frames.old entry → ⊥) × IsTrue (is_inside setting.now.geometry entry) × (told.0 ≡ frame_number setting.now entry) × IsIn frames.old told.0 told.1) }
{
    if let Some(frame) = setting.frame(entry) {
        let there = frames[frame as usize];
        if !there.place.is_mine() {
            return Err((frame, there));
        }
        frames[frame as usize] = known;
    }
    Ok(())
}

/// The program submits the entries on FILL or TX: their frames must be its, each once.
pub(crate) fn give(
    frames: &mut [Known],
    setting: &Setting,
    line: u64,
    ring: Ring,
    entries: &[XdpDesc],
) -> Result<(), Rule>
    requires { length frames.old ≡ setting.now.geometry.frames }
    ensures ok { IfOk result (λ _. (frames.new ≡ marked setting.now (given ring line) 0 entries.now frames.old) × AreMine setting.now frames.old entries.now) }
    ensures rule { IfErr result (λ rule. (AreMine setting.now frames.old entries.now → ⊥) × GivesNot setting.now (mine_in frames.old) (IsIn frames.old) entries.now rule) }
{
    let known = Known {
        place: Whereabouts::Given(ring),
        since: line,
    };
    for i in 0..entries.len() {
        if let Err((frame, there)) = give_one(frames, setting, entries[i], known) {
            if stands_among(setting, &entries[..i], frame) {
                return Err(Rule::Twice(i));
            }
            return Err(Rule::Frame(i, there));
        }
    }
    Ok(())
}

/// Whether one of the entries names the frame.
fn stands_among(setting: &Setting, entries: &[XdpDesc], frame: u32) -> bool
    ensures { result ≡ stands setting.now frame entries.now }
{
    for i in 0..entries.len() {
        if names(setting, entries[i], frame) {
            return true;
        }
    }
    false
}

/// Whether the entry names the frame.
fn names(setting: &Setting, entry: XdpDesc, frame: u32) -> bool
    ensures { result ≡ is_named setting.now frame entry }
{
    match setting.frame(entry) {
        Some(named) => named == frame,
        None => false,
    }
}

/// Keeps of each entry that is shown, from the one of this number on, that its frame is the program's by it.
pub(crate) fn show(
    frames: &mut [Known],
    setting: &Setting,
    line: u64,
    ring: Ring,
    first: u32,
    at: u32,
    entries: &[XdpDesc],
)
    requires size { length frames.old ≡ setting.now.geometry.frames }
    requires few { at + length entries.now < 2 ^ 32 }
    ensures { frames.new ≡ marked setting.now (peeked ring first line) at entries.now frames.old }
{
    for i in 0..entries.len() {
        let known = Known {
            place: Whereabouts::Peeked(ring, first.wrapping_add(at + i as u32)),
            since: line,
        };
        mark(frames, setting, entries[i], known);
    }
}

/// An entry comes on RX: it must be one that a kernel puts there, in a frame from FILL.
fn receive_one(
    frames: &mut [Known],
    setting: &Setting,
    socket: u32,
    i: usize,
    entry: XdpDesc,
    known: Known,
) -> Result<(), Denial>
    requires size { length frames.old ≡ setting.now.geometry.frames }
    requires ring { HasRing setting.now (Rx socket) }
    ensures ok { IfOk result (λ _. (frames.new ≡ set_known setting.now frames.old entry known) × IsReceived setting.now (given_in frames.old) socket entry) }
    ensures denied { IfErr result (λ denial. (IsReceived setting.now (given_in frames.old) socket entry → ⊥) × ((strays : ℕ) → ComesNot setting.now (Rx socket) (IsIn frames.old (frame_number setting.now entry)) strays i entry denial)) }
{
    let Some(frame) = setting.frame(entry) else {
        return Err(Denial::Outside(i));
    };
    if !setting.is_received(entry) {
        return Err(Denial::Entry(i));
    }
    let there = frames[frame as usize];
    let Whereabouts::Given(Ring::Fill(pair)) = there.place else {
        return Err(Denial::NotFilled(i, there));
    };
    if setting.rules().own && pair != setting.pair(Ring::Rx(socket)) {
        return Err(Denial::OtherPair(i, there));
    }
    frames[frame as usize] = known;
    Ok(())
}

/// Entries come on RX, each in a frame of its own.
pub(crate) fn receive(
    frames: &mut [Known],
    setting: &Setting,
    line: u64,
    socket: u32,
    first: u32,
    at: u32,
    skipped: usize,
    entries: &[XdpDesc],
) -> Result<(), Denial>
    requires size { length frames.old ≡ setting.now.geometry.frames }
    requires ring { HasRing setting.now (Rx socket) }
    requires few { at + length entries.now < 2 ^ 32 }
    requires counted { skipped + length entries.now < 2 ^ 32 }
    ensures ok { IfOk result (λ _. (frames.new ≡ marked setting.now (peeked (Rx socket) first line) at entries.now frames.old) × AreNew setting.now frames.old (Rx socket) entries.now) }
    ensures denied { IfErr result (λ denial. (AreNew setting.now frames.old (Rx socket) entries.now → ⊥) × ((strays : ℕ) → Stops setting.now frames.old (Rx socket) first line at skipped strays entries.now denial)) }
{
    for i in 0..entries.len() {
        let known = Known {
            place: Whereabouts::Peeked(Ring::Rx(socket), first.wrapping_add(at + i as u32)),
            since: line,
        };
        if let Err(denial) = receive_one(frames, setting, socket, skipped + i, entries[i], known) {
            return Err(denial);
        }
    }
    Ok(())
}

/// An entry comes on COMPLETION: it must be an address alone, in a frame from TX of that pair, or in none.
fn complete_one(
    frames: &mut [Known],
    setting: &Setting,
    pair: u32,
    i: usize,
    entry: XdpDesc,
    known: Known,
) -> Result<(), Denial>
    requires size { length frames.old ≡ setting.now.geometry.frames }
    requires sent { (f t : ℕ) → given_in frames.old f ≡ Some (Tx t) → HasRing setting.now (Tx t) }
    ensures ok { IfOk result (λ _. (frames.new ≡ set_known setting.now frames.old entry known) × IsCompleted setting.now (given_in frames.old) pair entry) }
    ensures denied { IfErr result (λ denial. (IsCompleted setting.now (given_in frames.old) pair entry → ⊥) × ((strays : ℕ) → ComesNot setting.now (Comp pair) (IsIn frames.old (frame_number setting.now entry)) strays i entry denial)) }
{
    if entry.len != 0 || entry.options != 0 {
        return Err(Denial::Entry(i));
    }
    let Some(frame) = setting.frame(entry) else {
        return Ok(());
    };
    let there = frames[frame as usize];
    let Whereabouts::Given(Ring::Tx(socket)) = there.place else {
        return Err(Denial::NotSent(i, there));
    };
    if setting.pair(Ring::Tx(socket)) != pair {
        return Err(Denial::OtherPair(i, there));
    }
    frames[frame as usize] = known;
    Ok(())
}

/// Entries come on COMPLETION, each in a frame of its own or in none. Tells how many of so many addresses outside of the UMEM are
/// left.
pub(crate) fn complete(
    frames: &mut [Known],
    setting: &Setting,
    line: u64,
    pair: u32,
    first: u32,
    at: u32,
    skipped: usize,
    strays: u64,
    entries: &[XdpDesc],
) -> Result<u64, Denial>
    requires size { length frames.old ≡ setting.now.geometry.frames }
    requires few { at + length entries.now < 2 ^ 32 }
    requires counted { skipped + length entries.now < 2 ^ 32 }
    requires sent { (f t : ℕ) → given_in frames.old f ≡ Some (Tx t) → HasRing setting.now (Tx t) }
    ensures ok { IfOk result (λ left. (frames.new ≡ marked setting.now (peeked (Comp pair) first line) at entries.now frames.old) × AreNew setting.now frames.old (Comp pair) entries.now × (left + strays_in setting.now entries.now ≡ strays)) }
    ensures denied { IfErr result (λ denial. (AreNew setting.now frames.old (Comp pair) entries.now × (strays_in setting.now entries.now ≤ strays) → ⊥) × Stops setting.now frames.old (Comp pair) first line at skipped strays entries.now denial) }
{
    let mut left = strays;
    for i in 0..entries.len() {
        let known = Known {
            place: Whereabouts::Peeked(Ring::Comp(pair), first.wrapping_add(at + i as u32)),
            since: line,
        };
        if let Err(denial) = complete_one(frames, setting, pair, skipped + i, entries[i], known) {
            return Err(denial);
        }
        let stray = stray(setting, entries[i]);
        if left < stray {
            return Err(Denial::NeverSent(skipped + i));
        }
        left -= stray;
    }
    Ok(left)
}

/// 1 for an entry that names no frame.
fn stray(setting: &Setting, entry: XdpDesc) -> u64
    ensures { result ≡ (if is_inside setting.now.geometry entry then 0 else 1) }
{
    match setting.frame(entry) {
        Some(_) => 0,
        None => 1,
    }
}

/// How many of the entries name no frame.
pub(crate) fn count_strays(setting: &Setting, entries: &[XdpDesc]) -> u64
    ensures { result ≡ strays_in setting.now entries.now }
{
    let mut strays = 0;
    for i in 0..entries.len() {
        strays += stray(setting, entries[i]);
    }
    strays
}

/// The program puts the last so many entries back that it holds: each must be the last by which it got its frame.
pub(crate) fn are_latest(
    frames: &[Known],
    setting: &Setting,
    ring: Ring,
    queue: &Queue,
    count: u32,
) -> Result<(), Rule>
    requires size { length frames.now ≡ setting.now.geometry.frames }
    requires few { count ≤ queue.now.held }
    ensures ok { IfOk result (λ _. AreLatest setting.now frames.now ring queue.now count) }
    ensures rule { IfErr result (λ rule. (AreLatest setting.now frames.now ring queue.now count → ⊥) × PassesOn setting.now frames.now ring queue.now count rule) }
{
    let start = queue.held() - count;
    for k in 0..count {
        let i = start + k;
        let Some(entry) = queue.entry(i) else {
            return Ok(());
        };
        if let Err(there) = latest(frames, setting, ring, queue.numbered(i), entry) {
            return Err(Rule::PassedOn(entry, there));
        }
    }
    Ok(())
}

/// The program has the entry's frame by this entry, if it names one; else it is told where the frame is.
fn latest(
    frames: &[Known],
    setting: &Setting,
    ring: Ring,
    number: u32,
    entry: XdpDesc,
) -> Result<(), Known>
    requires { length frames.now ≡ setting.now.geometry.frames }
    ensures ok { IfOk result (λ _. is_latest setting.now frames.now ring number entry ≡ true) }
    ensures passed { IfErr result (λ there. (is_latest setting.now frames.now ring number entry ≡ false) × (there ≡ known_in frames.now (frame_number setting.now entry))) }
{
    if let Some(frame) = setting.frame(entry) {
        let there = frames[frame as usize];
        if !there.place.is_as(ring, number) {
            return Err(there);
        }
    }
    Ok(())
}

/// Keeps of these entries' frames that they stand in the ring again.
pub(crate) fn put_back(
    frames: &mut [Known],
    setting: &Setting,
    line: u64,
    ring: Ring,
    queue: &Queue,
    count: u32,
)
    requires size { length frames.old ≡ setting.now.geometry.frames }
    requires few { count ≤ queue.now.held }
    ensures { frames.new ≡ marked setting.now (again ring line) 0 (last_held queue.now count) frames.old }
{
    let known = Known {
        place: Whereabouts::Again(ring),
        since: line,
    };
    let start = queue.held() - count;
    for i in 0..count {
        let Some(entry) = queue.entry(start + i) else {
            return;
        };
        mark(frames, setting, entry, known);
    }
}
