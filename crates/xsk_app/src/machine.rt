//! The application's machine: it makes one call, waits for the reply, and goes on by it. A call is given where the
//! script has it (`xsk_turns/specs/AppTurns`), so a new one is written there first; that code and script agree is said
//! in `specs/Stands` and `specs/Runs`.
//!
//! ```text
//! close  LowerCell ──> TellClosing ──> lanes                       cell by cell, where the socket is to be closed, once
//! lanes  PeekRx ──> ReleaseRx ──> ReserveTx ──> SubmitTx           lane by lane. RX empty: the next lane
//!                                                                  TX full: the packets stay pending for the next turn
//!        DrainRx ──> ReleaseDrained                                a closed lane, once the socket is closed
//! sides  PeekComp ──> ReleaseComp ──> ReserveFill ──> SubmitFill   side by side. COMPLETION empty: the next side
//!                                         └─<────────────┘         by groups of one home. FILL full: they stay
//! end    LookAcked                                                 until the driver has acknowledged the closing; and then
//!        LookRxDone of each side ──> the next turn                 until both have told, and then, where all lanes
//!        TellTxDone ──> the next turn                              were empty, once; from then on without lanes
//!        LookGone of each side ──> the next turn, or Ended         where both had ended as the turn began, sides
//!                                                                  were empty and nothing is left to give back
//! ```
//!
//! With need-wakeup (af_xdp.rst, "XDP_USE_NEED_WAKEUP bind flag") it goes on from a Submit or from its end by
//!
//! ```text
//! SubmitTx, SubmitFill ──> LookNeed ──> Kick    the driver of the ring is woken where the ring's flag is set
//! TellClosing ──> Kick                          the driver of the socket is woken
//! TellTxDone ──> Kick ──> Kick                  both drivers are woken
//! ```
ghost use Rattle.std.specs.Prelude.{Some, None, false, ◌≡◌, ◌≢◌, ℕ, ◌+◌, ◌-◌, ◌<◌, ◌≤◌, [], ◌∷◌, IfSome, length, vec_len, map, take, drop};
ghost use Rattle.xsk_model.specs.Config.{batch_of, classes_of, pool_of};
ghost use Rattle.xsk_model.specs.Marks.{apps_of};
ghost use Rattle.xsk_model.specs.Expected.{CanCome, expected_of};
ghost use Rattle.xsk_model.specs.declared.call.Mark.TheVariants as mark;
ghost use Rattle.xsk_model.specs.declared.call.Reply.TheVariants as reply;
ghost use Rattle.xsk_turns.specs.AppTurns.{lanes_of, pair_of, shut_of};
ghost use Rattle.xsk_turns.specs.Stepping.{joined_ask, joined_answer, IsGivenBack, IsLent};
ghost use Rattle.xsk_app.specs.Ways.{AreWays, IsGroup, CanGoOn, socket_in, IsReady, IsReady-prop, first_unset};

use crate::back::Back;
use xsk_model::{Answer, Ask, Config, Mark, Ring};
use xsk_turns::Manner;
use xsk_umem::Batch;

/// The sides of the application: its two ports.
pub(crate) const SIDES: usize = 2;

/// Where it goes on behind a wake: behind a lane that had packets, with the next frames of a side, with the wake of the second
/// driver, with the lanes, or with the next turn.
#[derive(Clone, Copy)]
pub(crate) enum Next {
    Lane { lane: usize },
    Side { side: usize },
    Second,
    Lanes,
    Turn,
}

/// What the machine waits for, each at its lane or its side. `home` is the pair to which `count` frames go back.
#[derive(Clone, Copy)]
pub(crate) enum Wait {
    Start,
    /// A cell that held the socket is lowered.
    LowerCell { socket: u32, index: u32 },
    TellClosing { socket: u32 },
    /// A closed lane's RX ring, once the socket is closed.
    DrainRx { lane: usize },
    ReleaseDrained { lane: usize },
    PeekRx { lane: usize },
    ReleaseRx { lane: usize },
    ReserveTx { lane: usize },
    SubmitTx { lane: usize },
    PeekComp { side: usize },
    ReleaseComp { side: usize },
    ReserveFill { side: usize, home: u32, count: u32 },
    SubmitFill { side: usize, home: u32 },
    /// The flag of a ring of the pair, whose driver is woken where it is set.
    LookNeed { pair: u32, next: Next },
    Kick { next: Next },
    LookAcked,
    LookRxDone { side: usize },
    TellTxDone,
    LookGone { side: usize },
    Ended,
}

/// The sockets of a lane: it goes from the RX ring of one side's class to the TX ring of the other side's. `pair` is the
/// other side's, whose driver sends what stands on that TX ring, and `side` is the one that receives.
#[derive(Clone, Copy)]
pub struct Way {
    pub rx: u32,
    pub tx: u32,
    pub pair: u32,
    pub side: usize,
}

/// What was so as the turn began, and whether each lane and each side visited so far had an empty peek in it.
#[derive(Clone, Copy)]
pub(crate) struct Turn {
    pub(crate) seen: bool,
    pub(crate) gone: bool,
    pub(crate) lanes_empty: bool,
    pub(crate) sides_empty: bool,
    /// Whether the closing was acknowledged.
    pub(crate) acked: bool,
}

/// The application's machine. It makes turns: it moves packets along the lanes, gives frames back, and looks for its
/// end.
#[derive(Drop)]
pub(crate) struct Machine<'a> {
    pub(crate) config: &'a Config,
    pub(crate) app: u32,
    pub(crate) batch: u32,
    pub(crate) ways: Vec<Way>,
    pub(crate) pairs: [u32; 2],
    pub(crate) pending: Vec<Batch>,
    pub(crate) backs: Vec<Back>,
    pub(crate) seen: [bool; 2],
    pub(crate) gone: [bool; 2],
    pub(crate) tx_done: bool,
    pub(crate) manner: Manner,
    /// That of the next item that it submits on TX, counted round, where it changes items.
    pub(crate) number: u64,
    pub(crate) classes: u32,
    /// The socket that it is to close, if any, and how many items it awaits on its RX ring before it does.
    pub(crate) shut: Option<u32>,
    pub(crate) awaited: u32,
    /// For each side whether the packet of the last item that its closed lane received goes on.
    pub(crate) cut: [bool; 2],
    /// Whether it has closed the socket, and whether the driver has acknowledged that.
    pub(crate) begun: bool,
    pub(crate) acked: bool,
    pub(crate) turn: Turn,
    pub(crate) wait: Wait,
    ghost pooled: { 1 ≤ pool_of config.now },
    ghost classed: { 1 ≤ lanes_of config.now },
    ghost known: { app < apps_of config.now },
    ghost some: { 1 ≤ batch },
    ghost few: { batch ≤ 32 },
    ghost batch_is: { batch ≡ batch_of config.now },
    ghost ways_are: { AreWays config.now app ways.items },
    ghost pairs_are: { pairs ≡ pair_of config.now app 0 ∷ pair_of config.now app 1 ∷ [] },
    ghost lanes: { length pending.items ≡ lanes_of config.now },
    ghost sides: { length backs.items ≡ 2 },
    ghost numbered: { number < 1099511627776 },
    ghost classes_are: { classes ≡ classes_of config.now },
    ghost shut_is: { shut ≡ socket_in (shut_of config.now app) },
    ghost ready: { IsReady config.now pending.items backs.items wait } by { IsReady-prop config.now pending.items backs.items wait },
}

impl<'a> Machine<'a> {
    ghost use Rattle.xsk_app.specs.Waits.{expects};
    ghost use Rattle.xsk_app.specs.Gives.{Gives};
    ghost use Rattle.xsk_turns.specs.AppTurns.{tx_of, tx_pair, kick, wake, wake_both, pass_on, receive_lane, visit_lane, visit_lanes, noted_first, turn_lanes, end_by, drains, give_back, complete_side, visit_side, back_at, pending_at, with_back, with_seen, with_gone, look_rx_done, look_gone, tell_tx_done, end_or_look, turn_sides};
    ghost use Rattle.xsk_app.specs.Stands.{GoesOn, to_do, doing, by_reply, IsSame, HasSameRest, noted_by, kept_by, from_lane, after_full_lane, from_side, after_full_side, after_group, after, wake_by, told_tx_done};
    ghost use Rattle.xsk_turns.specs.Script.{again};

    /// Goes on with the answer to the last call, whose items stand in the batch, and writes the next one, none where it has ended,
    /// with its items there.
    #[inline(always)]
    pub(crate) fn step(
        &mut self,
        answer: Option<Answer>,
        items: &mut Batch,
        asked: &mut Option<Ask>,
    )
        requires comes { CanCome (expects self.old.wait) (joined_answer answer items.old) }
        requires lent { IsLent answer items.old }
        ensures expected { expects self.new.wait ≡ expected_of (joined_ask asked.new items.new) }
        ensures goes { GoesOn self.old.config.now self.old.app self.new (joined_ask asked.new items.new) (to_do self.old.config.now self.old.app self.old (joined_answer answer items.old)) }
        ensures same { IsSame self.old self.new }
        ensures given_back { IsGivenBack asked.new items.new }
    {
        match (self.wait, answer) {
            (Wait::Start, _) => self.begin(asked),
            (Wait::LowerCell { socket, index }, _) => self.lower_from(socket, index + 1, asked),
            (Wait::TellClosing { socket }, _) => self.go_on_closed(socket, asked),
            (Wait::DrainRx { lane }, Some(Answer::Items)) => self.take_drained(lane, items, asked),
            (Wait::DrainRx { lane }, _) => self.go_to_lane(lane + 1, asked),
            (Wait::ReleaseDrained { lane }, _) => self.go_on_full_lane(lane, asked),
            (Wait::PeekRx { lane }, Some(Answer::Items)) => self.take_received(lane, items, asked),
            (Wait::PeekRx { lane }, _) => self.go_to_lane(lane + 1, asked),
            (Wait::ReleaseRx { lane }, _) => self.reserve_tx(lane, asked),
            (Wait::ReserveTx { lane }, Some(Answer::Granted)) => self.send_on(lane, items, asked),
            (Wait::ReserveTx { lane }, _) => self.go_on_full_lane(lane, asked),
            (Wait::SubmitTx { lane }, _) => self.wake_lane(lane, asked),
            (Wait::PeekComp { side }, Some(Answer::Items)) => {
                self.take_completed(side, items, asked);
            }
            (Wait::PeekComp { side }, _) => self.go_to_side(side + 1, asked),
            (Wait::ReleaseComp { side }, _) => self.give_back(side, asked),
            (Wait::ReserveFill { side, home, count }, Some(Answer::Granted)) => {
                self.refill(side, home, count, items, asked);
            }
            (Wait::ReserveFill { side, .. }, _) => self.find_fill_full(side, asked),
            (Wait::SubmitFill { side, home }, _) => {
                self.wake(Mark::NeedFill(home), home, Next::Side { side }, asked);
            }
            (Wait::LookNeed { pair, next }, Some(Answer::Old(need))) => {
                self.learn_need(pair, next, need, asked);
            }
            (Wait::Kick { next }, _) => self.go_on_behind(next, asked),
            (Wait::LookAcked, Some(Answer::Old(acked))) => self.learn_acked(acked, asked),
            (Wait::LookRxDone { side }, Some(Answer::Old(done))) => {
                self.learn_rx_done(side, done, asked);
            }
            (Wait::TellTxDone, _) => self.stop_sending(asked),
            (Wait::LookGone { side }, Some(Answer::Old(gone))) => {
                self.learn_gone(side, gone, asked);
            }
            _ => unreachable!(),
        }
    }

    /// Begins a turn: with the first side where nothing more is sent, and else with the first lane, before which the socket is
    /// closed where that is due.
    pub(crate) fn begin(&mut self, asked: &mut Option<Ask>)
        ensures gives { Gives self.old self.new asked.new [] }
        ensures goes { GoesOn self.old.config.now self.old.app self.new (joined_ask asked.new []) (again (kept_by self.old)) }
    {
        if self.tx_done {
            self.begin_sides(asked);
            return;
        }
        match self.shut {
            Some(socket) => self.begin_closing(socket, asked),
            None => self.begin_lanes(asked),
        }
    }

    /// What is so as a turn begins.
    fn first_turn(&self) -> Turn
        ensures { noted_by result ≡ noted_first (kept_by self.now) }
    {
        Turn {
            seen: self.seen[0] && self.seen[1],
            gone: self.gone[0] && self.gone[1],
            lanes_empty: true,
            sides_empty: true,
            acked: self.acked,
        }
    }

    fn begin_sides(&mut self, asked: &mut Option<Ask>)
        ensures gives { Gives self.old self.new asked.new [] }
        ensures goes { doing self.old.config.now self.old.app self.new (joined_ask asked.new []) ≡ turn_sides self.old.config.now self.old.app (noted_first (kept_by self.old)) (kept_by self.old) }
    {
        self.turn = self.first_turn();
        self.open_side(0, asked);
    }

    pub(crate) fn begin_lanes(&mut self, asked: &mut Option<Ask>)
        ensures gives { Gives self.old self.new asked.new [] }
        ensures goes { GoesOn self.old.config.now self.old.app self.new (joined_ask asked.new []) (turn_lanes self.old.config.now self.old.app (kept_by self.old)) }
    {
        self.turn = self.first_turn();
        self.open_lane(0, asked);
    }

    /// Peeks the lane's RX ring, or asks for places on its TX ring where packets are pending.
    pub(crate) fn visit_lane(&mut self, lane: usize, asked: &mut Option<Ask>)
        requires lane { lane < vec_len self.old.pending }
        requires other { drains self.old.config.now self.old.app lane (kept_by self.old) ≡ false }
        ensures gives { Gives self.old self.new asked.new [] }
        ensures goes { doing self.old.config.now self.old.app self.new (joined_ask asked.new []) ≡ from_lane self.old.config.now self.old.app lane (noted_by self.old.turn) (kept_by self.old) }
    {
        if self.pending[lane].is_empty() {
            self.wait = Wait::PeekRx { lane };
            *asked = Some(Ask::Peek(Ring::Rx(self.ways[lane].rx), self.batch));
        } else {
            self.reserve_tx(lane, asked);
        }
    }

    #[tactic(auto, using(crate::proofs::Steps::goes_begun))]
    pub(crate) fn go_to_lane(&mut self, lane: usize, asked: &mut Option<Ask>)
        ensures gives { Gives self.old self.new asked.new [] }
        ensures goes { GoesOn self.old.config.now self.old.app self.new (joined_ask asked.new []) (from_lane self.old.config.now self.old.app lane (noted_by self.old.turn) (kept_by self.old)) }
    {
        if lane < self.pending.len() {
            self.open_lane(lane, asked);
        } else {
            self.go_to_side(0, asked);
        }
    }

    /// Goes on behind a lane that had packets.
    pub(crate) fn go_on_full_lane(&mut self, lane: usize, asked: &mut Option<Ask>)
        requires { lane < vec_len self.old.pending }
        ensures gives { Gives self.old self.new asked.new [] }
        ensures goes { GoesOn self.old.config.now self.old.app self.new (joined_ask asked.new []) (after_full_lane self.old.config.now self.old.app lane (noted_by self.old.turn) (kept_by self.old)) }
    {
        self.turn.lanes_empty = false;
        self.go_to_lane(lane + 1, asked);
    }

    /// Keeps the items that were received on a lane that had none.
    fn take_received(&mut self, lane: usize, items: &mut Batch, asked: &mut Option<Ask>)
        requires lane { lane < vec_len self.old.pending }
        requires empty { pending_at (kept_by self.old) lane ≡ [] }
        ensures gives { Gives self.old self.new asked.new items.new }
        ensures goes { doing self.old.config.now self.old.app self.new (joined_ask asked.new items.new) ≡ receive_lane self.old.config.now self.old.app lane (kept_by self.old) (after_full_lane self.old.config.now self.old.app lane (noted_by self.old.turn)) items.old }
    {
        let count = items.len();
        let rx = self.ways[lane].rx;
        self.wait = Wait::ReleaseRx { lane };
        self.pending[lane].append(items);
        self.note_received(lane);
        *asked = Some(Ask::Release(Ring::Rx(rx), count));
    }

    /// Asks for places on the lane's TX ring.
    fn reserve_tx(&mut self, lane: usize, asked: &mut Option<Ask>)
        requires { lane < vec_len self.old.pending }
        ensures gives { Gives self.old self.new asked.new [] }
        ensures goes { doing self.old.config.now self.old.app self.new (joined_ask asked.new []) ≡ pass_on self.old.config.now self.old.app lane (kept_by self.old) (after_full_lane self.old.config.now self.old.app lane (noted_by self.old.turn)) }
    {
        self.wait = Wait::ReserveTx { lane };
        *asked = Some(Ask::Reserve(Ring::Tx(self.ways[lane].tx), self.pending[lane].len()));
    }

    /// Puts the lane's pending items on its TX ring as they are, or as its manner changes them.
    fn send_on(&mut self, lane: usize, items: &mut Batch, asked: &mut Option<Ask>)
        requires lane { lane < vec_len self.old.pending }
        requires empty { items.old ≡ [] }
        ensures gives { Gives self.old self.new asked.new items.new }
        ensures goes { doing self.old.config.now self.old.app self.new (joined_ask asked.new items.new) ≡ by_reply (pass_on self.old.config.now self.old.app lane (kept_by self.old) (after_full_lane self.old.config.now self.old.app lane (noted_by self.old.turn))) reply.Granted }
    {
        let tx = self.ways[lane].tx;
        self.wait = Wait::SubmitTx { lane };
        self.put_out(lane, items);
        *asked = Some(Ask::Submit(Ring::Tx(tx)));
    }

    /// Wakes the driver of the lane's TX ring.
    fn wake_lane(&mut self, lane: usize, asked: &mut Option<Ask>)
        requires { lane < vec_len self.old.pending }
        ensures gives { Gives self.old self.new asked.new [] }
        ensures goes { GoesOn self.old.config.now self.old.app self.new (joined_ask asked.new []) (wake self.old.config.now (mark.NeedTx (tx_of self.old.config.now self.old.app lane)) (tx_pair self.old.config.now self.old.app lane) (kept_by self.old) (after_full_lane self.old.config.now self.old.app lane (noted_by self.old.turn) (kept_by self.old))) }
    {
        let way = self.ways[lane];
        self.wake(Mark::NeedTx(way.tx), way.pair, Next::Lane { lane }, asked);
    }

    /// Looks at a ring's flag, where the flags are used, to wake the pair's driver.
    fn wake(&mut self, need: Mark, pair: u32, next: Next, asked: &mut Option<Ask>)
        requires { CanGoOn self.old.pending.items next }
        ensures gives { Gives self.old self.new asked.new [] }
        ensures goes { GoesOn self.old.config.now self.old.app self.new (joined_ask asked.new []) (wake self.old.config.now need pair (kept_by self.old) (after self.old.config.now self.old.app next (noted_by self.old.turn) (kept_by self.old))) }
    {
        if self.config.wakeup() {
            self.wait = Wait::LookNeed { pair, next };
            *asked = Some(Ask::Look(need));
        } else {
            self.go_on_behind(next, asked);
        }
    }

    /// Wakes the pair's driver where the ring's flag is set.
    fn learn_need(&mut self, pair: u32, next: Next, need: u64, asked: &mut Option<Ask>)
        requires { CanGoOn self.old.pending.items next }
        ensures gives { Gives self.old self.new asked.new [] }
        ensures goes { GoesOn self.old.config.now self.old.app self.new (joined_ask asked.new []) (wake_by pair (kept_by self.old) (after self.old.config.now self.old.app next (noted_by self.old.turn) (kept_by self.old)) need) }
    {
        if need == 1 {
            self.kick(pair, next, asked);
        } else {
            self.go_on_behind(next, asked);
        }
    }

    /// Wakes the pair's driver.
    pub(crate) fn kick(&mut self, pair: u32, next: Next, asked: &mut Option<Ask>)
        requires { CanGoOn self.old.pending.items next }
        ensures gives { Gives self.old self.new asked.new [] }
        ensures goes { GoesOn self.old.config.now self.old.app self.new (joined_ask asked.new []) (kick pair (kept_by self.old) (after self.old.config.now self.old.app next (noted_by self.old.turn) (kept_by self.old))) }
    {
        self.wait = Wait::Kick { next };
        *asked = Some(Ask::Swap(Mark::Kick(pair), 1));
    }

    /// Goes on behind a wake.
    fn go_on_behind(&mut self, next: Next, asked: &mut Option<Ask>)
        requires { CanGoOn self.old.pending.items next }
        ensures gives { Gives self.old self.new asked.new [] }
        ensures goes { GoesOn self.old.config.now self.old.app self.new (joined_ask asked.new []) (after self.old.config.now self.old.app next (noted_by self.old.turn) (kept_by self.old)) }
    {
        match next {
            Next::Lane { lane } => self.go_on_full_lane(lane, asked),
            Next::Side { side } => self.give_back(side, asked),
            Next::Second => self.kick(self.pairs[1], Next::Turn, asked),
            Next::Lanes => self.begin_lanes(asked),
            Next::Turn => self.begin(asked),
        }
    }

    /// Peeks the side's COMPLETION ring, or gives back the frames that it has.
    fn open_side(&mut self, side: usize, asked: &mut Option<Ask>)
        requires { side < 2 }
        ensures gives { Gives self.old self.new asked.new [] }
        ensures goes { doing self.old.config.now self.old.app self.new (joined_ask asked.new []) ≡ from_side self.old.config.now self.old.app side (noted_by self.old.turn) (kept_by self.old) }
    {
        match self.backs[side].first_group(self.config.pool(), self.batch) {
            Some((home, count)) => self.reserve_fill(side, home, count, asked),
            None => {
                self.wait = Wait::PeekComp { side };
                *asked = Some(Ask::Peek(Ring::Comp(self.pairs[side]), self.batch));
            }
        }
    }

    #[tactic(auto, using(crate::proofs::Steps::goes_begun))]
    fn go_to_side(&mut self, side: usize, asked: &mut Option<Ask>)
        ensures gives { Gives self.old self.new asked.new [] }
        ensures goes { GoesOn self.old.config.now self.old.app self.new (joined_ask asked.new []) (from_side self.old.config.now self.old.app side (noted_by self.old.turn) (kept_by self.old)) }
    {
        if side < SIDES {
            self.open_side(side, asked);
        } else {
            self.end_turn(asked);
        }
    }

    /// Goes on behind a side that had frames.
    fn go_on_full_side(&mut self, side: usize, asked: &mut Option<Ask>)
        requires { side < 2 }
        ensures gives { Gives self.old self.new asked.new [] }
        ensures goes { GoesOn self.old.config.now self.old.app self.new (joined_ask asked.new []) (after_full_side self.old.config.now self.old.app side (noted_by self.old.turn) (kept_by self.old)) }
    {
        self.turn.sides_empty = false;
        self.go_to_side(side + 1, asked);
    }

    /// Keeps the frames that were completed on a side that had none.
    fn take_completed(&mut self, side: usize, items: &mut Batch, asked: &mut Option<Ask>)
        requires side { side < 2 }
        requires empty { back_at (kept_by self.old) side ≡ [] }
        ensures gives { Gives self.old self.new asked.new items.new }
        ensures goes { doing self.old.config.now self.old.app self.new (joined_ask asked.new items.new) ≡ complete_side self.old.config.now self.old.app side (kept_by self.old) (after_full_side self.old.config.now self.old.app side (noted_by self.old.turn)) items.old }
    {
        let count = items.len();
        self.wait = Wait::ReleaseComp { side };
        self.backs[side].keep(items);
        *asked = Some(Ask::Release(Ring::Comp(self.pairs[side]), count));
    }

    /// Gives back the next frames that have one home, or goes on where the side has none.
    #[tactic(auto, using(crate::proofs::Steps::goes_begun))]
    fn give_back(&mut self, side: usize, asked: &mut Option<Ask>)
        requires { side < 2 }
        ensures gives { Gives self.old self.new asked.new [] }
        ensures goes { GoesOn self.old.config.now self.old.app self.new (joined_ask asked.new []) (after_group self.old.config.now self.old.app side (noted_by self.old.turn) (kept_by self.old)) }
    {
        match self.backs[side].first_group(self.config.pool(), self.batch) {
            Some((home, count)) => self.reserve_fill(side, home, count, asked),
            None => self.go_on_full_side(side, asked),
        }
    }

    fn reserve_fill(&mut self, side: usize, home: u32, count: u32, asked: &mut Option<Ask>)
        requires side { side < 2 }
        requires group { IsGroup (pool_of self.old.config.now) (batch_of self.old.config.now) (back_at (kept_by self.old) side) home count }
        ensures gives { Gives self.old self.new asked.new [] }
        ensures goes { doing self.old.config.now self.old.app self.new (joined_ask asked.new []) ≡ give_back self.old.config.now side 0 (back_at (kept_by self.old) side) (kept_by self.old) (after_full_side self.old.config.now self.old.app side (noted_by self.old.turn)) }
    {
        self.wait = Wait::ReserveFill { side, home, count };
        *asked = Some(Ask::Reserve(Ring::Fill(home), count));
    }

    /// Puts the side's first frames on the FILL ring of their home.
    fn refill(
        &mut self,
        side: usize,
        home: u32,
        count: u32,
        items: &mut Batch,
        asked: &mut Option<Ask>,
    )
        requires side { side < 2 }
        requires group { IsGroup (pool_of self.old.config.now) (batch_of self.old.config.now) (back_at (kept_by self.old) side) home count }
        requires empty { items.old ≡ [] }
        ensures gives { Gives self.old self.new asked.new items.new }
        ensures goes { doing self.old.config.now self.old.app self.new (joined_ask asked.new items.new) ≡ by_reply (give_back self.old.config.now side 0 (back_at (kept_by self.old) side) (kept_by self.old) (after_full_side self.old.config.now self.old.app side (noted_by self.old.turn))) reply.Granted }
    {
        self.wait = Wait::SubmitFill { side, home };
        self.backs[side].give(self.config.geometry(), count, items);
        *asked = Some(Ask::Submit(Ring::Fill(home)));
    }

    /// Keeps the side's frames, for which the FILL ring of their home has no room.
    fn find_fill_full(&mut self, side: usize, asked: &mut Option<Ask>)
        requires side { side < 2 }
        requires some { back_at (kept_by self.old) side ≢ [] }
        ensures gives { Gives self.old self.new asked.new [] }
        ensures goes { (free : ℕ) → GoesOn self.old.config.now self.old.app self.new (joined_ask asked.new []) (by_reply (give_back self.old.config.now side 0 (back_at (kept_by self.old) side) (kept_by self.old) (after_full_side self.old.config.now self.old.app side (noted_by self.old.turn))) (reply.Full free)) }
    {
        self.go_on_full_side(side, asked);
    }

    /// Ends a turn, by the facts as they are now.
    pub(crate) fn end_by_facts(&mut self, asked: &mut Option<Ask>)
        ensures gives { Gives self.old self.new asked.new [] }
        ensures goes { GoesOn self.old.config.now self.old.app self.new (joined_ask asked.new []) (end_by self.old.config.now self.old.app (noted_by self.old.turn) (kept_by self.old)) }
    {
        if self.tx_done {
            self.end_or_look(asked);
        } else if self.seen[0] && self.seen[1] {
            self.end_sending(asked);
        } else {
            self.look_rx_done(0, asked);
        }
    }

    /// Looks at the first side from this one on that has not told that it has no further packet.
    fn look_rx_done(&mut self, side: usize, asked: &mut Option<Ask>)
        requires { side ≤ 2 }
        ensures gives { Gives self.old self.new asked.new [] }
        ensures goes { GoesOn self.old.config.now self.old.app self.new (joined_ask asked.new []) (look_rx_done self.old.config.now self.old.app (2 - side) side (kept_by self.old)) }
    {
        match first_unset(self.seen, side) {
            Some(side) => {
                self.wait = Wait::LookRxDone { side };
                *asked = Some(Ask::Look(Mark::RxDone(self.pairs[side])));
            }
            None => self.begin(asked),
        }
    }

    fn learn_rx_done(&mut self, side: usize, done: u64, asked: &mut Option<Ask>)
        requires { side < 2 }
        ensures gives { Gives self.old self.new asked.new [] }
        ensures goes { GoesOn self.old.config.now self.old.app self.new (joined_ask asked.new []) (look_rx_done self.old.config.now self.old.app (2 - (side + 1)) (side + 1) (with_seen (kept_by self.old) side done)) }
    {
        if done == 1 {
            self.seen[side] = true;
        }
        self.look_rx_done(side + 1, asked);
    }

    /// Tells that nothing more is sent, where both sides were seen as the turn began and each lane was empty in it; and where it
    /// has closed a socket, only if that was acknowledged as the turn began.
    fn end_sending(&mut self, asked: &mut Option<Ask>)
        ensures gives { Gives self.old self.new asked.new [] }
        ensures goes { GoesOn self.old.config.now self.old.app self.new (joined_ask asked.new []) (tell_tx_done self.old.config.now self.old.app (noted_by self.old.turn) (kept_by self.old)) }
    {
        let acked = !self.begun || self.turn.acked;
        if self.turn.seen && self.turn.lanes_empty && acked {
            self.wait = Wait::TellTxDone;
            *asked = Some(Ask::Swap(Mark::TxDone(self.app), 1));
        } else {
            self.begin(asked);
        }
    }

    /// Wakes both drivers, where the flags are used, once it told that it sends nothing more.
    fn stop_sending(&mut self, asked: &mut Option<Ask>)
        ensures gives { Gives self.old self.new asked.new [] }
        ensures goes { GoesOn self.old.config.now self.old.app self.new (joined_ask asked.new []) (wake_both self.old.config.now self.old.app (told_tx_done (kept_by self.old))) }
    {
        self.tx_done = true;
        if self.config.wakeup() {
            self.kick(self.pairs[0], Next::Second, asked);
        } else {
            self.begin(asked);
        }
    }

    /// Ends where both drivers had ended as the turn began and nothing is left to give back, and else looks for them.
    fn end_or_look(&mut self, asked: &mut Option<Ask>)
        ensures gives { Gives self.old self.new asked.new [] }
        ensures goes { GoesOn self.old.config.now self.old.app self.new (joined_ask asked.new []) (end_or_look self.old.config.now self.old.app (noted_by self.old.turn) (kept_by self.old)) }
    {
        let nothing_left = self.backs[0].is_empty() && self.backs[1].is_empty();
        if self.turn.gone && self.turn.sides_empty && nothing_left {
            self.wait = Wait::Ended;
            *asked = None;
            return;
        }
        self.look_gone(0, asked);
    }

    /// Looks at the first side from this one on whose driver isn't known to have ended.
    fn look_gone(&mut self, side: usize, asked: &mut Option<Ask>)
        requires { side ≤ 2 }
        ensures gives { Gives self.old self.new asked.new [] }
        ensures goes { GoesOn self.old.config.now self.old.app self.new (joined_ask asked.new []) (look_gone self.old.config.now self.old.app (2 - side) side (kept_by self.old)) }
    {
        match first_unset(self.gone, side) {
            Some(side) => {
                self.wait = Wait::LookGone { side };
                *asked = Some(Ask::Look(Mark::Gone(self.pairs[side])));
            }
            None => self.begin(asked),
        }
    }

    fn learn_gone(&mut self, side: usize, gone: u64, asked: &mut Option<Ask>)
        requires { side < 2 }
        ensures gives { Gives self.old self.new asked.new [] }
        ensures goes { GoesOn self.old.config.now self.old.app self.new (joined_ask asked.new []) (look_gone self.old.config.now self.old.app (2 - (side + 1)) (side + 1) (with_gone (kept_by self.old) side gone)) }
    {
        if gone == 1 {
            self.gone[side] = true;
        }
        self.look_gone(side + 1, asked);
    }
}

/// The first side from this one on that isn't set.
fn first_unset(flags: [bool; 2], side: usize) -> Option<usize>
    requires { side ≤ 2 }
    ensures value { result ≡ first_unset flags (2 - side) side }
    ensures below { IfSome result (λ other. other < 2) }
{
    for other in side..SIDES {
        if !flags[other] {
            return Some(other);
        }
    }
    None
}
