//! How the application's machine closes a socket while traffic flows: once so many items came, and all packets of the closed
//! lanes have gone on whole, it lowers each cell that held the socket and tells that it is closed. From then on it gives back
//! what comes on the closed lanes, and it sends on until it has seen that the driver acknowledged.
ghost use Rattle.std.specs.Prelude.{Some, None, true, ◌≡◌, ℕ, ◌+◌, ◌-◌, ◌<◌, ◌≤◌, ◌&&◌, [], ◌++◌, IfSome, length, take, vec_len};
ghost use Rattle.xsk_umem.specs.Limits.{most_frames};
ghost use Rattle.xsk_model.specs.Config.{classes_of, map_of, IsRegular};
ghost use Rattle.xsk_model.specs.Marks.{apps_of};
ghost use Rattle.xsk_model.specs.Rings.{port_of};
ghost use Rattle.xsk_model.specs.declared.call.Ring.TheVariants as ring;
ghost use Rattle.xsk_model.specs.declared.call.Reply.TheVariants as reply;
ghost use Rattle.xsk_turns.specs.AppTurns.{shut_of, is_none, is_cut};
ghost use Rattle.xsk_turns.specs.Turns.{frames_in};
ghost use Rattle.xsk_turns.specs.Stepping.{joined_ask};
ghost use Rattle.xsk_app.specs.Ways.{socket_in, first_cell};

use crate::back::Back;
use crate::kept::side_pair;
use crate::machine::{Machine, Next, Wait};
use xsk_model::{Ask, Config, Mark, Ring};
use xsk_umem::Batch;

/// The machine's closing.
impl<'a> Machine<'a> {
    ghost use Rattle.xsk_app.specs.Gives.{Gives};
    ghost use Rattle.xsk_turns.specs.AppTurns.{drains, is_closed, may_close, close_first, turn_lanes, end_by, end_turn, look_acked, with_acked, wake_closed, with_begun, pair_of, pending_at, drained};
    ghost use Rattle.xsk_app.specs.Stands.{GoesOn, doing, HasSameRest, noted_by, kept_by, side_by, shut_with, lower_from, from_lane, counted, is_due, drain_by};

    /// Whether the lane is a closed one, once the socket is closed.
    pub(crate) fn drains(&self, lane: usize) -> bool
        requires { lane < vec_len self.now.pending }
        ensures { result ≡ drains self.now.config.now self.now.app lane (kept_by self.now) }
    {
        self.begun && self.is_closed(lane)
    }

    /// Whether it comes from the socket to close, or goes to it.
    fn is_closed(&self, lane: usize) -> bool
        requires { lane < vec_len self.now.pending }
        ensures { result ≡ is_closed self.now.config.now self.now.app lane self.now.config.now.closing }
    {
        let Some(socket) = self.config.closing() else {
            return false;
        };
        let way = self.ways[lane];
        way.rx == socket || way.tx == socket
    }

    /// Closes the socket where that is due, and begins with the lanes where it isn't.
    pub(crate) fn begin_closing(&mut self, socket: u32, asked: &mut Option<Ask>)
        requires mine { socket_in (shut_of self.old.config.now self.old.app) ≡ Some socket }
        ensures gives { Gives self.old self.new asked.new [] }
        ensures goes { GoesOn self.old.config.now self.old.app self.new (joined_ask asked.new []) (close_first self.old.config.now self.old.app (Some (shut_with self.old.config.now self.old.app socket)) (kept_by self.old) (turn_lanes self.old.config.now self.old.app)) }
    {
        // The configuration is lawful.
        let _sockets = self.config.sockets();
        if self.may_close(socket) {
            self.lower_from(socket, 0, asked);
        } else {
            self.begin_lanes(asked);
        }
    }

    /// Whether it is due: so many items came, and on both closed lanes all packets have gone on whole.
    fn may_close(&self, socket: u32) -> bool
        ensures { result ≡ may_close self.now.config.now (shut_with self.now.config.now self.now.app socket) (kept_by self.now) }
    {
        if self.is_due() {
            self.are_idle(socket % self.classes)
        } else {
            false
        }
    }

    fn is_due(&self) -> bool
        ensures { result ≡ is_due (kept_by self.now) }
    {
        !self.begun && self.awaited == 0 && !self.cut[0] && !self.cut[1]
    }

    /// Whether no item of the class is pending, either way.
    fn are_idle(&self, class: u32) -> bool
        requires { class < classes_of self.now.config.now }
        ensures { result ≡ (is_none (pending_at (kept_by self.now) class) && is_none (pending_at (kept_by self.now) (classes_of self.now.config.now + class))) }
    {
        let first = class as usize;
        let second = self.classes as usize + first;
        self.is_idle(first) && self.is_idle(second)
    }

    /// Whether no item of the lane is pending.
    fn is_idle(&self, lane: usize) -> bool
        requires { lane < vec_len self.now.pending }
        ensures { result ≡ is_none (pending_at (kept_by self.now) lane) }
    {
        self.pending[lane].is_empty()
    }

    /// The pair of the socket, which is one of the application's.
    fn shut_pair(&self, socket: u32) -> u32
        ensures { result ≡ pair_of self.now.config.now self.now.app (side_by self.now.config.now self.now.app socket) }
    {
        let pair = socket / self.classes;
        let first = self.pairs[0];
        if pair == first { first } else { self.pairs[1] }
    }

    /// Lowers the first cell from this one on that held the socket at the opening, and tells that it is closed where there is none.
    pub(crate) fn lower_from(&mut self, socket: u32, index: u32, asked: &mut Option<Ask>)
        requires known { socket < length self.old.config.now.sockets }
        requires index { index ≤ 64 }
        ensures gives { Gives self.old self.new asked.new [] }
        ensures goes { GoesOn self.old.config.now self.old.app self.new (joined_ask asked.new []) (lower_from self.old.config.now self.old.app socket index (kept_by self.old)) }
    {
        let port = port_of(self.config, socket);
        match first_cell(self.config, port, socket, index) {
            Some(index) => {
                self.wait = Wait::LowerCell { socket, index };
                *asked = Some(Ask::Swap(Mark::Cell(port, index), 0));
            }
            None => {
                self.wait = Wait::TellClosing { socket };
                *asked = Some(Ask::Swap(Mark::Closing(socket), 1));
            }
        }
    }

    /// Wakes the socket's driver, where the flags are used, once it told that the socket is closed, and begins with the lanes.
    pub(crate) fn go_on_closed(&mut self, socket: u32, asked: &mut Option<Ask>)
        ensures gives { Gives self.old self.new asked.new [] }
        ensures goes { GoesOn self.old.config.now self.old.app self.new (joined_ask asked.new []) (wake_closed self.old.config.now (pair_of self.old.config.now self.old.app (side_by self.old.config.now self.old.app socket)) (with_begun (kept_by self.old)) (turn_lanes self.old.config.now self.old.app (with_begun (kept_by self.old)))) }
    {
        self.begun = true;
        if self.config.wakeup() {
            self.kick(self.shut_pair(socket), Next::Lanes, asked);
        } else {
            self.begin_lanes(asked);
        }
    }

    /// Notes what a lane received, where it is a closed one: that so many fewer items are awaited, and whether the packet of the
    /// last one goes on.
    #[inline(always)]
    pub(crate) fn note_received(&mut self, lane: usize)
        requires lane { lane < vec_len self.old.pending }
        ensures kept { kept_by self.new ≡ counted self.old.config.now self.old.app lane (kept_by self.old) }
        ensures rest { HasSameRest self.old self.new }
    {
        if let Some(socket) = self.config.closing() {
            self.count_received(lane, socket);
        }
    }

    fn count_received(&mut self, lane: usize, socket: u32)
        requires lane { lane < vec_len self.old.pending }
        requires closing { self.old.config.now.closing ≡ Some socket }
        ensures kept { kept_by self.new ≡ counted self.old.config.now self.old.app lane (kept_by self.old) }
        ensures rest { HasSameRest self.old self.new }
    {
        let way = self.ways[lane];
        let items = &self.pending[lane];
        let count = items.len();
        let cut = is_cut(items);
        if way.rx == socket {
            self.awaited = u32::saturating_sub(self.awaited, count);
            self.cut[way.side] = cut;
        } else if way.tx == socket {
            self.cut[way.side] = cut;
        }
    }

    /// Opens a lane: once the socket is closed, a closed one only to drain it.
    pub(crate) fn open_lane(&mut self, lane: usize, asked: &mut Option<Ask>)
        requires { lane < vec_len self.old.pending }
        ensures gives { Gives self.old self.new asked.new [] }
        ensures goes { doing self.old.config.now self.old.app self.new (joined_ask asked.new []) ≡ from_lane self.old.config.now self.old.app lane (noted_by self.old.turn) (kept_by self.old) }
    {
        if self.drains(lane) {
            self.peek_closed(lane, asked);
        } else {
            self.visit_lane(lane, asked);
        }
    }

    /// Peeks a closed lane's RX ring.
    pub(crate) fn peek_closed(&mut self, lane: usize, asked: &mut Option<Ask>)
        requires lane { lane < vec_len self.old.pending }
        requires closed { drains self.old.config.now self.old.app lane (kept_by self.old) ≡ true }
        ensures gives { Gives self.old self.new asked.new [] }
        ensures goes { doing self.old.config.now self.old.app self.new (joined_ask asked.new []) ≡ from_lane self.old.config.now self.old.app lane (noted_by self.old.turn) (kept_by self.old) }
    {
        self.wait = Wait::DrainRx { lane };
        *asked = Some(Ask::Peek(Ring::Rx(self.ways[lane].rx), self.batch));
    }

    /// Keeps the frames of the items that stood there with those that go back.
    pub(crate) fn take_drained(&mut self, lane: usize, items: &mut Batch, asked: &mut Option<Ask>)
        requires lane { lane < vec_len self.old.pending }
        ensures gives { Gives self.old self.new asked.new items.new }
        ensures goes { doing self.old.config.now self.old.app self.new (joined_ask asked.new items.new) ≡ drain_by self.old.config.now self.old.app lane (noted_by self.old.turn) (kept_by self.old) (reply.Items items.old) }
    {
        let count = items.len();
        let way = self.ways[lane];
        self.wait = Wait::ReleaseDrained { lane };
        keep_behind(&mut self.backs[way.side], items);
        *asked = Some(Ask::Release(Ring::Rx(way.rx), count));
    }

    /// Ends a turn, where it has closed a socket with a look whether that is acknowledged before.
    pub(crate) fn end_turn(&mut self, asked: &mut Option<Ask>)
        ensures gives { Gives self.old self.new asked.new [] }
        ensures goes { GoesOn self.old.config.now self.old.app self.new (joined_ask asked.new []) (end_turn self.old.config.now self.old.app (noted_by self.old.turn) (kept_by self.old)) }
    {
        match self.shut {
            Some(socket) => self.look_acked(socket, asked),
            None => self.end_by_facts(asked),
        }
    }

    /// Looks whether the driver has acknowledged the closing, until it has.
    pub(crate) fn look_acked(&mut self, socket: u32, asked: &mut Option<Ask>)
        ensures gives { Gives self.old self.new asked.new [] }
        ensures goes { GoesOn self.old.config.now self.old.app self.new (joined_ask asked.new []) (look_acked (Some (shut_with self.old.config.now self.old.app socket)) (kept_by self.old) (end_by self.old.config.now self.old.app (noted_by self.old.turn))) }
    {
        if self.begun && !self.acked {
            self.wait = Wait::LookAcked;
            *asked = Some(Ask::Look(Mark::Acked(socket)));
            return;
        }
        self.end_by_facts(asked);
    }

    pub(crate) fn learn_acked(&mut self, acked: u64, asked: &mut Option<Ask>)
        ensures gives { Gives self.old self.new asked.new [] }
        ensures goes { GoesOn self.old.config.now self.old.app self.new (joined_ask asked.new []) (end_by self.old.config.now self.old.app (noted_by self.old.turn) (with_acked (kept_by self.old) acked)) }
    {
        self.acked = acked == 1;
        self.end_by_facts(asked);
    }
}

/// The socket that is to be closed, where it is one of the application's.
pub(crate) fn shut_on(config: &Config, app: u32) -> Option<u32>
    requires regular { IsRegular config.now }
    requires app { app < apps_of config.now }
    ensures { result ≡ socket_in (shut_of config.now app) }
{
    let socket = config.closing()?;
    let pair = socket / config.classes();
    if pair == side_pair(config, app, 0) || pair == side_pair(config, app, 1) {
        Some(socket)
    } else {
        None
    }
}

/// The port of a socket.
fn port_of(config: &Config, socket: u32) -> u32
    requires { socket < length config.now.sockets }
    ensures value { result ≡ port_of config.now (ring.Rx socket) }
    ensures below { result < config.now.ports }
    ensures few { length config.now.sockets ≤ 64 }
{
    config.sockets()[socket as usize].port
}

/// The first cell of the port from this one on that held the socket at the opening.
#[tactic(auto, using(crate::proofs::Shutting::cell_here, crate::proofs::Shutting::cell_past, crate::proofs::Shutting::cell_last))]
fn first_cell(config: &Config, port: u32, socket: u32, index: u32) -> Option<u32>
    requires port { port < config.now.ports }
    requires few { socket < 64 }
    ensures value { result ≡ first_cell (map_of config.now port) socket (length (map_of config.now port) - index) index }
    ensures below { IfSome result (λ cell. cell < 64) }
{
    for cell in index..config.cells(port) {
        if config.cell(port, cell) == u64::from(socket + 1) {
            return Some(cell);
        }
    }
    None
}

/// Whether the packet of the last item goes on.
fn is_cut(items: &Batch) -> bool
    ensures { result ≡ is_cut items.now }
{
    let count = items.len();
    if count == 0 {
        return false;
    }
    let last = items.desc(count - 1);
    last.options != 0
}

/// Takes the items out of a batch, and keeps their frames behind the others, as many as a UMEM may have.
fn keep_behind(back: &mut Back, items: &mut Batch)
    ensures back { back.new ≡ take most_frames (back.old ++ frames_in items.old) }
    ensures items { items.new ≡ [] }
{
    // No more stand there than a UMEM may have.
    let _kept = back.len();
    while let Some(item) = items.pop_front() {
        back.add(item.frame);
    }
}
