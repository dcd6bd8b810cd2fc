//! What a station does at a frame that comes.

ghost use Rattle.std.specs.Prelude.{◌≡◌, ◌+◌, ◌-◌, ◌%◌, ◌<◌, ◌≤◌, [], ◌∷◌, ◌++◌, ℕ, List, length, option_map, IfSome, Some, None, true, false};
ghost use Rattle.er_base.specs.Stored.{Stored};
ghost use Rattle.hdlc_frames.specs.ControlOctets.{control_of};
ghost use Rattle.hdlc_frames.specs.Framing.{BadFcs, TooShort, TooLong, Aborted};
ghost use Rattle.hdlc_station_model.specs.Frames.{modulo};
ghost use Rattle.hdlc_station_model.specs.Stations.{no_deed, one_more};
ghost use Rattle.hdlc_station_model.specs.Sending.{station_down_for_cause, refuses_frame};
ghost use Rattle.hdlc_station_model.specs.Receiving.{strays, is_known_address, is_addressed, is_some_octets, errs, number_shown_as, acknowledges, by_number, accepts, marks_busy, comes_up, agrees, row_idle, row_setting, hears};

use crate::heard::{Heard, Reply, Told};
use crate::sending::{address_of, modulo_of, number_above};
use crate::station_core::StationCore;
use er_base::{Cause, Release};
use hdlc_frames::{Control, control, control_extended};
use hdlc_station_model::Phase;

// A count grows by one and stays at its greatest value.
fn one_more(count: u64) -> u64
    ensures { result ≡ one_more count }
{
    if count < u64::MAX { count + 1 } else { count }
}

/// Whether an address is that of a station.
pub(crate) fn is_known(address: u8) -> bool
    ensures { result ≡ is_known_address address }
{
    address == address_of(true) || address == address_of(false)
}

/// Whether a control stands under an address that it may bear.
pub(crate) fn is_addressed(calling: bool, address: u8, control: Control) -> bool
    ensures { result ≡ is_addressed calling address control }
{
    match control {
        Control::Info { .. } => address == address_of(calling),
        Control::Rr { .. } => true,
        Control::Rnr { .. } => true,
        Control::Rej { .. } => true,
        Control::Srej { .. } => true,
        Control::Sabm { .. } => address == address_of(calling),
        Control::Sabme { .. } => address == address_of(calling),
        Control::Disc { .. } => address == address_of(calling),
        Control::Ua => address == address_of(!calling),
        Control::Dm => address == address_of(!calling),
        Control::Frmr => address == address_of(!calling),
    }
}

/// Whether information has an octet.
pub(crate) fn has_octets(information: &[u8]) -> bool
    ensures { result ≡ is_some_octets information.now }
{
    information.len() > 0
}

// How far a number is above another one, modulo the modulo.
fn above(extended: bool, from: u8, to: u8) -> u8
    ensures sum { (from + result) % modulo extended ≡ to % modulo extended }
    ensures small { result < modulo extended }
{
    to.wrapping_sub(from) % modulo_of(extended)
}

impl StationCore {
    ghost use Rattle.hdlc_station.specs.Kept.{KeptStation, kept_of, Follows, Tells, Shown};
    ghost use Rattle.hdlc_station.specs.Replies.{FollowsWithInformation};
    ghost use Rattle.hdlc_station.specs.Told.{told_as};
    ghost use Rattle.hdlc_station_model.specs.Stations.{Station as StationModel};

    // A frame is counted and ignored.
    fn count_stray(&mut self)
        ensures follows { (out : Stored) → Follows self.old out self.new out strays }
        ensures same { self.new ≡ record self.old { counts = self.new.counts } }
    {
        self.counts.stray = one_more(self.counts.stray);
    }

    // The station is Down for this cause.
    pub(crate) fn let_go(&mut self, cause: Cause) -> Release
        ensures tells { (out : Stored) → Tells self.old out self.new out (record { up = false; payload = None; more = []; released = Some result }) (station_down_for_cause cause) }
        ensures same { self.new ≡ record self.old { phase = Phase.Down; timer = None } }
    {
        self.phase = Phase::Down;
        self.timer = None;
        cause.release()
    }

    /// A frame that the station may not accept: it answers DM.
    pub(crate) fn refuse(&mut self) -> Heard
        ensures hears { FollowsWithInformation self.old self.new result (λ information. refuses_frame) }
        ensures window { self.new.window ≡ self.old.window }
    {
        let release = self.let_go(Cause::FrameError);
        Heard {
            told: Told::Released { release },
            reply: Reply::Disconnected,
        }
    }

    /// A frame that is an error at any phase, or whose control is unknown.
    pub(crate) fn err(&mut self) -> Heard
        ensures hears { FollowsWithInformation self.old self.new result (λ information s. errs s.phase s) }
        ensures window { self.new.window ≡ self.old.window }
    {
        match self.phase {
            Phase::Idle => self.err_idle(),
            Phase::Setting => self.refuse(),
            Phase::Up => self.refuse(),
            Phase::Down => Heard::nothing(),
        }
    }

    fn err_idle(&mut self) -> Heard
        ensures hears { FollowsWithInformation self.old self.new result (λ information. errs Phase.Idle) }
        ensures window { self.new.window ≡ self.old.window }
    {
        if self.calling {
            return self.refuse();
        }
        self.stray()
    }

    // ---- N(R)

    /// How far above V(A) the number is that is shown as r, if it is one from V(A) to V(S).
    pub(crate) fn named(&self, r: u8) -> Option<u8>
        ensures named { Shown self.now (λ s. number_shown_as s.extended s.acked (s.sent - s.acked) r ≡ option_map (λ up. s.acked + up) result) }
        ensures near { IfSome result (λ up. up ≤ self.now.ahead) }
    {
        if r >= modulo_of(self.extended) {
            return None;
        }
        let up = above(self.extended, self.va, r);
        if up <= self.ahead { Some(up) } else { None }
    }

    /// The first payloads are acknowledged.
    pub(crate) fn acknowledge(&mut self, up: u8)
        requires { up ≤ self.old.ahead }
        ensures follows { (out : Stored) → Follows self.old out self.new out (λ s. acknowledges (s.acked + up) s) }
        ensures ahead { self.new.ahead + up ≡ self.old.ahead }
        ensures window { self.new.window ≡ self.old.window }
    {
        self.va = number_above(self.extended, self.va, up);
        self.ahead -= up;
        self.ring.drop_first(up as usize);
        if up > 0 {
            self.expiries = 0;
            self.timer = if self.ahead > 0 {
                Some(self.moment.get() + self.t1)
            } else {
                None
            };
        }
    }

    // ---- N(S)

    /// The next payload is taken.
    pub(crate) fn accept(&mut self)
        ensures tells { (payload : List ℕ) (out : Stored) → Tells self.old out self.new out (record { up = false; payload = Some payload; more = []; released = None }) (accepts payload) }
        ensures window { self.new.window ≡ self.old.window }
        ensures begun { self.new.begun ≡ true }
    {
        self.vr = number_above(self.extended, self.vr, 1);
        self.begun = true;
        self.gap = false;
        self.owed = true;
    }

    /// The next payload is taken, and so many behind it.
    pub(crate) fn accept_run(&mut self, more: u8)
        ensures tells { (payload : List ℕ) (payloads : List (List ℕ)) (out : Stored) → length payloads ≡ more
            → Tells self.old out self.new out (record { up = false; payload = Some payload; more = []; released = None })
            (λ s. record (accepts payload s) { taken = (s.taken ++ payload ∷ []) ++ payloads }) }
        ensures window { self.new.window ≡ self.old.window }
    {
        self.accept();
        self.vr = number_above(self.extended, self.vr, more);
    }

    /// How far above V(R) the number is that is shown as ns, if it is one of as many as the window from V(R) on.
    pub(crate) fn named_next(&self, ns: u8) -> Option<u8>
        ensures named { Shown self.now (λ s. number_shown_as s.extended (length s.taken) (s.window - 1) ns ≡ option_map (λ up. length s.taken + up) result) }
        ensures near { IfSome result (λ up. up < self.now.window) }
    {
        if ns >= modulo_of(self.extended) {
            return None;
        }
        let up = above(self.extended, self.vr, ns);
        if up < self.window { Some(up) } else { None }
    }

    /// The gap mark.
    pub(crate) fn mark_gap(&mut self, gap: bool)
        ensures follows { (out : Stored) → Follows self.old out self.new out (λ s. record s { gap = gap }) }
        ensures same { self.new ≡ record self.old { gap = gap } }
    {
        self.gap = gap;
    }

    // ---- the rows of a station that is up

    /// The peer is busy or isn't.
    pub(crate) fn mark_busy(&mut self, busy: bool)
        ensures follows { (out : Stored) → Follows self.old out self.new out (marks_busy busy) }
        ensures same { self.new ≡ record self.old { busy = busy } }
    {
        self.busy = busy;
    }

    /// RR and RNR.
    pub(crate) fn hear_ready(&mut self, nr: u8, busy: bool) -> Heard
        ensures hears { FollowsWithInformation self.old self.new result (λ information. by_number nr (marks_busy busy)) }
        ensures window { self.new.window ≡ self.old.window }
    {
        let Some(up) = self.named(nr) else {
            return self.refuse();
        };
        self.acknowledge(up);
        self.mark_busy(busy);
        Heard::nothing()
    }

    /// DISC is answered with UA.
    pub(crate) fn disconnect(&mut self, poll: bool) -> Heard
        ensures hears { FollowsWithInformation self.old self.new result (λ information s. station_down_for_cause Cause.PeerDisconnected (agrees poll s)) }
        ensures window { self.new.window ≡ self.old.window }
    {
        let release = self.let_go(Cause::PeerDisconnected);
        Heard {
            told: Told::Released { release },
            reply: Reply::Agreed { bit: poll },
        }
    }

    /// The peer disconnected.
    pub(crate) fn drop_link(&mut self) -> Heard
        ensures hears { FollowsWithInformation self.old self.new result (λ information. station_down_for_cause Cause.PeerDisconnected) }
        ensures window { self.new.window ≡ self.old.window }
    {
        let release = self.let_go(Cause::PeerDisconnected);
        Heard {
            told: Told::Released { release },
            reply: Reply::Nothing,
        }
    }

    /// A stray frame.
    pub(crate) fn stray(&mut self) -> Heard
        ensures hears { FollowsWithInformation self.old self.new result (λ information. strays) }
        ensures window { self.new.window ≡ self.old.window }
    {
        self.count_stray();
        Heard::nothing()
    }

    // ---- the rows of a station that isn't up yet

    // The link came up.
    fn come_up(&mut self)
        ensures tells { (out : Stored) → Tells self.old out self.new out (record { up = true; payload = None; more = []; released = None }) comes_up }
        ensures same { self.new ≡ record self.old { phase = Phase.Up } }
    {
        self.phase = Phase::Up;
    }

    // The set-up frame at a called station.
    fn set_up(&mut self, poll: bool) -> Heard
        ensures hears { FollowsWithInformation self.old self.new result (λ information s. agrees poll (comes_up s)) }
        ensures window { self.new.window ≡ self.old.window }
    {
        self.come_up();
        Heard {
            told: Told::CameUp,
            reply: Reply::Agreed { bit: poll },
        }
    }

    /// A control at a station in Idle.
    pub(crate) fn hear_idle(&mut self, control: Control) -> Heard
        ensures hears { FollowsWithInformation self.old self.new result (λ information s. row_idle s control information) }
        ensures window { self.new.window ≡ self.old.window }
    {
        match control {
            Control::Info { .. } => self.stray(),
            Control::Rr { .. } => self.stray(),
            Control::Rnr { .. } => self.stray(),
            Control::Rej { .. } => self.stray(),
            Control::Srej { .. } => self.stray(),
            Control::Sabm { poll } => self.set_up(poll),
            Control::Sabme { poll } => self.set_up(poll),
            Control::Disc { .. } => self.stray(),
            Control::Ua => self.stray(),
            Control::Dm => self.stray(),
            Control::Frmr => self.stray(),
        }
    }

    // T1 stops.
    fn stop_timer(&mut self)
        ensures follows { (out : Stored) → Follows self.old out self.new out (λ s. record s { timer = None; expiries = 0 }) }
        ensures same { self.new ≡ record self.old { timer = None; expiries = 0 } }
    {
        self.timer = None;
        self.expiries = 0;
    }

    /// UA at a calling station that asked for the set-up.
    pub(crate) fn agreed(&mut self) -> Heard
        ensures hears { FollowsWithInformation self.old self.new result (λ information s. comes_up (record s { timer = None; expiries = 0 })) }
        ensures window { self.new.window ≡ self.old.window }
    {
        self.stop_timer();
        self.come_up();
        Heard {
            told: Told::CameUp,
            reply: Reply::Nothing,
        }
    }

    /// A control at a station in Setting.
    pub(crate) fn hear_setting(&mut self, control: Control) -> Heard
        ensures hears { FollowsWithInformation self.old self.new result (λ information s. row_setting s control information) }
        ensures window { self.new.window ≡ self.old.window }
    {
        match control {
            Control::Info { .. } => self.stray(),
            Control::Rr { .. } => self.stray(),
            Control::Rnr { .. } => self.stray(),
            Control::Rej { .. } => self.stray(),
            Control::Srej { .. } => self.refuse(),
            Control::Sabm { .. } => self.refuse(),
            Control::Sabme { .. } => self.refuse(),
            Control::Disc { poll } => self.disconnect(poll),
            Control::Ua => self.agreed(),
            Control::Dm => self.drop_link(),
            Control::Frmr => self.drop_link(),
        }
    }

    // ---- a frame that comes

    /// Reads the control of a body.
    pub(crate) fn read<'f>(&self, body: &'f [u8]) -> Option<(Control, &'f [u8])>
        ensures { option_map (λ r. (r.0, r.1.now)) result ≡ control_of (modulo self.now.extended) body.now }
    {
        if self.extended {
            control_extended(body)
        } else {
            control(body)
        }
    }

    /// A frame with a wrong check sequence is counted.
    pub(crate) fn count_bad_fcs(&mut self)
        ensures follows { (out : Stored) → Follows self.old out self.new out (hears BadFcs) }
        ensures same { self.new ≡ record self.old { counts = self.new.counts } }
    {
        self.counts.bad_fcs = one_more(self.counts.bad_fcs);
    }

    /// A frame that is too short is counted.
    pub(crate) fn count_short(&mut self)
        ensures follows { (out : Stored) → Follows self.old out self.new out (hears TooShort) }
        ensures same { self.new ≡ record self.old { counts = self.new.counts } }
    {
        self.counts.short = one_more(self.counts.short);
    }

    /// A frame that is too long is counted.
    pub(crate) fn count_long(&mut self)
        ensures follows { (out : Stored) → Follows self.old out self.new out (hears TooLong) }
        ensures same { self.new ≡ record self.old { counts = self.new.counts } }
    {
        self.counts.long = one_more(self.counts.long);
    }

    /// A frame that was aborted is counted.
    pub(crate) fn count_aborted(&mut self)
        ensures follows { (out : Stored) → Follows self.old out self.new out (hears Aborted) }
        ensures same { self.new ≡ record self.old { counts = self.new.counts } }
    {
        self.counts.aborted = one_more(self.counts.aborted);
    }
}
