//! What is kept of a station, and its calls but that at a frame that comes.

ghost use Rattle.std.specs.Prelude.{ℕ, ◌≡◌, ◌+◌, ◌-◌, ◌*◌, ◌<◌, ◌≤◌, ◌==◌, [], ◌∷◌, ◌++◌, length, IfOk, IfErr, true, false};
ghost use Rattle.er_base.specs.Stored.{Stored, HasRoom};
ghost use Rattle.hdlc_station_model.specs.Stations.{made, is_down, is_up, sees, no_deed};
ghost use Rattle.hdlc_station_model.specs.Sending.{waiting, can_send, starts_timer};
ghost use Rattle.hdlc_station_model.specs.Calls.{starts, hands, finishes, ticks, closes, may_send, deadline};

use crate::deeds::Full;
use crate::heard::Reply;
use crate::payload::Payload;
use crate::ring::Ring;
use er_base::{Moment, NoMemory, Release, Room};
use er_settings::Settings;
use er_settings::laws::allowed_are_bounded;
use hdlc_station_model::{Counts, Phase};
use std::alloc::Global;
use std::marker::Model;

/// How many payloads may wait to be sent for the first time.
pub(crate) const WAITING: u8 = 16;

/// What a combined station keeps and does of whichever kind it is.
#[derive(Drop)]
pub(crate) struct StationCore {
    pub(crate) calling: bool,
    pub(crate) extended: bool,
    pub(crate) window: u8,
    pub(crate) n2: u8,
    pub(crate) t1: u64,
    pub(crate) phase: Phase,
    pub(crate) va: u8,
    pub(crate) ahead: u8,
    pub(crate) vr: u8,
    pub(crate) begun: bool,
    pub(crate) gap: bool,
    pub(crate) busy: bool,
    pub(crate) owed: bool,
    pub(crate) expiries: u8,
    pub(crate) timer: Option<u64>,
    pub(crate) moment: Moment,
    pub(crate) counts: Counts,
    pub(crate) ring: Ring,
}

impl Model for StationCore {
    ghost use Rattle.std.specs.Prelude.{length};
    ghost use Rattle.hdlc_station.specs.Kept.{KeptStation, InRange};

    ghost Value = { KeptStation };

    ghost view = { λ s. record {
      calling = s.calling;
      extended = s.extended;
      window = s.window;
      n2 = s.n2;
      t1 = s.t1;
      phase = s.phase;
      ring = s.ring.items;
      va = s.va;
      ahead = s.ahead;
      vr = s.vr;
      begun = s.begun;
      gap = s.gap;
      busy = s.busy;
      owed = s.owed;
      expiries = s.expiries;
      timer = s.timer;
      moment = s.moment;
      counts = s.counts;
    } };

    ghost invariant = { λ s. InRange s.extended s.window s.n2 s.t1 s.va s.ahead s.vr s.expiries
        (length s.ring.items) s.ring.slots s.begun };
}

impl StationCore {
    ghost use Rattle.hdlc_station.specs.Kept.{kept_of, Ranged, Follows, Tells, Shown, WritesFramesAtMost};
    ghost use Rattle.hdlc_station.specs.Told.{released_as};
    ghost use Rattle.hdlc_station.specs.Replies.{frame_count_of_reply, FollowsWithReply};

    /// A station that was just made: the calling one of a link, or the called one.
    pub(crate) fn new(
        alloc: Global,
        calling: bool,
        settings: &Settings,
    ) -> Result<StationCore, NoMemory>
        ensures { IfOk result (λ k. k ≡ kept_of (made calling (settings.now.modulo == 128) settings.now.window settings.now.n2 settings.now.t1)) }
    {
        allowed_are_bounded();
        let ring = Ring::with_slots(alloc, (settings.window + WAITING) as usize)?;
        Ok(StationCore {
            calling,
            extended: settings.modulo == 128,
            window: settings.window,
            n2: settings.n2,
            t1: settings.t1,
            phase: Phase::Idle,
            ring,
            va: 0,
            ahead: 0,
            vr: 0,
            begun: false,
            gap: false,
            busy: false,
            owed: false,
            expiries: 0,
            timer: None,
            moment: Moment::new(0),
            counts: Counts {
                bad_fcs: 0,
                short: 0,
                long: 0,
                aborted: 0,
                stray: 0,
            },
        })
    }

    /// A calling station that was just made sends the set-up frame, and T1 starts. Any other one, a called one or one that
    /// was started before, sends nothing and only sees the moment; one that was released does nothing at all. The call
    /// doesn't tell which it was.
    pub(crate) fn start(&mut self, now: Moment) -> Reply
        ensures answers { FollowsWithReply self.old self.new result (starts now) }
        ensures window { self.new.window ≡ self.old.window }
        ensures few { frame_count_of_reply self.new result ≤ 1 }
    {
        if self.is_down() {
            return Reply::Nothing;
        }
        self.see(now);
        self.start_at()
    }

    /// A payload is handed down, to be sent as soon as it may. Full, exactly where 16 payloads wait to be sent for the
    /// first time; then nothing changes. A station that was released keeps none and sends none, and answers Ok all the same
    /// where fewer than 16 wait: whoever calls remembers the release that it was told, and that it closed the station.
    pub(crate) fn hand(
        &mut self,
        now: Moment,
        payload: &Payload<'_>,
        out: &mut Room,
    ) -> Result<(), Full>
        requires { HasRoom out.old (self.old.window * 2064) }
        ensures handed { IfOk result (λ _. Follows self.old out.old self.new out.new (hands now payload.now)) }
        ensures not_full { IfOk result (λ _. Shown self.old (λ s. waiting s < 16)) }
        ensures full { IfErr result (λ full. Shown self.old (λ s. (waiting s ≡ 16) × (full.waiting ≡ 16))) }
        ensures unchanged { IfErr result (λ full. self.new ≡ self.old) }
        ensures unwritten { IfErr result (λ full. out.new ≡ out.old) }
        ensures within { WritesFramesAtMost self.old out.old self.new out.new self.old.window }
        ensures waited { IfErr result (λ full. length self.old.ring ≡ self.old.ahead + 16) }
        ensures grows { self.old.ahead ≤ self.new.ahead }
        ensures sent { length out.new.items + self.old.ahead * 2064 ≤ length out.old.items + self.new.ahead * 2064 }
    {
        let _ = &self.calling;
        let waiting = self.waits();
        if waiting == WAITING {
            return Err(Full {
                waiting: waiting as usize,
            });
        }
        if !self.is_down() {
            self.see(now);
            self.keep(payload);
            self.send_waiting(out);
        }
        Ok(())
    }

    // A payload joins those that wait.
    fn keep(&mut self, payload: &Payload<'_>)
        requires { length self.old.ring < self.old.ahead + 16 }
        ensures follows { (out : Stored) → Follows self.old out self.new out (λ s. record s { handed = s.handed ++ payload.now ∷ [] }) }
        ensures ahead { self.new.ahead ≡ self.old.ahead }
        ensures window { self.new.window ≡ self.old.window }
    {
        self.ring.push(payload);
    }

    /// Answers with what is still owed for I frames that were taken. It follows each event.
    pub(crate) fn finish(&mut self) -> Reply
        ensures answers { FollowsWithReply self.old self.new result finishes }
        ensures window { self.new.window ≡ self.old.window }
        ensures few { frame_count_of_reply self.new result ≤ 1 }
    {
        if self.is_down() {
            return Reply::Nothing;
        }
        self.settle()
    }

    /// It is this moment: T1 may expire, at most once. Answers why the station was released, where it was.
    pub(crate) fn tick(&mut self, now: Moment, out: &mut Room) -> Option<Release>
        requires { HasRoom out.old ((self.old.window + 1) * 2064) }
        ensures tells { Tells self.old out.old self.new out.new (released_as result) (ticks now) }
        ensures within { WritesFramesAtMost self.old out.old self.new out.new (self.old.window + 1) }
    {
        let _ = &self.calling;
        if self.is_down() {
            return None;
        }
        self.see(now);
        let expired = self.expire_if_due();
        self.bounds();
        self.write(expired.reply, out);
        self.send_waiting(out);
        expired.release
    }

    /// The layer above ends the link: DISC where it was being set up or is up, and the station is Down. It tells no release:
    /// that is the caller's own.
    pub(crate) fn close(&mut self) -> Reply
        ensures answers { FollowsWithReply self.old self.new result closes }
        ensures window { self.new.window ≡ self.old.window }
        ensures few { frame_count_of_reply self.new result ≤ 1 }
    {
        if self.is_down() {
            return Reply::Nothing;
        }
        let reply = self.close_at();
        self.go_down();
        reply
    }

    /// The moment at which the station wants a tick: that at which T1 expires, where T1 runs.
    pub(crate) fn deadline(&self) -> Option<u64>
        ensures shown { Shown self.now (λ s. result ≡ deadline s) }
        ensures kept { result ≡ self.now.timer }
    {
        self.timer
    }

    /// The number of payloads that wait to be sent for the first time, 16 at the most.
    pub(crate) fn waiting(&self) -> usize
        ensures shown { Shown self.now (λ s. result ≡ waiting s) }
        ensures few { result ≤ 16 }
        ensures kept { result + self.now.ahead ≡ length self.now.ring }
    {
        self.waits() as usize
    }

    /// Whether a payload that is handed down now is sent at once.
    pub(crate) fn may_send(&self) -> bool
        ensures shown { Shown self.now (λ s. result ≡ may_send s) }
        ensures free { result ≡ true → length self.now.ring ≡ self.now.ahead }
    {
        self.can_send() && self.waits() == 0
    }

    /// The frames that were ignored so far, by their kind.
    pub(crate) fn counts(&self) -> Counts
        ensures shown { Shown self.now (λ s. result ≡ s.counts) }
        ensures kept { result ≡ self.now.counts }
    {
        self.counts
    }

    /// What is known of what is kept; the call does nothing.
    pub(crate) fn bounds(&self)
        ensures ranged { Ranged self.now }
        ensures near { self.now.ahead ≤ self.now.window }
        ensures within { (out : Stored) (n : ℕ) → WritesFramesAtMost self.now out self.now out n }
        ensures frames { (reply : Reply) → frame_count_of_reply self.now reply ≤ self.now.ahead + 1 }
        ensures few { (reply : Reply) → frame_count_of_reply self.now reply ≤ self.now.window }
    {
        let _ = &self.calling;
    }

    /// Whether it is the calling station.
    pub(crate) fn is_calling(&self) -> bool
        ensures { result ≡ self.now.calling }
    {
        self.calling
    }

    /// What the station is at.
    pub(crate) fn phase(&self) -> Phase
        ensures { result ≡ self.now.phase }
    {
        self.phase
    }

    /// The greatest number of I frames that are sent and not acknowledged.
    pub(crate) fn window(&self) -> u8
        ensures { result ≡ self.now.window }
    {
        self.window
    }

    /// How many I frames are sent and not acknowledged.
    pub(crate) fn ahead(&self) -> u8
        ensures { result ≡ self.now.ahead }
    {
        self.ahead
    }

    /// V(R) modulo the modulo.
    pub(crate) fn vr(&self) -> u8
        ensures { result ≡ self.now.vr }
    {
        self.vr
    }

    /// Whether an I frame was taken.
    pub(crate) fn has_begun(&self) -> bool
        ensures { result ≡ self.now.begun }
    {
        self.begun
    }

    /// The gap mark.
    pub(crate) fn has_gap(&self) -> bool
        ensures { result ≡ self.now.gap }
    {
        self.gap
    }
}
