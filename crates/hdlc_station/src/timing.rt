//! What a station does as time goes on.

ghost use Rattle.std.specs.Prelude.{◌≡◌, ◌+◌, ◌≤◌, nat_lt, if◌then◌else◌, None, Some, false};
ghost use Rattle.er_base.specs.Stored.{Stored};
ghost use Rattle.hdlc_station_model.specs.Stations.{sees};
ghost use Rattle.hdlc_station_model.specs.declared.phase.Phase.TheVariants.{Down};
ghost use Rattle.hdlc_station_model.specs.Sending.{is_due, gives_up, counts_expiry, expires_at, expires, expires_if_due};
ghost use Rattle.hdlc_station_model.specs.Calls.{starts_at, closes_at};

use crate::heard::{Expired, Reply};
use crate::station_core::StationCore;
use er_base::{Cause, Moment};
use hdlc_station_model::Phase;

impl StationCore {
    ghost use Rattle.hdlc_station.specs.Kept.{Follows};
    ghost use Rattle.hdlc_station.specs.Replies.{frame_count_of_reply, FollowsWithReply, FollowsTimerExpiry};

    /// A moment; one below the last one counts as the last one.
    pub(crate) fn see(&mut self, now: Moment)
        ensures follows { (out : Stored) → Follows self.old out self.new out (sees now) }
        ensures same { self.new ≡ record self.old { moment = self.new.moment } }
    {
        self.moment = self.moment.later(now);
    }

    // An expiry is counted, but for one that is more than N2; answers whether it is.
    fn is_one_too_many(&mut self) -> bool
        ensures test { result ≡ nat_lt self.old.n2 (self.old.expiries + 1) }
        ensures same { self.new ≡ if result then self.old else record self.old { expiries = self.old.expiries + 1 } }
    {
        if self.expiries + 1 > self.n2 {
            return true;
        }
        self.expiries += 1;
        false
    }

    // The station gives up.
    fn give_up(&mut self, cause: Cause) -> Expired
        ensures expires { FollowsTimerExpiry self.old self.new result (gives_up cause) }
        ensures window { self.new.window ≡ self.old.window }
        ensures ahead { self.new.ahead ≡ self.old.ahead }
    {
        let release = self.let_go(cause);
        Expired {
            release: Some(release),
            reply: Reply::Disconnect,
        }
    }

    fn expire_setting(&mut self) -> Expired
        ensures expires { FollowsTimerExpiry self.old self.new result (expires_at Phase.Setting) }
        ensures window { self.new.window ≡ self.old.window }
        ensures ahead { self.new.ahead ≡ self.old.ahead }
    {
        if self.is_one_too_many() {
            return self.give_up(Cause::SetUpUnanswered);
        }
        self.start_timer();
        Expired {
            release: None,
            reply: Reply::SetUp,
        }
    }

    fn expire_up(&mut self) -> Expired
        ensures expires { FollowsTimerExpiry self.old self.new result (expires_at Phase.Up) }
        ensures window { self.new.window ≡ self.old.window }
        ensures ahead { self.new.ahead ≡ self.old.ahead }
    {
        if self.is_one_too_many() {
            return self.give_up(Cause::NoProgress);
        }
        self.repeat();
        self.start_timer();
        Expired {
            release: None,
            reply: Reply::Again,
        }
    }

    // T1 expired.
    fn expire(&mut self) -> Expired
        ensures expires { FollowsTimerExpiry self.old self.new result expires }
        ensures window { self.new.window ≡ self.old.window }
        ensures ahead { self.new.ahead ≡ self.old.ahead }
    {
        match self.phase {
            Phase::Idle => Expired::nothing(),
            Phase::Setting => self.expire_setting(),
            Phase::Up => self.expire_up(),
            Phase::Down => Expired::nothing(),
        }
    }

    // Whether T1 is expired.
    fn is_due(&self) -> bool
        ensures { result ≡ is_due self.now.timer self.now.moment }
    {
        match self.timer {
            Some(expiry) => expiry <= self.moment.get(),
            None => false,
        }
    }

    pub(crate) fn expire_if_due(&mut self) -> Expired
        ensures expires { FollowsTimerExpiry self.old self.new result expires_if_due }
        ensures window { self.new.window ≡ self.old.window }
        ensures ahead { self.new.ahead ≡ self.old.ahead }
    {
        if self.is_due() {
            return self.expire();
        }
        Expired::nothing()
    }

    // A calling station sends the set-up frame, and T1 starts.
    fn start_idle(&mut self) -> Reply
        ensures answers { FollowsWithReply self.old self.new result (starts_at Phase.Idle) }
        ensures window { self.new.window ≡ self.old.window }
        ensures few { frame_count_of_reply self.new result ≤ 1 }
    {
        if !self.calling {
            return Reply::Nothing;
        }
        self.phase = Phase::Setting;
        self.start_timer();
        Reply::SetUp
    }

    pub(crate) fn start_at(&mut self) -> Reply
        ensures answers { FollowsWithReply self.old self.new result (λ s. starts_at s.phase s) }
        ensures window { self.new.window ≡ self.old.window }
        ensures few { frame_count_of_reply self.new result ≤ 1 }
    {
        match self.phase {
            Phase::Idle => self.start_idle(),
            Phase::Setting => Reply::Nothing,
            Phase::Up => Reply::Nothing,
            Phase::Down => Reply::Nothing,
        }
    }

    // The last frame of a station that is closed.
    pub(crate) fn close_at(&self) -> Reply
        ensures answers { FollowsWithReply self.now self.now result (λ s. closes_at s.phase s) }
        ensures few { frame_count_of_reply self.now result ≤ 1 }
    {
        match self.phase {
            Phase::Idle => Reply::Nothing,
            Phase::Setting => Reply::Disconnect,
            Phase::Up => Reply::Disconnect,
            Phase::Down => Reply::Nothing,
        }
    }

    // The station is Down.
    pub(crate) fn go_down(&mut self)
        ensures follows { (out : Stored) → Follows self.old out self.new out (λ s. record s { phase = Down; timer = None }) }
        ensures same { self.new ≡ record self.old { phase = Down; timer = None } }
    {
        self.phase = Phase::Down;
        self.timer = None;
    }
}
