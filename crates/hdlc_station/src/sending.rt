//! What a station sends.

ghost use Rattle.std.specs.Prelude.{◌≡◌, ◌+◌, ◌-◌, ◌*◌, ◌%◌, ◌<◌, ◌≤◌, ◌==◌, [], ◌++◌, ℕ, length, true, false, if◌then◌else◌};
ghost use Rattle.std.specs.Option.{IsSome};
ghost use Rattle.er_base.specs.Stored.{Stored, HasRoom, Appends};
ghost use Rattle.hdlc_frames.specs.Controls.{control_octets};
ghost use Rattle.hdlc_frames.specs.Bodies.{IsBelow};
ghost use Rattle.hdlc_station_model.specs.Frames.{modulo, set_up, address_of};
ghost use Rattle.hdlc_station_model.specs.Stations.{is_up, is_down, puts};
ghost use Rattle.hdlc_station_model.specs.Sending.{info_at, can_send, waiting, sends_next, sends_up_to, sends_waiting, sends_again, starts_timer, settles};
ghost use Rattle.hdlc_station.specs.Replies.{frame_text};

use crate::heard::Reply;
use crate::station_core::StationCore;
use er_base::Room;
use hdlc_frames::laws::{control_length, frame_length};
use hdlc_frames::{Control, put_fields};
use hdlc_station_model::Phase;

// The modulo of the numbers.
pub(crate) fn modulo_of(extended: bool) -> u8
    ensures { result ≡ modulo extended }
{
    if extended { 128 } else { 8 }
}

// The number that is so far above another one. Both moduli divide 256, so that no sum is too large.
pub(crate) fn number_above(extended: bool, from: u8, up: u8) -> u8
    ensures value { result ≡ (from + up) % modulo extended }
    ensures small { result < modulo extended }
{
    from.wrapping_add(up) % modulo_of(extended)
}

/// The address of a station, by its role.
pub(crate) fn address_of(calling: bool) -> u8
    ensures { result ≡ address_of calling }
{
    if calling { 0x03 } else { 0x01 }
}

// The set-up frame.
fn set_up(extended: bool) -> Control
    ensures value { result ≡ set_up extended }
    ensures below { IsBelow (modulo extended) result }
    ensures known { IsSome (control_octets (modulo extended) result true) }
{
    if extended {
        Control::Sabme { poll: true }
    } else {
        Control::Sabm { poll: true }
    }
}

impl StationCore {
    ghost use Rattle.hdlc_station.specs.Kept.{KeptStation, kept_of, Follows, Shown, WritesFramesAtMost};
    ghost use Rattle.hdlc_station.specs.Replies.{info_text, info_texts, reply_text, frame_count_of_reply, FollowsWithReply};

    // Sends a frame without information: its control with the P/F bit.
    fn send(&self, address: u8, control: Control, bit: bool, out: &mut Room)
        requires below { IsBelow (modulo self.now.extended) control }
        requires known { IsSome (control_octets (modulo self.now.extended) control bit) }
        requires room { HasRoom out.old 2064 }
        ensures appends { Appends out.old out.new (frame_text self.now.extended address control bit []) }
        ensures within { length out.new.items ≤ length out.old.items + 2064 }
    {
        control_length();
        frame_length();
        let table = if self.extended {
            control.octets_extended(bit)
        } else {
            control.octets(bit)
        };
        put_fields(address, table.as_slice(), &[], out);
    }

    /// Writes a reply.
    pub(crate) fn write(&self, reply: Reply, out: &mut Room)
        requires { HasRoom out.old (frame_count_of_reply self.now reply * 2064) }
        ensures appends { Appends out.old out.new (reply_text self.now reply) }
        ensures within { WritesFramesAtMost self.now out.old self.now out.new (frame_count_of_reply self.now reply) }
    {
        let sender = address_of(self.calling);
        let receiver = address_of(!self.calling);
        match reply {
            Reply::Nothing => {}
            Reply::Ready => self.send(sender, Control::Rr { nr: self.vr }, false, out),
            Reply::Reject => self.send(sender, Control::Rej { nr: self.vr }, false, out),
            Reply::SelectiveReject { up } => {
                let nr = number_above(self.extended, self.vr, up);
                self.send(sender, Control::Srej { nr }, false, out)
            }
            Reply::SetUp => self.send(receiver, set_up(self.extended), true, out),
            Reply::Disconnect => self.send(receiver, Control::Disc { poll: true }, true, out),
            Reply::Disconnected => self.send(sender, Control::Dm, true, out),
            Reply::Agreed { bit } => self.send(sender, Control::Ua, bit, out),
            Reply::Again => self.send_from(0, self.ahead, out),
        }
    }

    /// Sends the I frame of the payload that is i places behind V(A).
    pub(crate) fn send_at(&self, i: u8, out: &mut Room)
        requires there { i < length self.now.ring }
        requires room { HasRoom out.old 2064 }
        ensures appends { Appends out.old out.new (info_text self.now i) }
        ensures within { WritesFramesAtMost self.now out.old self.now out.new 1 }
    {
        control_length();
        frame_length();
        let ns = number_above(self.extended, self.va, i);
        let control = Control::Info { ns, nr: self.vr };
        let table = if self.extended {
            control.octets_extended(false)
        } else {
            control.octets(false)
        };
        let payload = self.ring.get(i as usize);
        let receiver = address_of(!self.calling);
        put_fields(receiver, table.as_slice(), payload.octets(), out);
    }

    // Sends the I frames of so many payloads from the one on that is `first` places behind V(A).
    fn send_from(&self, first: u8, count: u8, out: &mut Room)
        requires there { first + count ≤ length self.now.ring }
        requires room { HasRoom out.old (count * 2064) }
        ensures appends { Appends out.old out.new (info_texts self.now first count) }
        ensures within { WritesFramesAtMost self.now out.old self.now out.new count }
    {
        let _ = &self.calling;
        for i in 0..count {
            self.send_at(first + i, out);
        }
    }

    /// T1 starts anew.
    pub(crate) fn start_timer(&mut self)
        ensures follows { (out : Stored) → Follows self.old out self.new out starts_timer }
        ensures same { self.new ≡ record self.old { timer = Some (self.old.moment + self.old.t1) } }
    {
        self.timer = Some(self.moment.get() + self.t1);
    }

    // Whether the link is up.
    fn is_up(&self) -> bool
        ensures { result ≡ is_up self.now.phase }
    {
        match self.phase {
            Phase::Idle => false,
            Phase::Setting => false,
            Phase::Up => true,
            Phase::Down => false,
        }
    }

    /// Whether the station was released.
    pub(crate) fn is_down(&self) -> bool
        ensures { result ≡ is_down self.now.phase }
    {
        match self.phase {
            Phase::Idle => false,
            Phase::Setting => false,
            Phase::Up => false,
            Phase::Down => true,
        }
    }

    // Whether a payload may be sent.
    pub(crate) fn can_send(&self) -> bool
        ensures shown { Shown self.now (λ s. result ≡ can_send s) }
        ensures near { result ≡ true → self.now.ahead < self.now.window }
    {
        let _ = &self.calling;
        self.is_up() && !self.busy && self.ahead < self.window && (self.calling || self.begun)
    }

    // The payloads that wait to be sent for the first time.
    pub(crate) fn waits(&self) -> u8
        ensures shown { Shown self.now (λ s. result ≡ waiting s) }
        ensures rest { result + self.now.ahead ≡ length self.now.ring }
        ensures few { result ≤ 16 }
    {
        self.ring.len() as u8 - self.ahead
    }

    // The next payload counts as sent where it may be sent: V(S) grows by one, its N(R) settles an owed answer, and T1 starts where it
    // doesn't run.
    fn count_if_can(&mut self)
        requires { self.old.ahead < length self.old.ring }
        ensures follows { (out out' : Stored) → out'.items ≡ out.items ++ info_texts self.old self.old.ahead (self.new.ahead - self.old.ahead)
            → Follows self.old out self.new out' (λ s. if can_send s then sends_next s else s) }
        ensures same { self.new ≡ record self.old { ahead = self.new.ahead; owed = self.new.owed; timer = self.new.timer } }
        ensures near { self.new.ahead ≤ self.new.window }
        ensures grows { self.old.ahead ≤ self.new.ahead }
        ensures by_one { self.new.ahead ≤ self.old.ahead + 1 }
    {
        let _ = &self.calling;
        if !self.can_send() {
            return;
        }
        self.ahead += 1;
        self.owed = false;
        if self.timer.is_none() {
            self.timer = Some(self.moment.get() + self.t1);
        }
    }

    // The payloads that may be sent count as sent.
    fn count_waiting(&mut self)
        ensures follows { (out out' : Stored) → out'.items ≡ out.items ++ info_texts self.old self.old.ahead (self.new.ahead - self.old.ahead)
            → Follows self.old out self.new out' sends_waiting }
        ensures same { self.new ≡ record self.old { ahead = self.new.ahead; owed = self.new.owed; timer = self.new.timer } }
        ensures near { self.new.ahead ≤ self.new.window }
        ensures grows { self.old.ahead ≤ self.new.ahead }
        ensures all { self.new.ahead ≤ length self.new.ring }
    {
        let _ = &self.calling;
        for i in 0..self.waits() {
            self.count_if_can();
        }
    }

    /// Sends the payloads that may be sent.
    pub(crate) fn send_waiting(&mut self, out: &mut Room)
        requires { HasRoom out.old ((self.old.window - self.old.ahead) * 2064) }
        ensures follows { Follows self.old out.old self.new out.new sends_waiting }
        ensures within { WritesFramesAtMost self.old out.old self.new out.new (self.new.ahead - self.old.ahead) }
        ensures grows { self.old.ahead ≤ self.new.ahead }
    {
        let first = self.ahead;
        self.count_waiting();
        self.send_from(first, self.ahead - first, out);
    }

    /// Every frame from V(A) to V(S) - 1 counts as sent again, so that an owed answer is settled where there is one.
    /// `Reply::Again` writes them.
    pub(crate) fn repeat(&mut self)
        ensures follows { (out out' : Stored) → out'.items ≡ out.items ++ info_texts self.new 0 self.new.ahead → Follows self.old out self.new out' sends_again }
        ensures same { self.new ≡ record self.old { owed = if self.old.ahead == 0 then self.old.owed else false } }
    {
        if self.ahead == 0 {
            return;
        }
        self.owed = false;
    }

    /// One frame is sent again, that of the payload that is i places behind V(A); its N(R) settles an owed answer.
    /// `StationCore::send_at` writes it.
    pub(crate) fn repeat_one(&mut self, i: u8)
        ensures follows { (out out' : Stored) → out'.items ≡ out.items ++ info_text self.new i
            → Follows self.old out self.new out' (λ s. record (puts (info_at s (s.acked + i)) s) { owed = false }) }
        ensures same { self.new ≡ record self.old { owed = false } }
    {
        self.owed = false;
    }

    // The answer that is owed.
    pub(crate) fn settle(&mut self) -> Reply
        ensures answers { FollowsWithReply self.old self.new result settles }
        ensures same { self.new ≡ record self.old { owed = false } }
        ensures few { frame_count_of_reply self.new result ≤ 1 }
    {
        if self.owed {
            self.owed = false;
            return Reply::Ready;
        }
        Reply::Nothing
    }
}
