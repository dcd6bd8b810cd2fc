//! One side of a connection of X.224 class 2.

ghost use Rattle.std.specs.Prelude.{◌≡◌, ◌≢◌, ◌+◌, ◌<◌, ◌≤◌, ◌&&◌, [], length, true, false, IfOk, IfErr, MatchResult, min, is_some, if◌then◌else◌};
ghost use Rattle.std.specs.Borrow.{sem};
ghost use Rattle.er_base.specs.Stored.{HasRoom, Appends};
ghost use Rattle.x224_class2.specs.Transport.{is_new, is_called, is_open, is_over, Refused, Data, side_made, after_connect, after_accept, after_hand, after_taken, after_next, reception, next_tpdu, waiting_count, untaken_count};
ghost use Rattle.x224_class2.specs.Standing.{StandsForTransport, FollowsTransportStep, Shown};
ghost use Rattle.x224_class2.specs.Kept.{kept_made, kept_after_connect, kept_after_accept, kept_after_hand, kept_after_taken, kept_reception, kept_after_next, kept_next_tpdu, octets_next, kept_over, may_be_called, kept_called, may_be_confirmed, kept_confirmed, may_be_disconnected, kept_on_data, kept_is_expected, may_acknowledge, kept_acknowledged, kept_ack, kept_behind, kept_tpdu_at, distance, stage_behind, untaken_behind};
ghost use Rattle.x224_class2.specs.Refusals.{dr_reason};
ghost use Rattle.x224_class2.specs.Resting.{deed_of};
ghost use Rattle.x224_class2.specs.Tpdus as given;
ghost use Rattle.x224_class2.specs.Tpdus.{octets_given};
ghost use Rattle.er_base.specs.Causes.{release_of};

use crate::credit::Credit;
use crate::deed::{Full, TransportDeed};
use crate::number::Number;
use crate::outgoing::{Outgoing, SLOTS};
use crate::size::Size;
use crate::stage::Stage;
use arrayvec::ArrayVec;
use er_base::{Cause, NoMemory, Room};
use er_settings::Settings;
use std::alloc::Global;
use std::marker::Model;
use x224_tpdu::{TpFault, Tpdu, laws, read, write_into};

// The greatest number of octets of a message.
const LONGEST: usize = 1_032;

// The references of this profile: that of each side, and the one that isn't known yet.
const REFERENCE: u16 = 1;

const UNKNOWN: u16 = 0;

// The reason of a DR for a TPDU that breaks a rule of the procedure (ITU-T X.224, 13.5.3).
const PROTOCOL_ERROR: u8 = 133;

/// One side of a connection of ITU-T X.224 class 2 with explicit flow control.
///
/// Contracts see what is kept of it, every number modulo 128, and what that stands for: a side of the transport
/// model, whose lists are whole and whose numbers are absolute. The clauses `stands`, `follows`, `tells`, `gives`
/// and `shown` say what a call does in the model's words, for every side that what is kept stands for. After a
/// deed `Disconnected` or `Refused` the connection is over: no TPDU changes anything, and none is given.
/// Only the two makers take memory: room for sixteen messages to be given and one that comes in several DTs.
#[derive(Drop)]
pub struct Transport {
    is_caller: bool,
    credit: Credit,
    stage: Stage,
    size: Size,
    given: Number,
    acked: Number,
    edge: Number,
    received: Number,
    newest: Number,
    lasts: ArrayVec<Number, 15>,
    text: Room,
    is_whole: bool,
    due: Option<ArrayVec<u8, 32>>,
    outgoing: Outgoing,
}

impl Model for Transport {
    ghost use Rattle.std.specs.Prelude.{◌≡◌, ◌≤◌, [], if◌then◌else◌};
    ghost use Rattle.std.specs.Option.{option_map};
    ghost use Rattle.x224_class2.specs.Kept.{KeptTransport};

    ghost Value = { KeptTransport };

    ghost view = { λ t. record {
      is_caller = t.is_caller;
      credit = t.credit;
      stage = t.stage;
      size = t.size;
      waiting = t.outgoing;
      given = t.given;
      acked = t.acked;
      edge = t.edge;
      received = t.received;
      newest = t.newest;
      lasts = t.lasts.items;
      text = if t.is_whole then [] else t.text.items;
      due = option_map (λ user. user.items) t.due;
    } };

    ghost invariant = { λ t. (t.size ≤ 1024) × (t.text.capacity ≡ 1032) };
}

impl Transport {
    ghost use Rattle.x224_class2.specs.Resting.{LeavesTransportAs};

    /// The side that calls. It proposes the TPDU size of the settings and grants their credit.
    pub fn caller(alloc: Global, settings: &Settings) -> Result<Transport, NoMemory>
        ensures kept { IfOk result (λ made. made ≡ kept_made true settings.now) }
        ensures stands { IfOk result (λ made. StandsForTransport made (side_made true settings.now)) }
    {
        Transport::made(alloc, true, settings)
    }

    /// The side that is called. It answers the least of the proposal, 1,024 and the TPDU size of the settings,
    /// and grants their credit.
    pub fn callee(alloc: Global, settings: &Settings) -> Result<Transport, NoMemory>
        ensures kept { IfOk result (λ made. made ≡ kept_made false settings.now) }
        ensures stands { IfOk result (λ made. StandsForTransport made (side_made false settings.now)) }
    {
        Transport::made(alloc, false, settings)
    }

    #[tactic(auto, using(crate::proofs::Allowed::credit_most, crate::proofs::Allowed::size_named, crate::proofs::Allowed::size_most, crate::proofs::Following::made_follows))]
    fn made(alloc: Global, is_caller: bool, settings: &Settings) -> Result<Transport, NoMemory>
        ensures kept { IfOk result (λ made. made ≡ kept_made is_caller settings.now) }
        ensures stands { IfOk result (λ made. StandsForTransport made (side_made is_caller settings.now)) }
    {
        let outgoing = Outgoing::with_slots(alloc)?;
        let text = Room::with_capacity(alloc, LONGEST)?;
        Ok(Transport {
            is_caller,
            credit: Credit::new(settings.credit),
            stage: Stage::New,
            size: Size::new(settings.size),
            outgoing,
            given: Number::new(0),
            acked: Number::new(0),
            edge: Number::new(0),
            received: Number::new(0),
            newest: Number::new(0),
            lasts: ArrayVec::new(),
            text,
            is_whole: false,
            due: None,
        })
    }

    /// The caller, which was just made, connects: a CR with this user data, 1 to 32 octets, is due.
    #[tactic(auto, using(crate::proofs::Following::connect_follows))]
    pub fn connect(&mut self, user: &[u8])
        requires caller { self.old.is_caller ≡ true }
        requires new { is_new self.old.stage ≡ true }
        requires user { (1 ≤ length user.now) × (length user.now ≤ 32) }
        ensures kept { self.new ≡ kept_after_connect self.old user.now }
        ensures follows { FollowsTransportStep self.old self.new (λ t. after_connect t user.now) }
    {
        self.due = Some(user_data(user));
        self.stage = Stage::Calling;
    }

    /// Whether this is a caller that was just made, so that it may connect.
    #[tactic(auto, using(crate::proofs::Following::may_connect_shown))]
    pub fn may_connect(&self) -> bool
        ensures test { result ≡ (self.now.is_caller && is_new self.now.stage) }
        ensures caller { result ≡ true → self.now.is_caller ≡ true }
        ensures new { result ≡ true → is_new self.now.stage ≡ true }
        ensures shown { Shown self.now (λ t. result ≡ (t.is_caller && is_new t.stage)) }
    {
        self.is_caller && self.stage == Stage::New
    }

    /// Whether the connection is made, so that messages may be handed.
    #[tactic(auto, using(crate::proofs::Following::open_shown))]
    pub fn is_open(&self) -> bool
        ensures kept { result ≡ is_open self.now.stage }
        ensures shown { Shown self.now (λ t. result ≡ is_open t.stage) }
    {
        self.stage == Stage::Open
    }

    /// The callee, whose last deed was `Called`, accepts: a CC with this user data, 1 to 32 octets, is due.
    #[tactic(auto, using(crate::proofs::Following::accept_follows))]
    pub fn accept(&mut self, user: &[u8])
        requires called { is_called self.old.stage ≡ true }
        requires user { (1 ≤ length user.now) × (length user.now ≤ 32) }
        ensures kept { self.new ≡ kept_after_accept self.old user.now }
        ensures follows { FollowsTransportStep self.old self.new (λ t. after_accept t user.now) }
    {
        self.due = Some(user_data(user));
        self.stage = Stage::Open;
    }

    /// A TPDU comes: what the layer above must do. Octets are lent from the TPDU or from this side.
    ///
    /// `Refused` has the sub-reason of `TpduRefused` with the DR reason 138 for a faulty length or
    /// parameter, 130 for another class and else 133, for octets that spell no TPDU and for a TPDU that
    /// isn't expected: another kind, reference or number, a DT at the edge or above the agreed size, an AK
    /// that names no number that was given or that lowers the edge, a CC above the proposal. It has that
    /// of `MessageTooLong` with 133 for the DT that makes a message longer than 1,032 octets.
    #[tactic(auto, using(crate::proofs::Following::reception_follows, crate::proofs::Following::reception_tells))]
    pub fn receive<'a>(&'a mut self, tpdu: &'a [u8]) -> TransportDeed<'a>
        ensures* after { sem 𝓛 (LeavesTransportAs self.entry (kept_reception self.old tpdu.now).0) }
        ensures deed { deed_of result ≡ (kept_reception self.old tpdu.now).1 }
        ensures role { (kept_reception self.old tpdu.now).0.is_caller ≡ self.old.is_caller }
        ensures stage { (kept_reception self.old tpdu.now).0.stage ≡ stage_behind (deed_of result) self.old.stage }
        ensures untaken { length (kept_reception self.old tpdu.now).0.lasts ≡ untaken_behind (deed_of result) (length self.old.lasts) }
        ensures follows { FollowsTransportStep self.old (kept_reception self.old tpdu.now).0 (λ t. (reception t tpdu.now).0) }
        ensures tells { Shown self.old (λ t. deed_of result ≡ (reception t tpdu.now).1) }
    {
        crate::laws::standing();
        self.tpdu_comes(tpdu)
    }

    // A TPDU comes.
    #[tactic(auto, using(crate::proofs::Deeds::role_stays, crate::proofs::Deeds::stage_told, crate::proofs::Deeds::untaken_told))]
    fn tpdu_comes<'a>(&'a mut self, tpdu: &'a [u8]) -> TransportDeed<'a>
        ensures* after { sem 𝓛 (LeavesTransportAs self.entry (kept_reception self.old tpdu.now).0) }
        ensures deed { deed_of result ≡ (kept_reception self.old tpdu.now).1 }
        ensures role { (kept_reception self.old tpdu.now).0.is_caller ≡ self.old.is_caller }
        ensures stage { (kept_reception self.old tpdu.now).0.stage ≡ stage_behind (deed_of result) self.old.stage }
        ensures untaken { length (kept_reception self.old tpdu.now).0.lasts ≡ untaken_behind (deed_of result) (length self.old.lasts) }
    {
        if self.is_over() {
            return TransportDeed::Nothing;
        }
        laws::writing();
        match read(tpdu) {
            Ok(
                Tpdu::Cr {
                    credit,
                    dst,
                    src,
                    size,
                    user,
                },
            ) => {
                if self.request_comes(Credit::new(credit), dst, src, Size::new(size)) {
                    TransportDeed::Called(user)
                } else {
                    refused(Cause::TpduRefused, PROTOCOL_ERROR)
                }
            }
            Ok(
                Tpdu::Cc {
                    credit,
                    dst,
                    src,
                    size,
                    user,
                },
            ) => {
                if self.confirm_comes(Credit::new(credit), dst, src, Size::new(size)) {
                    TransportDeed::Confirmed(user)
                } else {
                    refused(Cause::TpduRefused, PROTOCOL_ERROR)
                }
            }
            Ok(Tpdu::Dr { dst, src, user, .. }) => {
                if self.disconnect_comes(dst, src) {
                    TransportDeed::Disconnected(user)
                } else {
                    refused(Cause::TpduRefused, PROTOCOL_ERROR)
                }
            }
            Ok(
                Tpdu::Ak {
                    credit,
                    dst,
                    number,
                },
            ) => {
                if self.acknowledgement_comes(Credit::new(credit), dst, Number::new(number)) {
                    TransportDeed::Nothing
                } else {
                    refused(Cause::TpduRefused, PROTOCOL_ERROR)
                }
            }
            Ok(
                Tpdu::Dt {
                    dst,
                    last,
                    number,
                    user,
                },
            ) => self.data_comes(dst, last, number, user),
            Ok(Tpdu::Dc { .. } | Tpdu::Er { .. }) => {
                self.end();
                refused(Cause::TpduRefused, PROTOCOL_ERROR)
            }
            Err(fault) => {
                self.end();
                refused(Cause::TpduRefused, reason_of(fault))
            }
        }
    }

    /// Hands a message, 1 to 1,032 octets, where the connection is made. It waits until its last segment
    /// was given. Refused exactly where sixteen messages wait.
    #[tactic(auto, using(crate::proofs::Following::few_wait, crate::proofs::Following::sixteen_wait))]
    pub fn hand(&mut self, message: &[u8]) -> Result<(), Full>
        requires open { is_open self.old.stage ≡ true }
        requires message { (1 ≤ length message.now) × (length message.now ≤ 1032) }
        ensures kept { MatchResult result
            (λ _. (length self.old.waiting < 16) × (self.new ≡ kept_after_hand self.old message.now))
            (λ full. (length self.old.waiting ≡ 16) × (full.waiting ≡ 16) × (self.new ≡ self.old)) }
        ensures handed { IfOk result (λ _. FollowsTransportStep self.old self.new (λ t. after_hand t message.now)) }
        ensures not_full { IfOk result (λ _. Shown self.old (λ t. waiting_count t < 16)) }
        ensures full { IfErr result (λ full. Shown self.old (λ t. (waiting_count t ≡ 16) × (full.waiting ≡ 16))) }
    {
        let waiting = self.outgoing.len();
        if waiting == SLOTS {
            return Err(Full { waiting });
        }
        self.outgoing.push(message);
        Ok(())
    }

    /// The user took the oldest message that waits to be taken; only that lets its last DT be acknowledged.
    ///
    /// A message that no user takes, AU3 or AR, counts as taken at once: whoever gets it as `Message` calls
    /// this in the same event.
    pub fn taken(&mut self)
        requires { 0 < length self.old.lasts }
        ensures kept { self.new ≡ kept_after_taken self.old }
        ensures follows { FollowsTransportStep self.old self.new after_taken }
    {
        self.lasts.remove(0);
    }

    /// Appends the next TPDU, at most 1,024 octets, and answers whether there was one: the CR or CC that is
    /// due, else an owed AK with the newest number, else the next segment, where it lies below the edge.
    pub fn next_tpdu(&mut self, out: &mut Room) -> bool
        requires { HasRoom out.old 1024 }
        ensures state { self.new ≡ kept_after_next self.old }
        ensures wrote { Appends out.old out.new (octets_next (kept_next_tpdu self.old)) }
        ensures some { result ≡ is_some (kept_next_tpdu self.old) }
        ensures most { length out.new.items ≤ length out.old.items + 1024 }
        ensures stage { self.new.stage ≡ self.old.stage }
        ensures untaken { self.new.lasts ≡ self.old.lasts }
        ensures follows { FollowsTransportStep self.old self.new after_next }
        ensures gives { Shown self.old (λ t. Appends out.old out.new (octets_next (next_tpdu t)) × (result ≡ is_some (next_tpdu t))) }
    {
        self.give_next(out)
    }

    // Appends the next TPDU, and answers whether there was one.
    fn give_next(&mut self, out: &mut Room) -> bool
        requires { HasRoom out.old 1024 }
        ensures state { self.new ≡ kept_after_next self.old }
        ensures wrote { Appends out.old out.new (octets_next (kept_next_tpdu self.old)) }
        ensures some { result ≡ is_some (kept_next_tpdu self.old) }
        ensures most { length out.new.items ≤ length out.old.items + 1024 }
        ensures stage { self.new.stage ≡ self.old.stage }
        ensures untaken { self.new.lasts ≡ self.old.lasts }
    {
        if self.stage == Stage::Over {
            return false;
        }
        if let Some(user) = &self.due {
            self.write_opening(user, out);
            self.due = None;
            return true;
        }
        let ack = self.ack();
        if ack.get() != self.newest.get() {
            self.newest = ack;
            self.write_acknowledgement(out);
            return true;
        }
        if self.outgoing.len() == 0 || self.given.get() == self.edge.get() {
            return false;
        }
        self.give_segment(out);
        true
    }

    /// How many messages wait to be taken, at most 15.
    pub fn untaken(&self) -> usize
        ensures kept { result ≡ length self.now.lasts }
        ensures shown { Shown self.now (λ t. result ≡ untaken_count t) }
    {
        self.lasts.len()
    }

    /// How many messages wait for their last segment to be given, at most 16.
    #[tactic(auto, using(crate::proofs::Following::waiting_shown))]
    pub fn waiting(&self) -> usize
        ensures kept { result ≡ length self.now.waiting }
        ensures shown { Shown self.now (λ t. result ≡ waiting_count t) }
        ensures most { result ≤ 16 }
    {
        self.outgoing.len()
    }

    fn is_over(&self) -> bool
        ensures { result ≡ is_over self.now.stage }
    {
        self.stage == Stage::Over
    }

    fn end(&mut self)
        ensures { self.new ≡ kept_over self.old }
    {
        self.stage = Stage::Over;
    }

    // A CR comes: whether the callee expects it.
    fn request_comes(&mut self, credit: Credit, dst: u16, src: u16, size: Size) -> bool
        ensures fit { result ≡ may_be_called self.old dst src }
        ensures kept { self.new ≡ if result then kept_called self.old credit size else kept_over self.old }
    {
        if self.is_caller || self.stage != Stage::New || dst != UNKNOWN || src != REFERENCE {
            self.stage = Stage::Over;
            return false;
        }
        self.stage = Stage::Called;
        self.size = size.agreed(self.size);
        self.edge = Number::new(credit.get());
        true
    }

    // A CC comes: whether the caller expects it.
    fn confirm_comes(&mut self, credit: Credit, dst: u16, src: u16, size: Size) -> bool
        ensures fit { result ≡ may_be_confirmed self.old dst src size }
        ensures kept { self.new ≡ if result then kept_confirmed self.old credit size else kept_over self.old }
    {
        if self.stage != Stage::Calling
            || dst != REFERENCE
            || src != REFERENCE
            || size.get() > self.size.get()
        {
            self.stage = Stage::Over;
            return false;
        }
        self.stage = Stage::Open;
        self.size = size;
        self.edge = Number::new(credit.get());
        true
    }

    // A DR comes: whether it is expected. In both cases the connection is over.
    fn disconnect_comes(&mut self, dst: u16, src: u16) -> bool
        ensures fit { result ≡ may_be_disconnected self.old dst src }
        ensures kept { self.new ≡ kept_over self.old }
    {
        let is_new = self.stage == Stage::New;
        self.stage = Stage::Over;
        !is_new && dst == REFERENCE && src == REFERENCE
    }

    // An AK comes: whether it names a number that was given, and doesn't lower the edge.
    fn acknowledgement_comes(&mut self, credit: Credit, dst: u16, number: Number) -> bool
        ensures fit { result ≡ may_acknowledge self.old credit dst number }
        ensures kept { self.new ≡ if result then kept_acknowledged self.old credit number else kept_over self.old }
    {
        let up = self.acked.distance(number);
        if self.stage != Stage::Open
            || dst != REFERENCE
            || up > self.acked.distance(self.given)
            || up + credit.get() < self.acked.distance(self.edge)
        {
            self.stage = Stage::Over;
            return false;
        }
        self.acked = number;
        self.edge = number.edge(credit);
        true
    }

    // A DT comes.
    fn data_comes<'a>(
        &'a mut self,
        dst: u16,
        last: bool,
        number: u8,
        user: &'a [u8],
    ) -> TransportDeed<'a>
        ensures* after { sem 𝓛 (LeavesTransportAs self.entry (kept_on_data self.old dst last number user.now).0) }
        ensures deed { deed_of result ≡ (kept_on_data self.old dst last number user.now).1 }
    {
        if !self.is_expected(dst, number, user) {
            self.stage = Stage::Over;
            return refused(Cause::TpduRefused, PROTOCOL_ERROR);
        }
        if self.is_whole {
            self.text.clear();
            self.is_whole = false;
        }
        if user.len() > self.text.free() {
            self.stage = Stage::Over;
            return refused(Cause::MessageTooLong, PROTOCOL_ERROR);
        }
        let number = self.received;
        self.received = number.next();
        if !last {
            self.text.put(user);
            return TransportDeed::Nothing;
        }
        self.lasts.push(number);
        // a message that came in one DT is lent as it came
        if self.text.held().is_empty() {
            return TransportDeed::Message(user);
        }
        self.text.put(user);
        self.is_whole = true;
        TransportDeed::Message(self.text.held())
    }

    // Whether a DT is the expected one, was granted, and has the agreed size.
    fn is_expected(&self, dst: u16, number: u8, user: &[u8]) -> bool
        ensures { result ≡ kept_is_expected self.now dst number user.now }
    {
        self.stage == Stage::Open
            && dst == REFERENCE
            && number == self.received.get()
            && self.newest.distance(self.received) < self.credit.get()
            && self.lasts.len() < 15
            && user.len() <= usize::from(self.size.get()) - 5
    }

    // The number that an AK would name now.
    fn ack(&self) -> Number
        ensures { result ≡ kept_ack self.now }
    {
        self.lasts.first().copied().unwrap_or(self.received)
    }

    fn write_opening(&self, user: &ArrayVec<u8, 32>, out: &mut Room)
        requires { HasRoom out.old 1024 }
        ensures wrote { Appends out.old out.new (octets_given (if self.now.is_caller then given.Cr self.now.credit self.now.size user.now.items else given.Cc self.now.credit self.now.size user.now.items)) }
        ensures most { length out.new.items ≤ length out.old.items + 1024 }
    {
        let user = user.as_slice();
        let (credit, size) = (self.credit.get(), self.size.get());
        let (dst, src) = (UNKNOWN, REFERENCE);
        if self.is_caller {
            write_into(
                &Tpdu::Cr {
                    credit,
                    dst,
                    src,
                    size,
                    user,
                },
                out,
            );
        } else {
            write_into(
                &Tpdu::Cc {
                    credit,
                    dst: REFERENCE,
                    src,
                    size,
                    user,
                },
                out,
            );
        }
    }

    fn write_acknowledgement(&self, out: &mut Room)
        requires room { HasRoom out.old 1024 }
        ensures { Appends out.old out.new (octets_given (given.Ak self.now.credit self.now.newest)) }
    {
        let (credit, number) = (self.credit.get(), self.newest.get());
        let dst = REFERENCE;
        write_into(
            &Tpdu::Ak {
                credit,
                dst,
                number,
            },
            out,
        );
    }

    fn give_segment(&mut self, out: &mut Room)
        requires some { 0 < length self.old.waiting }
        requires room { HasRoom out.old 1024 }
        ensures state { self.new ≡ kept_behind self.old Data }
        ensures wrote { Appends out.old out.new (octets_next (kept_tpdu_at self.old Data)) }
    {
        let dst = REFERENCE;
        let number = self.given.get();
        let left = self.outgoing.first();
        let longest = usize::from(self.size.get()) - 5;
        let last = left.len() <= longest;
        let user = if last { left } else { &left[..longest] };
        write_into(
            &Tpdu::Dt {
                dst,
                last,
                number,
                user,
            },
            out,
        );
        let octets = user.len();
        self.outgoing.give(octets);
        self.given = self.given.next();
    }
}

fn user_data(user: &[u8]) -> ArrayVec<u8, 32>
    requires { length user.now ≤ 32 }
    ensures { result.items ≡ user.now }
{
    let mut kept = ArrayVec::new();
    kept.try_extend_from_slice(user).unwrap();
    kept
}

fn refused<'a>(cause: Cause, dr_reason: u8) -> TransportDeed<'a>
    ensures { deed_of result ≡ Refused (release_of cause).sub dr_reason }
{
    let sub = cause.release().sub;
    TransportDeed::Refused { sub, dr_reason }
}

fn reason_of(fault: TpFault) -> u8
    ensures { result ≡ dr_reason fault }
{
    match fault {
        TpFault::Length { .. } | TpFault::Parameter(_) => 138,
        TpFault::Class(_) => 130,
        TpFault::Empty | TpFault::Code(_) | TpFault::Value { .. } | TpFault::UserData { .. } =>
            PROTOCOL_ERROR,
    }
}
