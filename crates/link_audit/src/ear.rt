//! The ear of a stream's receiver.

ghost use Rattle.std.specs.Prelude.{◌≡◌, ◌<◌};
ghost use Rattle.tap_model.specs.Hearing.{address_of_side, sort_of, has_number, is_link_opening, ends};
ghost use Rattle.link_audit.specs.Turns.{new_receiver, is_information, link_end_cause, turned, frame_turn};

use crate::frame_outcome::{FrameOutcome, TextOutcome};
use crate::texts::Texts;
use er_base::Side;
use hdlc_frames::Control;
use std::marker::Model;
use t70_header::Joiner;
use tap_model::EndCause;

/// The address of the engine's side (ISO/IEC 13239).
const CALLING: u8 = 0x03;
/// The address of the radio block centre's side.
const CALLED: u8 = 0x01;

/// What the receiver of a side's frames heard so far. Numbers of I frames are kept modulo 8.
#[derive(Drop)]
pub struct Ear {
    side: Side,
    opened: bool,
    count: u8,
    joiner: Joiner,
    texts: Texts,
    // whether an I frame came since the last one that counted, and didn't count
    gap: bool,
}

impl Model for Ear {
    ghost use Rattle.std.specs.Prelude.{◌<◌};
    ghost use Rattle.link_audit.specs.Turns.{KEar, IsFresh};

    ghost Value = { KEar };

    ghost view = { λ e. record {
      side = e.side;
      ear = record { opened = e.opened; count = e.count; held = e.joiner; dts = e.texts.dts; begun = e.texts.begun };
      gap = e.gap;
      text = e.texts.text;
    } };

    ghost invariant = { λ e. (e.count < 8) × (e.texts.dts < 128) × IsFresh e.opened e.count e.joiner e.texts.dts e.texts.begun e.gap };
}

// The address of a side.
fn address_of(side: Side) -> u8
    ensures { result ≡ address_of_side side }
{
    match side {
        Side::E => CALLING,
        Side::R => CALLED,
    }
}

// Whether a frame opens the link: the set-up frame of the engine's side, which has no information, or the agreement of the other.
fn opens(side: Side, address: u8, control: Control, information: &[u8]) -> bool
    ensures { result ≡ is_link_opening side (record { address = address; control = control; information = information.now }) }
{
    if address != CALLED {
        return false;
    }
    match (side, control) {
        (Side::E, Control::Sabm { .. }) => information.is_empty(),
        (Side::R, Control::Ua) => true,
        _ => false,
    }
}

// Whether a frame ends the link: DISC to the receiver, DM or FRMR of the sender.
fn ends(side: Side, address: u8, control: Control, information: &[u8]) -> bool
    ensures { result ≡ ends side (record { address = address; control = control; information = information.now }) }
{
    match control {
        Control::Disc { .. } => address == address_of(side.other()),
        Control::Dm | Control::Frmr => address == address_of(side),
        _ => false,
    }
}

// For which cause a frame that ends the link does.
fn cause_of_end(control: Control) -> EndCause
    ensures { result ≡ link_end_cause (sort_of control) }
{
    match control {
        Control::Disc { .. } => EndCause::Disc,
        _ => EndCause::Dm,
    }
}

// Whether this is an I frame.
fn is_information(control: Control) -> bool
    ensures { result ≡ is_information (sort_of control) }
{
    match control {
        Control::Info { .. } => true,
        _ => false,
    }
}

// Whether this is an I frame with this number.
fn has_number(count: u8, control: Control) -> bool
    ensures { result ≡ has_number count (sort_of control) }
{
    match control {
        Control::Info { ns, .. } => count % 8 == ns,
        _ => false,
    }
}

impl Ear {
    /// An ear that heard nothing of this side yet.
    pub fn new(side: Side) -> Ear
        ensures { result ≡ new_receiver side }
    {
        Ear {
            side,
            opened: false,
            count: 0,
            joiner: Joiner::new(),
            texts: Texts::new(),
            gap: false,
        }
    }

    /// The side that sends.
    pub fn side(&self) -> Side
        ensures { result ≡ self.now.side }
    {
        self.side
    }

    /// Whether the link was opened.
    pub fn opened(&self) -> bool
        ensures { result ≡ self.now.ear.opened }
    {
        self.opened
    }

    /// Whether an I frame came since the last one that counted, and didn't count.
    pub fn gap(&self) -> bool
        ensures { result ≡ self.now.gap }
    {
        self.gap
    }

    /// Numbers are kept modulo 8 and 128.
    pub fn numbers_are_kept(&self)
        ensures count { self.now.ear.count < 8 }
        ensures dts { self.now.ear.dts < 128 }
    {
        let _count = self.count;
    }

    /// Lends the newest text.
    pub fn text(&self) -> &[u8]
        ensures { result.now ≡ self.now.text }
    {
        self.texts.text()
    }

    /// A frame comes whose control was read.
    #[tactic(auto, using(crate::proofs::Turning::text_turns), unfolding(crate::specs::Turns::frame_turn))]
    pub fn read(&mut self, address: u8, control: Control, information: &[u8]) -> FrameOutcome
        ensures turn { turned result self.new
            ≡ frame_turn self.old.side self.old.ear self.old.gap (record { address = address; control = control; information = information.now }) }
        ensures side { self.new.side ≡ self.old.side }
    {
        if !self.opened {
            if opens(self.side, address, control, information) {
                self.opened = true;
            }
            return FrameOutcome::PassedOver;
        }
        if ends(self.side, address, control, information) {
            return FrameOutcome::LinkEnded(cause_of_end(control));
        }
        if address != address_of(self.side.other()) {
            return FrameOutcome::PassedOver;
        }
        if !has_number(self.count, control) {
            if is_information(control) {
                self.gap = true;
            }
            return FrameOutcome::PassedOver;
        }
        self.count = (self.count + 1) % 8;
        self.gap = false;
        match self.joiner.add(information) {
            Err(_) => FrameOutcome::Counted(TextOutcome::Ended(EndCause::Block)),
            Ok(None) => FrameOutcome::Counted(TextOutcome::NoText),
            Ok(Some(tpdu)) => FrameOutcome::Counted(self.texts.take(tpdu)),
        }
    }
}
