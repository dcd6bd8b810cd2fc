//! An ear that counts what comes to it, and keeps why it hears no more.

ghost use Rattle.std.specs.Prelude.{ℕ, ◌≡◌, ◌+◌, List, ◌++◌, ◌∷◌, [], None, Some, is_some, option_map};
ghost use Rattle.hdlc_frames.specs.Framing as framing;
ghost use Rattle.hdlc_frames.specs.Framing.{Verdict, frames_of};
ghost use Rattle.hdlc_frames.specs.Shown.{verdict_of_octets_found};
ghost use Rattle.hdlc_frames.specs.Deframing.{IsKeptOfStream, stream_behind_kept};
ghost use Rattle.link_audit.specs.Turns.{frame_turn};
ghost use Rattle.link_audit.specs.declared.frame_outcome.FrameOutcome.TheVariants as it;
ghost use Rattle.link_audit.specs.Counts.{kept_count, new_counted_ear, counted_end, counted_end_of_rest, items_behind, told_behind, why_told, left_told, brings_text, with_brought, count_brought, ear_behind, items_at_turn, end_at_turn, items_where_found, told_where_found};

use crate::ear::Ear;
use crate::frame_outcome::{FrameOutcome, TextOutcome};
use crate::told::Told;
use er_base::Side;
use hdlc_frames::{Control, Deframer, Found, Frame, control};
use std::marker::Model;
use tap_model::EndCause;

/// An ear, why it hears no more, and counts of frames, of those that counted, of texts, and of frames behind the end.
#[derive(Drop)]
pub struct CountedEar {
    ear: Ear,
    over: Option<EndCause>,
    frames: u64,
    counted: u64,
    texts: u64,
    left: u64,
}

impl Model for CountedEar {
    ghost use Rattle.link_audit.specs.Counts.{KCountedEar};

    ghost Value = { KCountedEar };

    ghost view = { λ e. record {
      ear = e.ear;
      over = e.over;
      frames = e.frames;
      counted = e.counted;
      texts = e.texts;
      left = e.left;
    } };
}

// A count, which is at most 2^64 - 1.
fn kept(count: u64) -> u64
    ensures { result ≡ kept_count count }
{
    count
}

impl CountedEar {
    /// An ear to which nothing of this side came yet.
    pub fn new(side: Side) -> CountedEar
        ensures { result ≡ new_counted_ear side }
    {
        CountedEar {
            ear: Ear::new(side),
            over: None,
            frames: 0,
            counted: 0,
            texts: 0,
            left: 0,
        }
    }

    /// The side that sends.
    pub fn side(&self) -> Side
        ensures { result ≡ self.now.ear.side }
    {
        self.ear.side()
    }

    /// Lends the newest text.
    pub fn text(&self) -> &[u8]
        ensures { result.now ≡ self.now.ear.text }
    {
        self.ear.text()
    }

    /// Whether no more is heard.
    pub fn is_over(&self) -> bool
        ensures { result ≡ is_some self.now.over }
    {
        self.over.is_some()
    }

    // Why no more is heard, where nothing more comes.
    fn why(&self) -> EndCause
        ensures { result ≡ why_told self.now.over self.now.ear.ear.opened self.now.ear.gap }
    {
        match self.over {
            Some(why) => why,
            None => {
                if !self.ear.opened() {
                    EndCause::Unopened
                } else if self.ear.gap() {
                    EndCause::Gap
                } else {
                    EndCause::Open
                }
            }
        }
    }

    // How many frames are left.
    fn left(&self) -> u64
        ensures { result ≡ kept_count (left_told self.now.over self.now.left) }
    {
        match self.over {
            Some(_) => kept(self.left),
            None => 0,
        }
    }

    /// What is told where nothing more comes.
    pub fn told(&self) -> Told
        ensures { result ≡ told_behind self.now [] }
    {
        tap_model::laws::hearing_turns();
        Told {
            frames: kept(self.frames),
            heard: kept(self.counted),
            items: kept(self.texts),
            left: self.left(),
            why: self.why(),
        }
    }

    // Nothing more is heard.
    fn end(&mut self, why: EndCause)
        ensures { self.new ≡ record self.old { over = Some why; left = 0 } }
    {
        self.over = Some(why);
        self.left = 0;
    }

    // One text more.
    fn count_text(&mut self)
        ensures { self.new ≡ record self.old { texts = kept_count (self.old.texts + 1) } }
    {
        self.texts = self.texts.saturating_add(1);
    }

    // One more frame counted; answers whether it brought a text.
    fn count(&mut self, outcome: TextOutcome) -> bool
        ensures ear { self.new ≡ ear_behind (it.Counted outcome) self.old }
        ensures brings { result ≡ brings_text (it.Counted outcome) }
    {
        self.counted = self.counted.saturating_add(1);
        match outcome {
            TextOutcome::NoText => false,
            TextOutcome::Text => {
                self.count_text();
                true
            }
            TextOutcome::LastText => {
                self.count_text();
                self.end(EndCause::Dr);
                true
            }
            TextOutcome::Ended(why) => {
                self.end(why);
                false
            }
        }
    }

    // A frame came to this; answers whether it brought a text.
    fn note(&mut self, outcome: FrameOutcome) -> bool
        ensures ear { self.new ≡ ear_behind outcome self.old }
        ensures brings { result ≡ brings_text outcome }
    {
        match outcome {
            FrameOutcome::PassedOver => false,
            FrameOutcome::Counted(outcome) => self.count(outcome),
            FrameOutcome::LinkEnded(why) => {
                self.end(why);
                false
            }
        }
    }

    // A frame comes whose control was read, while more may be heard.
    fn read(&mut self, address: u8, control: Control, information: &[u8]) -> bool
        requires { self.old.over ≡ None }
        ensures items { (verdicts : List Verdict) → items_at_turn self.old.ear.side (frame_turn self.old.ear.side self.old.ear.ear self.old.ear.gap
            (record { address = address; control = control; information = information.now })) verdicts
            ≡ with_brought result self.new.ear.text (items_behind self.new verdicts) }
        ensures end { (verdicts : List Verdict) → counted_end self.old.counted (end_at_turn self.old.ear.side (frame_turn self.old.ear.side self.old.ear.ear
            self.old.ear.gap (record { address = address; control = control; information = information.now })) verdicts)
            ≡ counted_end_of_rest self.new verdicts }
        ensures texts { self.new.texts ≡ count_brought result self.old.texts }
        ensures frames { self.new.frames ≡ self.old.frames }
        ensures side { self.new.ear.side ≡ self.old.ear.side }
    {
        let outcome = self.ear.read(address, control, information);
        self.note(outcome)
    }

    // An intact frame comes; answers whether it brought a text.
    fn frame(&mut self, frame: &Frame<'_>) -> bool
        ensures items { (verdicts : List Verdict) → items_behind self.old (framing.Frame frame.now.address frame.now.body.now ∷ verdicts)
            ≡ with_brought result self.new.ear.text (items_behind self.new verdicts) }
        ensures told { (verdicts : List Verdict) → told_behind self.old (framing.Frame frame.now.address frame.now.body.now ∷ verdicts)
            ≡ told_behind self.new verdicts }
        ensures side { self.new.ear.side ≡ self.old.ear.side }
    {
        tap_model::laws::hearing_turns();
        self.frames = self.frames.saturating_add(1);
        if self.over.is_some() {
            self.left = self.left.saturating_add(1);
            return false;
        }
        let Some((control, information)) = control(frame.body) else {
            return false;
        };
        self.ear.numbers_are_kept();
        self.read(frame.address, control, information)
    }

    /// What a deframer found comes; answers whether it brought a text.
    pub fn take(&mut self, found: &Option<Found<'_>>) -> bool
        ensures items { (verdicts : List Verdict) → items_where_found self.old (option_map verdict_of_octets_found found.now) verdicts
            ≡ with_brought result self.new.ear.text (items_behind self.new verdicts) }
        ensures told { (verdicts : List Verdict) → told_where_found self.old (option_map verdict_of_octets_found found.now) verdicts ≡ told_behind self.new verdicts }
        ensures side { self.new.ear.side ≡ self.old.ear.side }
    {
        match found {
            Some(Found::Frame(frame)) => self.frame(frame),
            Some(Found::BadFcs) => false,
            Some(Found::TooShort) => false,
            Some(Found::TooLong) => false,
            Some(Found::Aborted) => false,
            None => false,
        }
    }

    /// A whole piece of the stream comes, whatever texts it brings.
    pub fn hear(&mut self, deframer: &mut Deframer, piece: &[u8])
        requires { IsKeptOfStream deframer.old }
        ensures told { (more : List ℕ) → told_behind self.old (frames_of (stream_behind_kept deframer.old ++ (piece.now ++ more)))
            ≡ told_behind self.new (frames_of (stream_behind_kept deframer.new ++ more)) }
        ensures kept { IsKeptOfStream deframer.new }
    {
        hdlc_frames::laws::kept_stands_for_stream();
        let mut rest = piece;
        while !rest.is_empty() {
            let (used, found) = deframer.feed(rest);
            let _ = self.take(&found);
            rest = rest.split_at(used).1;
        }
    }
}
