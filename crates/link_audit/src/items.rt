//! What is heard of a side, one item after the other.

ghost use Rattle.std.specs.Prelude.{◌≡◌, drop, option_map, slice_get};
ghost use Rattle.tap_model.specs.Hearing.{heard, items};
ghost use Rattle.tap_model.specs.Lines.{stream_of};
ghost use Rattle.link_audit.specs.Counts.{told_of_stream};

use crate::marked_lines::MarkedLines;
use crate::stream::Stream;
use crate::told::Told;
use er_base::Side;
use std::marker::Model;

/// The items from one on. Contracts see them all, and what is told of the side in the end.
#[derive(Drop)]
pub struct Items<'t> {
    has_item: bool,
    stream: Stream<'t>,
}

impl<'t> Model for Items<'t> {
    ghost use Rattle.link_audit.specs.Streams.{KItems, pending, told_left};

    ghost Value = { KItems };

    ghost view = { λ i. record { left = pending i.has_item i.stream; told = told_left i.stream } };
}

impl<'t> Items<'t> {
    /// All that is heard of a side of a link.
    #[tactic(auto, unfolding(crate::specs::Streams::pending))]
    pub fn new(lines: &MarkedLines<'t>, link: u8, side: Side) -> Items<'t>
        ensures left { result.left ≡ items (heard side (stream_of link side lines.now)) }
        ensures told { result.told ≡ told_of_stream side (stream_of link side lines.now) }
    {
        hdlc_frames::laws::kept_stands_for_stream();
        tap_model::laws::hearing_turns();
        let mut stream = Stream::new(lines, link, side);
        let has_item = stream.next();
        Items { has_item, stream }
    }

    /// Lends the first item, where there is one.
    #[tactic(auto, unfolding(crate::specs::Streams::pending))]
    pub fn first(&self) -> Option<&[u8]>
        ensures { option_map (λ x. x.now) result ≡ slice_get self.now.left 0 }
    {
        if self.has_item {
            Some(self.stream.text())
        } else {
            None
        }
    }

    /// Goes on to the next item.
    #[tactic(auto, unfolding(crate::specs::Streams::pending))]
    pub fn advance(&mut self)
        ensures left { self.new.left ≡ drop 1 self.old.left }
        ensures told { self.new.told ≡ self.old.told }
    {
        if self.has_item {
            self.has_item = self.stream.next();
        }
    }

    /// How far the side was heard, and why no further: what is left of its stream is gone through.
    pub fn end(self) -> Told
        ensures { result ≡ self.entry.told }
    {
        self.stream.end()
    }
}
