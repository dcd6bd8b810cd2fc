//! What a side of a link sent, piece by piece.

ghost use Rattle.std.specs.Prelude.{◌≡◌, ◌<◌, true, false, ◌∷◌, [], length};
ghost use Rattle.hdlc_frames.specs.Deframing.{kept_of};
ghost use Rattle.link_audit.specs.Counts.{new_counted_ear, with_brought};
ghost use Rattle.link_audit.specs.Streams.{items_left, told_left};

use crate::counted_ear::CountedEar;
use crate::marked_lines::MarkedLines;
use crate::told::Told;
use er_base::Side;
use hdlc_frames::Deframer;
use std::marker::Model;

/// The lines that are left, the octets that are left of a piece, and what was heard so far.
#[derive(Drop)]
pub struct Stream<'t> {
    lines: MarkedLines<'t>,
    piece: &'t [u8],
    link: u8,
    deframer: Deframer,
    ear: CountedEar,
}

impl<'t> Model for Stream<'t> {
    ghost use Rattle.hdlc_frames.specs.Deframing.{IsKeptOfStream};
    ghost use Rattle.link_audit.specs.Streams.{KStream};

    ghost Value = { KStream };

    ghost view = { λ s. record {
      lines = s.lines;
      piece = s.piece.now;
      link = s.link;
      kept = s.deframer;
      ear = s.ear;
    } };

    ghost invariant = { λ s. IsKeptOfStream s.deframer };
}

impl<'t> Stream<'t> {
    /// A side of a link, of which nothing was heard yet.
    pub fn new(lines: &MarkedLines<'t>, link: u8, side: Side) -> Stream<'t>
        ensures lines { result.lines ≡ lines.now }
        ensures piece { result.piece ≡ [] }
        ensures link { result.link ≡ link }
        ensures kept { result.kept ≡ kept_of [] }
        ensures ear { result.ear ≡ new_counted_ear side }
    {
        hdlc_frames::laws::kept_stands_for_stream();
        Stream {
            lines: lines.all(),
            piece: &[],
            link,
            deframer: Deframer::new(),
            ear: CountedEar::new(side),
        }
    }

    /// Lends the newest text.
    pub fn text(&self) -> &[u8]
        ensures { result.now ≡ self.now.ear.ear.text }
    {
        self.ear.text()
    }

    // The octets up to the first that closes a frame; answers whether it brought a text.
    fn feed(&mut self) -> bool
        ensures items { items_left self.old ≡ with_brought result self.new.ear.ear.text (items_left self.new) }
        ensures told { told_left self.old ≡ told_left self.new }
        ensures lines { self.new.lines ≡ self.old.lines }
        ensures link { self.new.link ≡ self.old.link }
        ensures side { self.new.ear.ear.side ≡ self.old.ear.ear.side }
        ensures moves { 0 < length self.old.piece → length self.new.piece < length self.old.piece }
    {
        hdlc_frames::laws::kept_stands_for_stream();
        let (used, found) = self.deframer.feed(self.piece);
        let brings = self.ear.take(&found);
        self.piece = self.piece.split_at(used).1;
        brings
    }

    /// Goes on to the next text, and answers whether there is one.
    pub fn next(&mut self) -> bool
        ensures some { result ≡ true → items_left self.old ≡ self.new.ear.ear.text ∷ items_left self.new }
        ensures none { result ≡ false → (items_left self.old ≡ []) × (items_left self.new ≡ []) }
        ensures told { told_left self.old ≡ told_left self.new }
    {
        hdlc_frames::laws::kept_stands_for_stream();
        tap_model::laws::hearing_turns();
        while !self.ear.is_over() {
            if self.piece.is_empty() {
                let Some(piece) = self.lines.next_piece(self.link, self.ear.side()) else {
                    return false;
                };
                self.piece = piece;
            } else if self.feed() {
                return true;
            }
        }
        false
    }

    /// What is told of the stream, once all that is left of it is gone through.
    pub fn end(self) -> Told
        ensures { result ≡ told_left self.entry }
    {
        hdlc_frames::laws::kept_stands_for_stream();
        let Stream {
            mut lines,
            piece,
            link,
            mut deframer,
            mut ear,
        } = self;
        let side = ear.side();
        ear.hear(&mut deframer, piece);
        while let Some(piece) = lines.next_piece(link, side) {
            ear.hear(&mut deframer, piece);
        }
        ear.told()
    }
}
