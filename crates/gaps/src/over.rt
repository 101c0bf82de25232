//! The pieces that may make lines with a piece.
ghost use Rattle.gaps.specs.Meetings.{IsOver};
ghost use Rattle.std.specs.Prelude.{IsTrue, length, ◌<◌};

use super::meetings::Span;
use cell_index::Wanted;

/// The pieces in nets over that of a piece, in whose span it has a layer.
#[derive(Clone, Copy)]
pub struct Over<'a> {
    pub numbers: &'a [u32],
    pub spans: &'a [Span],
    pub net: u32,
    pub span: Span,
}

impl<'a> Wanted for Over<'a> {
    ghost wanted = { λ over piece. IsOver over.numbers.now over.spans.now over.net over.span piece };

    /// Of a piece with a span exactly whether it is one.
    fn wants(&self, piece: u32) -> bool
        ensures wanted { IsOver self.now.numbers.now self.now.spans.now self.now.net self.now.span piece → IsTrue result }
        ensures only { piece < length self.now.spans.now → IsTrue result → IsOver self.now.numbers.now self.now.spans.now self.now.net self.now.span piece }
    {
        let Some(net) = self.numbers.get(piece as usize) else {
            return false;
        };
        if *net <= self.net {
            return false;
        }
        let Some(span) = self.spans.get(piece as usize) else {
            return true;
        };
        self.span.top.max(span.top) <= self.span.bottom.min(span.bottom)
    }
}
