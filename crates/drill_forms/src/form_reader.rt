//! What the reader of a file keeps, and how it obeys a line.
ghost use Rattle.std.specs.Prelude.{◌≡◌, ◌+◌, ◌^◌, ◌<◌, IfErr, OnOk};

use crate::form::FormLine;
use crate::meaning::line_in;
use crate::notes::{Bares, Words, is_bare, noted};
use board_shapes::Piece;
use file_reading::Halt;
use lengths::rows::NoMemory;
use std::alloc::Global;
use xnc::line::DrillLine;
use xnc::reader::Reader;
use xnc::{DrillKind, Span};

/// The reader of what the lines mean, and what they told besides. Barrels of unplated tools are not kept.
#[derive(Drop)]
pub struct FormReader {
    pub reader: Reader,
    pub words: Words,
    pub bares: Bares,
}

impl FormReader {
    ghost use Rattle.xnc.specs.Reader.{Halts, IsLawfulReader, known_of, place_of};
    ghost use Rattle.std.specs.Prelude.{ℕ, if◌then◌else◌, length, take};
    ghost use Rattle.board_shapes.specs.Plain.{plain_pieces};
    ghost use Rattle.drill_forms.specs.Reader.{IsNewReader, Obeys, bare_after, bare_in, is_bare_for, line_for};

    /// Before the first line of a file of so many bytes.
    pub fn new(alloc: Global, size: usize, span: Span, file: u32, room: u32) -> FormReader
        ensures new { IsNewReader (record { from = span.from; to = span.to; file = file; room = room }) result }
        ensures lawful { IsLawfulReader result.reader }
    {
        FormReader {
            reader: Reader::new(alloc, size, span, file, room),
            words: Words {
                own: None,
                lasting: None,
                mixed: None,
                has_untold: false,
                has_bare: false,
                zeros: None,
                layout: None,
                two_ways: false,
            },
            bares: Bares::new(alloc),
        }
    }

    // Whether the selected tool makes no barrels.
    fn is_bare(&self) -> bool
        ensures { result ≡ is_bare_for self.now }
    {
        match self.reader.settings.tool {
            None => false,
            Some(n) => self.bares.has(n),
        }
    }

    // Notes a tool that makes no barrels.
    fn note_tool(&mut self, form: &FormLine) -> Result<(), NoMemory>
        ensures bares { OnOk result ((n : ℕ) → bare_in self.new.bares n ≡ bare_after self.old.words (bare_in self.old.bares) form.now n) }
        ensures reader { self.new.reader ≡ self.old.reader }
        ensures words { self.new.words ≡ self.old.words }
    {
        match *form {
            FormLine::Says(DrillLine::Tool(n, _)) if is_bare(self.words) => self.bares.add(n),
            _ => Ok(()),
        }
    }

    // How many barrels there are.
    fn count(&self) -> usize
        ensures { result ≡ length self.now.reader.pieces.items }
    {
        self.reader.pieces.len()
    }

    // Leaves so many pieces where the tool makes no barrels.
    fn keep(&mut self, bare: bool, count: usize)
        ensures pieces { plain_pieces self.new.reader.pieces.items ≡ (if bare then take count (plain_pieces self.old.reader.pieces.items) else plain_pieces self.old.reader.pieces.items) }
        ensures settings { self.new.reader.settings ≡ self.old.reader.settings }
        ensures tools { self.new.reader.tools ≡ self.old.reader.tools }
        ensures lines { self.new.reader.lines ≡ self.old.reader.lines }
        ensures place { place_of self.new.reader ≡ place_of self.old.reader }
        ensures words { self.new.words ≡ self.old.words }
        ensures bares { self.new.bares ≡ self.old.bares }
    {
        if bare {
            self.reader.pieces.truncate(count);
        }
    }

    /// Obeys a line. An `Err` leaves a reader that is of no more use.
    pub fn obey(&mut self, form: &FormLine) -> Result<(), Halt<DrillKind>>
        requires lawful { IsLawfulReader self.old.reader }
        requires few { self.old.reader.lines + 1 < 2 ^ 32 }
        ensures ok { OnOk result (Obeys self.old form.now self.new) }
        ensures lawful { OnOk result (IsLawfulReader self.new.reader) }
        ensures halt { IfErr result (Halts (known_of self.old.reader) (line_for self.old form.now)) }
    {
        let line = line_in(self.reader.settings, self.words, form);
        let bare = self.is_bare();
        let count = self.count();
        self.reader.obey(&line)?;
        self.keep(bare, count);
        if let Err(_) = self.note_tool(form) {
            return Err(Halt::NoMemory);
        }
        self.words = noted(self.words, form);
        Ok(())
    }

    /// The barrels so far.
    pub fn into_pieces(self) -> Vec<Piece>
        ensures { result ≡ self.reader.pieces }
    {
        self.reader.into_pieces()
    }
}
