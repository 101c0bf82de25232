//! The lines of a netlist and their columns.
ghost use Rattle.std.specs.Prelude.{◌≡◌, ◌+◌, ◌-◌, ◌≤◌, length};
ghost use Rattle.texts.specs.Blanks.{trimmed};
ghost use Rattle.texts.specs.Lines.{start};
ghost use Rattle.ipc356_records.specs.Columns.{name_from, name_to, part};

use texts::{Lines, MOST_BYTES, trimmed};

/// A line of a netlist: its number, from 1, and its bytes without the line end.
#[derive(Clone, Copy)]
pub struct Record<'a> {
    pub line: u32,
    pub text: &'a [u8],
}

impl<'a> Record<'a> {
    /// What stands in these columns, counted from 1: shorter or empty where the line ends before.
    pub fn columns(&self, first: usize, last: usize) -> &'a [u8]
        requires from_one { 1 ≤ first }
        requires in_order { first ≤ last }
        ensures part { result.now ≡ part first last self.now.text.now }
        ensures within { length result.now ≤ last + 1 - first }
    {
        let end = last.min(self.text.len());
        let start = (first - 1).min(end);
        &self.text[start..end]
    }

    /// The net name in columns 4 to 17, without the blanks at either end.
    pub fn net(&self) -> &'a [u8]
        ensures name { result.now ≡ trimmed (part name_from name_to self.now.text.now) }
        ensures short { length result.now ≤ 14 }
    {
        trimmed(self.columns(4, 17))
    }

    /// The component in columns 21 to 26, without the blanks at either end.
    pub fn component(&self) -> &'a [u8]
        ensures name { result.now ≡ trimmed (part 21 26 self.now.text.now) }
    {
        trimmed(self.columns(21, 26))
    }

    /// The pin in columns 28 to 31, without the blanks at either end.
    pub fn pin(&self) -> &'a [u8]
        ensures name { result.now ≡ trimmed (part 28 31 self.now.text.now) }
    {
        trimmed(self.columns(28, 31))
    }
}

/// A netlist that is read line by line.
#[derive(Drop)]
pub struct Records<'a> {
    lines: Lines<'a>,
}

impl<'a> Records<'a> {
    ghost use Rattle.ipc356_records.specs.Records.{ahead, Gives, IsShorter};

    /// A file of at most `MOST_BYTES` bytes, before its first line.
    pub fn new(file: &'a [u8]) -> Records<'a>
        requires size { length file.now ≤ MOST_BYTES }
        ensures start { ahead result ≡ start file.now }
    {
        Records {
            lines: Lines::new(file),
        }
    }

    /// The number of the line that comes next, or that would come after the last.
    pub fn line(&self) -> u32
        ensures number { result ≡ (ahead self.now).number }
    {
        self.lines.number()
    }

    /// The next line, or `None` after the last.
    pub fn next_record(&mut self) -> Option<Record<'a>>
        ensures next { Gives (ahead self.old) result (ahead self.new) }
        ensures shorter { IsShorter (ahead self.old) result (ahead self.new) }
    {
        match self.lines.next_line() {
            None => None,
            Some(line) => Some(Record {
                line: line.number,
                text: line.text,
            }),
        }
    }
}
