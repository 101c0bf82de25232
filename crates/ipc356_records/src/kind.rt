//! Kinds of refusal.

use file_reading::{RefusalKind, name_of};

/// Why a netlist is refused.
#[derive(Clone, Copy, Debug, PartialEq, Eq)]
pub enum RecordKind {
    /// A line with no known code.
    UnknownCode = 1,
    /// A continuation record, `017` or `027`.
    Continuation,
    /// A test record before the `UNITS` parameter.
    MissingUnits,
    /// A second `UNITS` parameter.
    UnitsTwice,
    /// A `UNITS` parameter that is neither `CUST 0` nor `CUST 1`.
    BadUnits,
    /// An access code that is no number from 0 to the number of layers.
    BadAccess,
    /// A coordinate that is not its letter, a sign and a number.
    BadNumber,
    /// A net name with a byte that is not from 33 to 126.
    BadName,
    /// A place over 1 m from 0.
    OutOfRange,
    /// The file's end before `999`.
    NotEnded,
    /// A line after `999` that is not blank.
    AfterEnd,
    /// A test record after `MOST_RECORDS` others.
    TooManyRecords,
}

impl RefusalKind for RecordKind {
    ghost use Rattle.ipc356_records.specs.Kind.{row_of};

    ghost row = { row_of };

    fn name(self) -> &'static str {
        name_of!(self, RecordKind:
            UnknownCode Continuation MissingUnits UnitsTwice BadUnits BadAccess BadNumber BadName
            OutOfRange NotEnded AfterEnd TooManyRecords)
    }

    fn number(self) -> u32 {
        self as u32
    }
}

/// Why a netlist is not read: its first faulty line, by its number from 1, or want of memory.
#[derive(Clone, Copy, Debug, PartialEq, Eq)]
pub enum RecordFault {
    /// The first fault, and the number of its line, from 1.
    Refused { kind: RecordKind, line: u32 },
    /// Memory is wanted.
    NoMemory,
}
