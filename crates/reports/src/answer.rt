//! What is answered of a board: a text, and the line about it.
ghost use Rattle.reports.specs.BetweenText.{IsDecisionBy};
ghost use Rattle.reports.specs.Gapped.{IsGapStatus};
ghost use Rattle.reports.specs.Lines.{Says};
ghost use Rattle.reports.specs.Notes.{line_of, status_of};
ghost use Rattle.reports.specs.Right.{HasStatus};
ghost use Rattle.std.specs.Prelude.{◌≡◌};

use crate::findings::Findings;
use crate::lines;
use board_io::Sink;
use verdict::Verdict;

/// What a command answers: the text for the output, and what the line about it says.
#[derive(Drop)]
pub struct Answer {
    pub text: Vec<u8>,
    pub note: Note,
}

/// What the line about an answer says.
#[derive(Clone, Copy)]
pub enum Note {
    Agrees,
    Differs {
        opens: usize,
        shorts: usize,
        missing: usize,
    },
    AuditTrue,
    AuditUntrue {
        clause: u8,
    },
    TrialDone {
        agrees: bool,
    },
    NetlistWritten,
    NoGaps,
    Gaps {
        count: usize,
    },
    Flattened,
    Undecided {
        opens: usize,
        shorts: usize,
        missing: usize,
    },
}

impl Note {
    /// What the line about a report says.
    pub fn of(verdict: &Verdict) -> Note
        ensures { HasStatus verdict.now (status_of result) (line_of result) }
    {
        if verdict.agrees() {
            return Note::Agrees;
        }
        Note::Differs {
            opens: verdict.opens.as_slice().len(),
            shorts: verdict.shorts.as_slice().len(),
            missing: verdict.bare.as_slice().len(),
        }
    }

    /// What the line about a board says of which this is certain and that undecided.
    pub fn between(sure: &Findings, unsure: &Findings) -> Note
        ensures { IsDecisionBy sure.now unsure.now (status_of result) (line_of result) }
    {
        if !sure.are_none() {
            return Note::Differs {
                opens: sure.opens().len(),
                shorts: sure.shorts().len(),
                missing: sure.missing().len(),
            };
        }
        if unsure.are_none() {
            return Note::Agrees;
        }
        Note::Undecided {
            opens: unsure.opens().len(),
            shorts: unsure.shorts().len(),
            missing: unsure.missing().len(),
        }
    }

    /// What the line about so many gaps says.
    pub fn gaps(count: usize) -> Note
        ensures { IsGapStatus count (status_of result) (line_of result) }
    {
        if count == 0 {
            return Note::NoGaps;
        }
        Note::Gaps { count }
    }

    /// The status of the answer, 0 or 1.
    pub fn status(self) -> u8
        ensures { result ≡ status_of self }
    {
        match self {
            Note::Agrees => 0,
            Note::Differs { .. } => 1,
            Note::AuditTrue => 0,
            Note::AuditUntrue { .. } => 1,
            Note::TrialDone { agrees } => { if agrees { 0 } else { 1 } }
            Note::NetlistWritten => 0,
            Note::NoGaps => 0,
            Note::Gaps { .. } => 1,
            Note::Flattened => 0,
            Note::Undecided { .. } => 1,
        }
    }

    /// Puts the line.
    pub fn put<N: Sink>(self, notes: &mut N)
        ensures { Says N.got N.faults notes.old notes.new (line_of self) }
    {
        match self {
            Note::Agrees => lines::plain(notes, b"agrees"),
            Note::Differs {
                opens,
                shorts,
                missing,
            } => lines::findings(notes, b"differs", opens, shorts, missing),
            Note::AuditTrue => lines::plain(notes, b"audit true"),
            Note::AuditUntrue { clause } => {
                lines::counted(notes, b"audit untrue ", u64::from(clause))
            }
            Note::TrialDone { .. } => lines::plain(notes, b"trial done"),
            Note::NetlistWritten => lines::plain(notes, b"netlist written"),
            Note::NoGaps => lines::plain(notes, b"no gaps"),
            Note::Gaps { count } => lines::counted(notes, b"gaps ", count as u64),
            Note::Flattened => lines::plain(notes, b"flattened"),
            Note::Undecided {
                opens,
                shorts,
                missing,
            } => lines::findings(notes, b"undecided", opens, shorts, missing),
        }
    }
}
