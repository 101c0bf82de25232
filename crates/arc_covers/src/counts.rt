//! The file of counts: how many pieces stand for each piece of a real board, below it and above.
ghost use Rattle.arc_covers.specs.Counts.{AreCounts, IsCountsFault, first_line};
ghost use Rattle.arc_covers.specs.CountsReading.{both_at};
ghost use Rattle.arc_covers.specs.declared.counts.CountsFault.TheVariants as fault;
ghost use Rattle.std.specs.Option.{option_map};
ghost use Rattle.std.specs.Prelude.{IfErr, IfOk, ◌++◌, ◌≡◌};

use lengths::rows::{NoMemory, Rows};
use std::alloc::Global;
use verdict::{behind, number, word};

/// The counts of each real piece, as long as one another.
#[derive(Drop)]
pub struct Counts {
    pub lower: Rows<u32>,
    pub upper: Rows<u32>,
}

/// Why bytes are no file of counts.
#[derive(Clone, Copy, Debug, PartialEq, Eq)]
pub enum CountsFault {
    /// The line of that number, from 1, is the first that is of another form.
    Line(usize),
    NoMemory,
}

impl From<NoMemory> for CountsFault {
    ghost from_gives = { λ _ e. e ≡ fault.NoMemory };

    fn from(_: NoMemory) -> CountsFault {
        CountsFault::NoMemory
    }
}

/// Both counts of the line in front, and what stands behind it.
#[tactic(auto, unfolding(crate::specs::CountsReading::both_at))]
fn both(bytes: &[u8]) -> Option<((u32, u32), &[u8])>
    ensures { option_map (λ x. (x.0, x.1.now)) result ≡ both_at bytes.now }
{
    let (below, rest) = number(bytes).ok()?;
    let (above, rest) = word(rest).ok()?;
    let rest = behind(rest, b"\n")?;
    Some(((below, above), rest))
}

/// The counts of lines that stand behind the first, which are numbered from 2.
fn read_lines(alloc: Global, lines: &[u8]) -> Result<Counts, CountsFault>
    ensures ok { IfOk result (λ counts. AreCounts (first_line ++ lines.now) counts.lower counts.upper) }
    ensures fault { IfErr result (IsCountsFault (first_line ++ lines.now)) }
{
    let mut lower = Rows::new(alloc);
    let mut upper = Rows::new(alloc);
    let mut rest = lines;
    let mut line = 2;
    while !rest.is_empty() {
        match both(rest) {
            Some(((below, above), after)) => {
                lower.push(below)?;
                upper.push(above)?;
                rest = after;
                line += 1;
            }
            None => return Err(CountsFault::Line(line)),
        }
    }
    Ok(Counts { lower, upper })
}

/// The counts that the bytes spell: `boardnet-bounds 1`, and a line for each real piece. As many lines are
/// read as there are. `Line` where the bytes spell none; `NoMemory` where memory is wanted, for eight
/// bytes a line.
pub fn read_counts(alloc: Global, bytes: &[u8]) -> Result<Counts, CountsFault>
    ensures ok { IfOk result (λ counts. AreCounts bytes.now counts.lower counts.upper) }
    ensures fault { IfErr result (IsCountsFault bytes.now) }
{
    match behind(bytes, b"boardnet-bounds 1\n") {
        Some(lines) => read_lines(alloc, lines),
        None => Err(CountsFault::Line(1)),
    }
}
