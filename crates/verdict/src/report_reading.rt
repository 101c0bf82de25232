//! Reading a report back.
ghost use Rattle.std.specs.Prelude.{◌≡◌, IfErr, IfOk};
ghost use Rattle.verdict.specs.Lawful.{IsVerdict};
ghost use Rattle.verdict.specs.ReportReading as spec;
ghost use Rattle.verdict.specs.ReportText.{last_line as last_line_of, report_text};
ghost use Rattle.verdict.specs.declared.verdict.Verdict.{Verdict};

use crate::fields::{behind, expect, titled};
use crate::lines::section;
use crate::verdict::{Open, PointLine, Short, Supplement, Trees, Verdict};
use lengths::rows::{NoMemory as Wanting, Rows};
use lengths::text::Text;
use std::alloc::Global;

/// Why bytes are no report.
#[derive(Clone, Copy, Debug, PartialEq, Eq)]
pub enum ReadFault {
    /// They are the text of no verdict.
    NotAReport,
    /// Memory is wanted.
    NoMemory,
}

impl From<Wanting> for ReadFault {
    ghost use Rattle.std.specs.Prelude.{◌≡◌};
    ghost use Rattle.verdict.specs.declared.report_reading.ReadFault.TheVariants.{NoMemory};

    ghost from_gives = { λ _ e. e ≡ NoMemory };

    fn from(_: Wanting) -> ReadFault {
        ReadFault::NoMemory
    }
}

// What a text lists of its board, and whether its first line tells of a supplement.
#[derive(Drop)]
struct Listed {
    told: bool,
    pieces: u32,
    nets: Trees,
    names: Rows<Text>,
    points: Rows<PointLine>,
}

// The last line of a verdict's text.
fn last_line(v: &Verdict) -> &'static [u8]
    ensures { result.now ≡ last_line_of v.now.opens v.now.shorts v.now.bare }
{
    if v.agrees() {
        b"agrees\n"
    } else {
        b"differs\n"
    }
}

// The first line, and whether it tells of a supplement.
#[tactic(auto, unfolding(crate::specs::ReportReading::first_line_at))]
fn first_line(text: &[u8]) -> Result<(bool, &[u8]), ReadFault>
    ensures { spec.Gives (λ x. (x.0, x.1.now)) result (spec.first_line_at text.now) }
{
    match behind(text, b"boardnet 1\n") {
        Some(rest) => Ok((false, rest)),
        None => {
            let rest = expect(text, b"boardnet 2\n")?;
            Ok((true, rest))
        }
    }
}

#[tactic(auto, unfolding(crate::specs::ReportReading::supplement_at))]
fn supplement(alloc: Global, bytes: &[u8]) -> Result<(Supplement, &[u8]), ReadFault>
    ensures { spec.Gives (λ x. (x.0, x.1.now)) result (spec.supplement_at bytes.now) }
{
    let (spots, rest) = section(alloc, b"spots", bytes)?;
    let (sources, rest) = section(alloc, b"sources", rest)?;
    Ok((Supplement { spots, sources }, rest))
}

// The supplement, where the first line tells of one.
#[tactic(auto, unfolding(crate::specs::ReportReading::more_at))]
fn more(alloc: Global, told: bool, bytes: &[u8]) -> Result<(Option<Supplement>, &[u8]), ReadFault>
    ensures { spec.Gives (λ x. (x.0, x.1.now)) result (spec.more_at told bytes.now) }
{
    if !told {
        return Ok((None, bytes));
    }
    let (more, rest) = supplement(alloc, bytes)?;
    Ok((Some(more), rest))
}

// The end of a text: the last line that the verdict asks for, and nothing behind it.
fn ended(verdict: Verdict, rest: &[u8]) -> Result<Verdict, ReadFault>
    ensures { spec.Gives (λ v. v) result (spec.ended verdict rest.now) }
{
    if rest == last_line(&verdict) {
        Ok(verdict)
    } else {
        Err(ReadFault::NotAReport)
    }
}

// What stands behind the shorts: the points without copper, the supplement and the last line.
#[tactic(auto, unfolding(crate::specs::ReportReading::endings_at))]
fn endings(
    alloc: Global,
    listed: Listed,
    opens: Rows<Open>,
    shorts: Rows<Short>,
    bytes: &[u8],
) -> Result<Verdict, ReadFault>
    ensures { spec.Gives (λ v. v) result (spec.endings_at listed opens shorts bytes.now) }
{
    let (bare, rest) = section(alloc, b"missing", bytes)?;
    let (more, rest) = more(alloc, listed.told, rest)?;
    let verdict = Verdict {
        pieces: listed.pieces,
        names: listed.names,
        nets: listed.nets,
        points: listed.points,
        opens,
        shorts,
        bare,
        more,
    };
    ended(verdict, rest)
}

// What stands behind the points: what is amiss, the supplement and the last line. Its end is `endings`, since the proof of both in one
// would cost twice as much.
#[tactic(auto, unfolding(crate::specs::ReportReading::findings_at))]
fn findings(alloc: Global, listed: Listed, bytes: &[u8]) -> Result<Verdict, ReadFault>
    ensures { spec.Gives (λ v. v) result (spec.findings_at listed bytes.now) }
{
    let (opens, rest) = section(alloc, b"opens", bytes)?;
    let (shorts, rest) = section(alloc, b"shorts", rest)?;
    endings(alloc, listed, opens, shorts, rest)
}

// What stands behind the number of pieces.
#[tactic(auto, unfolding(crate::specs::ReportReading::lists_at))]
fn lists(alloc: Global, told: bool, pieces: u32, bytes: &[u8]) -> Result<Verdict, ReadFault>
    ensures { spec.Gives (λ v. v) result (spec.lists_at told pieces bytes.now) }
{
    let (nets, rest) = section(alloc, b"nets", bytes)?;
    let (names, rest) = section(alloc, b"names", rest)?;
    let (points, rest) = section(alloc, b"points", rest)?;
    let listed = Listed {
        told,
        pieces,
        nets,
        names,
        points,
    };
    findings(alloc, listed, rest)
}

#[tactic(auto, unfolding(crate::specs::ReportReading::report_at))]
fn report(alloc: Global, text: &[u8]) -> Result<Verdict, ReadFault>
    ensures { spec.Gives (λ v. v) result (spec.report_at text.now) }
{
    let (told, rest) = first_line(text)?;
    let (pieces, rest) = titled(rest, b"pieces")?;
    lists(alloc, told, pieces, rest)
}

/// The verdict whose text this is. `NotAReport` comes only where the bytes are the text of no verdict; `NoMemory` is free. The
/// memory that is taken grows with the bytes, but no clause says so.
pub fn read_report(alloc: Global, text: &[u8]) -> Result<Verdict, ReadFault>
    ensures ok { IfOk result (λ v. IsVerdict v × (text.now ≡ report_text v)) }
    ensures fault { IfErr result (λ fault. fault ≡ ReadFault.NotAReport → (v : Verdict) → IsVerdict v → text.now ≡ report_text v → ⊥) }
{
    report(alloc, text)
}
