//! A check and the audit of its report, as any caller makes the two calls.
ghost use Rattle.board_io.specs.Causes.{Rose};
ghost use Rattle.board_io.specs.Memory.{faults_of, files_of};
ghost use Rattle.board_io.specs.MemorySink.{faults_of as sink_faults_of, got_of};
ghost use Rattle.board_package.specs.PackageBoard.{IsBoardOf};
ghost use Rattle.board_shapes.specs.Plain.{PlainBoard};
ghost use Rattle.boardnet.specs.Words.{IsAudit, IsCheck};
ghost use Rattle.reports.specs.declared.judged.Version.{Version};
ghost use Rattle.std.specs.Prelude.{List, None, [], length, ℕ, ◌<◌, ◌≡◌, ◌≤◌, ◌⊎◌};

use crate::laws::reports_pass;
use crate::run::run;
use board_io::{MemoryPackage, MemorySink, Sink};
use board_package::laws::one_outcome;
use std::alloc::Global;
use texts::MOST_BYTES;
use verdict::laws::report_text_is_injective;

/// What a check and the audit of its report come to.
#[derive(Clone, Copy, Debug, PartialEq, Eq)]
pub enum Certified {
    /// The status of a check that wrote no report, or one that is longer than a file may be.
    Unreported(u8),
    /// The status of the audit.
    Audited(u8),
    /// Memory is wanted.
    NoMemory,
}

/// Checks a package in memory, holds the report in it under another name, and audits it.
///
/// `checking` are the words of a check, `auditing` those of an audit of the same manifest; `out` is empty, and nothing is
/// held under the report's name. Then the audit ends with 0 or 6 where no file was lost and the ruling could be written,
/// and where the package fits there is a report to audit, unless it is too long, a fault rose or memory is wanted: by the
/// contract of `run` and the law that a written report passes, and nothing else.
pub fn certify<N: Sink>(
    alloc: Global,
    checking: &[String],
    auditing: &[String],
    report: &str,
    package: &mut MemoryPackage,
    out: &mut MemorySink,
    ruling: &mut MemorySink,
    notes: &mut N,
) -> Certified
    ensures unreported { (status : ℕ) → result ≡ Certified.Unreported status → (2 ≤ status) ⊎ (MOST_BYTES < length (got_of out.new)) }
    ensures complete { (version : Version) (manifest : List ℕ) → IsCheck checking.now version manifest → (board : PlainBoard) → IsBoardOf (files_of «package».old) manifest board
        → (Rose (faults_of «package».old) (faults_of «package».new) → ⊥) → (Rose (sink_faults_of out.old) (sink_faults_of out.new) → ⊥)
        → (status : ℕ) → result ≡ Certified.Unreported status → (status ≡ 6) ⊎ (MOST_BYTES < length (got_of out.new)) }
    ensures passes { (version : Version) (manifest : List ℕ) → IsCheck checking.now version manifest → IsAudit auditing.now manifest report.now → files_of «package».old report.now ≡ None → got_of out.old ≡ []
        → (Rose (faults_of «package».old) (faults_of «package».new) → ⊥) → (Rose (sink_faults_of ruling.old) (sink_faults_of ruling.new) → ⊥)
        → (status : ℕ) → result ≡ Certified.Audited status → (status ≡ 0) ⊎ (status ≡ 6) }
{
    let status = run(alloc, checking, package, out, notes);
    if status > 1 || out.bytes().len() > MOST_BYTES {
        return Certified::Unreported(status);
    }
    if package.hold(report, out.bytes()).is_err() {
        return Certified::NoMemory;
    }
    one_outcome();
    report_text_is_injective();
    reports_pass();
    Certified::Audited(run(alloc, auditing, package, ruling, notes))
}
