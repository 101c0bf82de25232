//! Laws over the definitions. Their calls do nothing.
ghost use Rattle.verdict.specs.Laws.{NoReportIsAFront, ReportTextIsInjective, ReportsAreShort, RightVerdictsAreFew};

/// Two verdicts with the same text are equal.
pub fn report_text_is_injective()
    ensures { ReportTextIsInjective }
{}

/// No report is a front of another report: what is left of a report that was cut off, in either version, is the text of no
/// verdict.
pub fn no_report_is_a_front()
    ensures { NoReportIsAFront }
{}

/// The report of a verdict without a supplement is at most `MOST_BYTES` bytes long, where its parts are few and its numbers
/// small (`HasFewParts`, `HasSmallParts`), as those of a right verdict within the limits of a package are (`reports`,
/// `right_verdicts_are_small`).
pub fn reports_are_short()
    ensures { ReportsAreShort }
{}

/// A right verdict has no more twigs and nets than the board has pieces, and one line for each point. It has no more opens, no
/// more branches and no more bare points than there are points.
pub fn right_verdicts_are_few()
    ensures { RightVerdictsAreFew }
{}
