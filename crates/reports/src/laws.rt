//! Laws of verdicts. Their calls do nothing.
ghost use Rattle.reports.specs.Laws.{RightVerdictsAreSmall};

use verdict::laws as report_texts;

/// A right verdict on a board of at most 200,000 pieces, 400,000 points and 200,000 names of at most 14 bytes lists no more than
/// that, and in all paths together at most 600,000 pieces, where records and layers are below a million and each point's name is
/// one of the names. Then its numbers have at most six digits.
pub fn right_verdicts_are_small()
    ensures { RightVerdictsAreSmall }
{
    report_texts::right_verdicts_are_few();
}
