//! How a line is read by itself.
ghost use Rattle.std.specs.Prelude.{◌≡◌};
ghost use Rattle.ipc356_records.specs.Columns.{words};
ghost use Rattle.ipc356_records.specs.Lawful.{IsLawfulForm};
ghost use Rattle.ipc356_records.specs.Line.{view};
ghost use Rattle.net_forms.specs.NetLines as spec;

use ipc356_records::blanks::next_word;
use ipc356_records::line::RecordLine;
use ipc356_records::{Record, record_lines as narrow};
use lengths::decimal::Unit;
use texts::{begins, is_word};

#[tactic(auto, unfolding(crate::specs::NetLines::units_of))]
fn units_of(text: &[u8]) -> Option<Unit>
    ensures { result ≡ spec.units_of (words text.now) }
{
    let (_, text) = next_word(text)?;
    let (word, text) = next_word(text)?;
    if next_word(text).is_some() || !is_word(word, b"SI") {
        None
    } else {
        Some(Unit::Mm)
    }
}

#[tactic(auto, unfolding(crate::specs::NetLines::further))]
fn further<'a>(line: &Record<'a>) -> RecordLine<'a>
    ensures value { view result ≡ spec.further line.now.text.now }
    ensures lawful { IsLawfulForm (view result) }
{
    if !begins(line.text, b"307") {
        return RecordLine::Unknown;
    }
    RecordLine::Test(narrow::fields_in(line))
}

/// What a line says by itself.
#[tactic(auto, unfolding(crate::specs::NetLines::form_of))]
pub fn read_form<'a>(line: &Record<'a>) -> RecordLine<'a>
    ensures value { view result ≡ spec.form_of line.now.text.now }
    ensures lawful { IsLawfulForm (view result) }
{
    match narrow::read_form(line) {
        RecordLine::Unknown => further(line),
        RecordLine::Units(None) => RecordLine::Units(units_of(line.columns(2, 57))),
        other => other,
    }
}
