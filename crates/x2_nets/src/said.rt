//! What a word says of the net of objects.
ghost use Rattle.std.specs.Prelude.{◌≡◌, List, ℕ};
ghost use Rattle.std.specs.Option.{option_copied};
ghost use Rattle.gerber_words.specs.Attributes.{plain_attribute};
ghost use Rattle.gerber_words.specs.Stepping.{entry_of};
ghost use Rattle.x2_nets.specs.Labels as spec;
ghost use Rattle.x2_nets.specs.Seen.{view};

use gerber_words::{Attribute, AttributeKind, Word, is_field};

/// Nothing; the name of the objects that come next; or that they have none.
#[derive(Clone, Copy)]
pub enum Said<'a> {
    Nothing,
    Named(&'a [u8]),
    Unnamed,
}

/// What a word of a file says.
pub fn said_by<'a>(word: Word<'a>) -> Said<'a>
    ensures { view result ≡ spec.said_of (entry_of word.entry) }
{
    let Some(attribute) = word.attribute() else {
        return Said::Nothing;
    };
    match attribute.kind() {
        AttributeKind::File => Said::Nothing,
        AttributeKind::Aperture => Said::Nothing,
        AttributeKind::Object => named_by(attribute),
        AttributeKind::Delete => ended_by(attribute),
    }
}

// An attribute of objects gives a name where it is `.N`.
fn named_by<'a>(attribute: Attribute<'a>) -> Said<'a>
    ensures { view result ≡ spec.named_by (plain_attribute attribute.entry).text }
{
    if is_field(attribute.field(0), b".N") {
        Said::Named(name_in(attribute.field(1)))
    } else {
        Said::Nothing
    }
}

// The end of all attributes, or of `.N` alone, ends the name.
fn ended_by<'a>(attribute: Attribute<'a>) -> Said<'a>
    ensures { view result ≡ spec.ended_by (plain_attribute attribute.entry).text }
{
    let part = attribute.field(0);
    if is_field(part, b"") || is_field(part, b".N") {
        Said::Unnamed
    } else {
        Said::Nothing
    }
}

// The name that a field gives: `N/C`, no net, where it is missing or empty.
fn name_in<'a>(field: Option<&'a [u8]>) -> &'a [u8]
    ensures { result.now ≡ spec.name_in (option_copied field.entry) }
{
    match field {
        None => b"N/C",
        Some(text) => if text.is_empty() { b"N/C" } else { text },
    }
}
