//! Attributes, and their fields.
ghost use Rattle.std.specs.Prelude.{◌≡◌, ◌≤◌, length, option_map, IfSome};
ghost use Rattle.std.specs.Option.{option_copied};
ghost use Rattle.gerber_words.specs.Attributes.{attribute_kind, attribute_of, field_of, is_field as is_field_of, plain_attribute};
ghost use Rattle.gerber_words.specs.Stepping.{entry_of};

use crate::words::Word;

/// What an attribute speaks of (Gerber Layer Format Specification, section 5): the file (`TF`), the
/// apertures that are defined next (`TA`) or the objects that are made next (`TO`); or it deletes
/// attributes (`TD`).
#[derive(Clone, Copy, Debug, PartialEq, Eq)]
pub enum AttributeKind {
    File,
    Aperture,
    Object,
    Delete,
}

/// An attribute of a file: its kind, and its fields as slices of the file.
#[derive(Clone, Copy)]
pub struct Attribute<'a> {
    kind: AttributeKind,
    text: &'a [u8],
}

impl<'a> Word<'a> {
    /// The attribute that the word is: exactly an extended word that begins with `TF`, `TA`, `TO`
    /// or `TD` is one. It takes no memory.
    pub fn attribute(&self) -> Option<Attribute<'a>>
        ensures { option_map plain_attribute result ≡ attribute_of (entry_of self.now) }
    {
        if !self.extended {
            return None;
        }
        let kind = kind_of(self.text)?;
        Some(Attribute {
            kind,
            text: &self.text[2..],
        })
    }
}

impl<'a> Attribute<'a> {
    /// What the first two letters say. It takes no memory.
    pub fn kind(&self) -> AttributeKind
        ensures { result ≡ (plain_attribute self.now).kind }
    {
        self.kind
    }

    /// The part of number `n`, from 0, of the text behind the two letters, cut at commas; `None`
    /// exactly where there is no such part. Part 0 is the attribute's name with its point. A part
    /// may be empty. It takes no memory.
    pub fn field(&self, n: usize) -> Option<&'a [u8]>
        ensures { option_copied result ≡ field_of (plain_attribute self.now).text n }
    {
        self.text.split(|b| *b == b',').nth(n)
    }
}

/// Whether there is a field, and it is this word. It takes no memory.
pub fn is_field(field: Option<&[u8]>, word: &[u8]) -> bool
    ensures { result ≡ is_field_of (option_copied field.entry) word.now }
{
    match field {
        None => false,
        Some(text) => text == word,
    }
}

#[tactic(auto, unfolding(crate::specs::Attributes::attribute_kind))]
fn kind_of(text: &[u8]) -> Option<AttributeKind>
    ensures kind { result ≡ attribute_kind text.now }
    ensures letters { IfSome result (λ _. 2 ≤ length text.now) }
{
    if text.starts_with(b"TF".as_slice()) {
        Some(AttributeKind::File)
    } else if text.starts_with(b"TA".as_slice()) {
        Some(AttributeKind::Aperture)
    } else if text.starts_with(b"TO".as_slice()) {
        Some(AttributeKind::Object)
    } else if text.starts_with(b"TD".as_slice()) {
        Some(AttributeKind::Delete)
    } else {
        None
    }
}
