//! What earlier lines have told that `check`'s dialect does not know.
ghost use Rattle.std.specs.Prelude.{◌≡◌, ◌||◌};
ghost use Rattle.drill_forms.specs.Meaning as spec;

use crate::form::{FormLine, Layout, Zeros};
use lengths::rows::NoMemory;
use std::alloc::Global;
use std::collections::HashMap;
use xnc::line::DrillLine;

/// What is in force before a line.
#[derive(Clone, Copy)]
pub struct Words {
    /// Whether the next tool is plated, as its own attribute says.
    pub own: Option<bool>,
    /// Whether tools are, as a type says for all that come.
    pub lasting: Option<bool>,
    /// Whether the file says of itself that some of its tools are plated and some are not; `None` where it says nothing.
    pub mixed: Option<bool>,
    /// Of some tool nothing was said.
    pub has_untold: bool,
    /// Some tool is not plated.
    pub has_bare: bool,
    pub zeros: Option<Zeros>,
    pub layout: Option<Layout>,
    /// Of zeros or layout two were said.
    pub two_ways: bool,
}

/// Whether the next tool is plated, if something says so.
pub fn told(words: Words) -> Option<bool>
    ensures { result ≡ spec.told words }
{
    match words.own {
        Some(plated) => Some(plated),
        None => words.lasting,
    }
}

/// Whether the next tool makes no barrels.
pub fn is_bare(words: Words) -> bool
    ensures { result ≡ spec.is_bare words }
{
    match told(words) {
        Some(plated) => !plated,
        None => false,
    }
}

fn or_zeros(zeros: Option<Zeros>, earlier: Option<Zeros>) -> Option<Zeros>
    ensures { result ≡ spec.option_or zeros earlier }
{
    match zeros {
        Some(_) => zeros,
        None => earlier,
    }
}

fn or_layout(layout: Option<Layout>, earlier: Option<Layout>) -> Option<Layout>
    ensures { result ≡ spec.option_or layout earlier }
{
    match layout {
        Some(_) => layout,
        None => earlier,
    }
}

fn same_zeros(a: Zeros, b: Zeros) -> bool
    ensures { result ≡ spec.same_zeros a b }
{
    match (a, b) {
        (Zeros::Leading, Zeros::Leading) => true,
        (Zeros::Trailing, Zeros::Trailing) => true,
        (Zeros::Leading, Zeros::Trailing) => false,
        (Zeros::Trailing, Zeros::Leading) => false,
    }
}

fn zeros_differ(zeros: Option<Zeros>, earlier: Option<Zeros>) -> bool
    ensures { result ≡ spec.zeros_differ zeros earlier }
{
    match (zeros, earlier) {
        (Some(a), Some(b)) => !same_zeros(a, b),
        _ => false,
    }
}

fn layouts_differ(layout: Option<Layout>, earlier: Option<Layout>) -> bool
    ensures { result ≡ spec.layouts_differ layout earlier }
{
    match (layout, earlier) {
        (Some(a), Some(b)) => !(a.whole == b.whole && a.places == b.places),
        _ => false,
    }
}

// Whether a line says zeros or layout otherwise than earlier ones.
fn differ(words: Words, zeros: Option<Zeros>, layout: Option<Layout>) -> bool
    ensures { result ≡ (spec.zeros_differ zeros words.zeros || spec.layouts_differ layout words.layout) }
{
    zeros_differ(zeros, words.zeros) || layouts_differ(layout, words.layout)
}

/// What is in force behind a line.
pub fn noted(words: Words, form: &FormLine) -> Words
    ensures { result ≡ spec.noted words form.now }
{
    match *form {
        FormLine::Says(DrillLine::Tool(_, _)) => Words {
            own: None,
            has_untold: told(words).is_none() || words.has_untold,
            has_bare: is_bare(words) || words.has_bare,
            ..words
        },
        FormLine::Units(_, zeros, layout) => Words {
            zeros: or_zeros(zeros, words.zeros),
            layout: or_layout(layout, words.layout),
            two_ways: differ(words, zeros, layout) || words.two_ways,
            ..words
        },
        FormLine::Counts(layout) => Words {
            layout: Some(layout),
            two_ways: layouts_differ(Some(layout), words.layout) || words.two_ways,
            ..words
        },
        FormLine::Lasting(plated) => Words {
            lasting: Some(plated),
            ..words
        },
        FormLine::Next(plated) => Words {
            own: Some(plated),
            ..words
        },
        FormLine::Untold => Words { own: None, ..words },
        FormLine::Function(mixed) => Words {
            mixed: Some(mixed),
            ..words
        },
        _ => words,
    }
}

/// The numbers of the tools that make no barrels.
#[derive(Drop)]
pub struct Bares {
    numbers: HashMap<u32, bool>,
}

impl Bares {
    ghost use Rattle.std.specs.Prelude.{◌==◌, ℕ, true, false, OnOk, if◌then◌else◌};
    ghost use Rattle.drill_forms.specs.Reader.{bare_in};

    /// None.
    pub fn new(alloc: Global) -> Bares
        ensures { (n : ℕ) → bare_in result n ≡ false }
    {
        Bares {
            numbers: HashMap::new(alloc),
        }
    }

    /// Whether the tool of a number is one.
    pub fn has(&self, n: u32) -> bool
        ensures { result ≡ bare_in self.now n }
    {
        self.numbers.get(&n).is_some()
    }

    /// One more. An `Err` leaves them of no more use.
    pub fn add(&mut self, n: u32) -> Result<(), NoMemory>
        ensures { OnOk result ((m : ℕ) → bare_in self.new m ≡ (if n == m then true else bare_in self.old m)) }
    {
        match self.numbers.insert(n, true) {
            Ok(_) => Ok(()),
            Err(_) => Err(NoMemory),
        }
    }
}
