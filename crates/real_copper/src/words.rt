//! Reads a word as a command of real copper: with curves, quadrants and offsets (Gerber Layer Format Specification, 4.7 and 4.8).
ghost use Rattle.gerber_reading.specs.Command.{bending_of, view};
ghost use Rattle.gerber_reading.specs.Lawful.{IsLawfulCommand};
ghost use Rattle.gerber_words.specs.Stepping.{entry_of};
ghost use Rattle.real_copper.specs.Words as spec;
ghost use Rattle.std.specs.Option.{option_copied};
ghost use Rattle.std.specs.Prelude.{length, ◌≡◌, ◌≤◌};

use gerber_layer::{
    Offsets, behind_line_code, code_in, from_x, goes_on, is_number_if, macro_or, part, read_command,
};
use gerber_reading::{Bending, Command, Curve, GerberKind, Quadrants};
use gerber_words::Word;
use texts::{begins, is_word, run_len};

fn is_short(text: &[u8]) -> bool
    requires { 2 ≤ length text.now }
    ensures { result ≡ spec.is_short text.now }
{
    goes_on(&text[2..])
}

// The curve that a word sets, alone or with an operation.
fn curve_in(text: &[u8]) -> Option<Curve>
    ensures { result ≡ spec.curve_in text.now }
{
    if begins(text, b"G01") || begins(text, b"G1") {
        return Some(Curve::Line);
    }
    if begins(text, b"G02") || begins(text, b"G2") && is_short(text) {
        return Some(Curve::Clockwise);
    }
    if begins(text, b"G03") || begins(text, b"G3") && is_short(text) {
        return Some(Curve::Counterclockwise);
    }
    None
}

// What stands behind `G2` or `G3`: nothing, or an operation at once. Else the text itself, since a longer code begins it.
fn behind_short(text: &[u8]) -> &[u8]
    requires { 2 ≤ length text.now }
    ensures { result.now ≡ spec.behind_short text.now }
{
    if goes_on(&text[2..]) {
        &text[2..]
    } else {
        text
    }
}

// What stands behind the code of arcs or of lines that a word may begin with.
fn behind_code(text: &[u8]) -> &[u8]
    ensures { result.now ≡ spec.behind_code text.now }
{
    if begins(text, b"G02") || begins(text, b"G03") {
        &text[3..]
    } else if begins(text, b"G2") || begins(text, b"G3") {
        behind_short(text)
    } else {
        behind_line_code(text)
    }
}

fn begins_offset(text: &[u8]) -> bool
    ensures { result ≡ spec.begins_offset text.now }
{
    begins(text, b"I") || begins(text, b"J")
}

// What an operation says of an arc, by its text from the offsets on.
fn bending<'a>(curve: Option<Curve>, offsets: &'a [u8]) -> Bending<'a>
    ensures { bending_of result ≡ spec.bending curve offsets.now }
{
    let (i, rest) = part(offsets, b'I');
    let (j, rest) = part(rest, b'J');
    Bending {
        curve,
        i,
        j,
        more: begins_offset(rest),
    }
}

// An operation by its numbers and its text from the offsets on.
#[tactic(auto, unfolding(crate::specs::Words::past_numbers))]
fn past_numbers<'a>(
    curve: Option<Curve>,
    x: Option<&'a [u8]>,
    y: Option<&'a [u8]>,
    text: &'a [u8],
) -> Command<'a>
    ensures value { view result ≡ spec.past_numbers curve (option_copied x.entry) (option_copied y.entry) text.now }
    ensures lawful { IsLawfulCommand (view result) }
{
    if is_number_if(x) && is_number_if(y) {
        let len = run_len::<Offsets>(text);
        Command::Operate(x, y, code_in(&text[len..]), bending(curve, text))
    } else {
        Command::Refused(GerberKind::BadWord)
    }
}

// The command of a word that is refused as an arc where there are none, or of an operation, by its text from X on.
#[tactic(auto, unfolding(crate::specs::Words::operation))]
fn operation<'a>(curve: Option<Curve>, text: &'a [u8]) -> Command<'a>
    ensures value { view result ≡ spec.operation curve text.now }
    ensures lawful { IsLawfulCommand (view result) }
{
    match from_x(text) {
        Command::Refused(GerberKind::Arc) => {
            let (x, rest) = part(text, b'X');
            let (y, rest) = part(rest, b'Y');
            past_numbers(curve, x, y, rest)
        },
        Command::Operate(x, y, code, _) => Command::Operate(x, y, code, bending(curve, b"")),
        other => other,
    }
}

// The code of a curve alone, or before an operation.
#[tactic(auto, unfolding(crate::specs::Words::coded))]
fn coded(text: &[u8]) -> Command<'_>
    ensures value { view result ≡ spec.coded text.now }
    ensures lawful { IsLawfulCommand (view result) }
{
    let rest = behind_code(text);
    match curve_in(text) {
        Some(curve) => if rest.is_empty() {
            Command::Curve(curve)
        } else {
            operation(Some(curve), rest)
        },
        None => operation(None, rest),
    }
}

// A word that says nothing where there are no arcs.
#[tactic(auto, unfolding(crate::specs::Words::idle))]
fn idle(text: &[u8]) -> Command<'_>
    ensures value { view result ≡ spec.idle text.now }
    ensures lawful { IsLawfulCommand (view result) }
{
    if is_word(text, b"G74") {
        Command::Quadrants(Quadrants::Single)
    } else if is_word(text, b"G75") {
        Command::Quadrants(Quadrants::Multi)
    } else if is_word(text, b"G01") || is_word(text, b"G1") {
        Command::Curve(Curve::Line)
    } else {
        Command::Nothing
    }
}

// Whether a word is refused as an arc where there are none.
fn is_bent(command: &Command) -> bool
    ensures { result ≡ spec.is_bent (view command.now) }
{
    matches!(command, Command::Refused(GerberKind::Arc))
}

// A word that is this command also where there are no arcs.
#[tactic(auto, unfolding(crate::specs::Words::unbent))]
fn unbent<'a>(command: Command<'a>, text: &'a [u8]) -> Command<'a>
    requires { IsLawfulCommand (view command) }
    ensures value { view result ≡ spec.unbent (view command.entry) text.now }
    ensures lawful { IsLawfulCommand (view result) }
{
    match command {
        Command::Nothing => idle(text),
        Command::Operate(x, y, code, _) => Command::Operate(
            x,
            y,
            code,
            bending(curve_in(text), b""),
        ),
        other => other,
    }
}

// A word that is this command where there are no arcs.
#[tactic(auto, unfolding(crate::specs::Words::bent))]
fn bent<'a>(command: Command<'a>, text: &'a [u8]) -> Command<'a>
    requires { IsLawfulCommand (view command) }
    ensures value { view result ≡ spec.bent (view command.entry) text.now }
    ensures lawful { IsLawfulCommand (view result) }
{
    if is_bent(&command) {
        coded(text)
    } else {
        unbent(command, text)
    }
}

/// The command that a word is in real copper.
pub fn read_real_command<'a>(word: Word<'a>) -> Command<'a>
    ensures value { view result ≡ spec.real_command (entry_of word.entry) }
    ensures lawful { IsLawfulCommand (view result) }
{
    let command = read_command(word);
    let bent = if word.extended {
        command
    } else {
        bent(command, word.text)
    };
    macro_or(bent, word)
}
