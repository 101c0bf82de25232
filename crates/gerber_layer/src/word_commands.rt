//! How a command is read from a word.
ghost use Rattle.std.specs.Prelude.{true, ◌≡◌, ◌≤◌, ◌&&◌, nat_le, nat_lt, length, take, drop, option_map, IfSome};
ghost use Rattle.std.specs.List.{before_first, list_all, slice_split};
ghost use Rattle.std.specs.Option.{option_copied};
ghost use Rattle.lengths.specs.Decimal.{decimal, unsigned as unsigned_text};
ghost use Rattle.gerber_reading.specs.Command.{operates, view};
ghost use Rattle.gerber_reading.specs.Lawful.{IsLawfulCommand, IsWhole};
ghost use Rattle.gerber_layer.specs.MacroCommands.{command_with_macros, macro_or};
ghost use Rattle.gerber_layer.specs.WordCommands as spec;
ghost use Rattle.gerber_words.specs.Attributes.{plain_attribute};
ghost use Rattle.gerber_words.specs.Stepping.{entry_of};

use gerber_reading::{Bending, Code, Command, Format, GerberKind};
use gerber_words::{Attribute, AttributeKind, Word, is_field};
use lengths::decimal::{Unit, read_decimal, small_value, unsigned};
use texts::{ByteClass, all_digits, begins, digits_len, is_digit, is_word, run_len};

/// The code that ends an operation: `D01`, `D02` or `D03`, or each without its 0. None for any other text.
#[tactic(auto, unfolding(crate::specs::WordCommands::code_in))]
pub fn code_in(text: &[u8]) -> Option<Code>
    ensures { result ≡ spec.code_in text.now }
{
    match text {
        [b'D', b'0', b'1'] | [b'D', b'1'] => Some(Code::Draw),
        [b'D', b'0', b'2'] | [b'D', b'2'] => Some(Code::Move),
        [b'D', b'0', b'3'] | [b'D', b'3'] => Some(Code::Flash),
        _ => None,
    }
}

fn is_idle(text: &[u8]) -> bool
    ensures { result ≡ spec.is_idle text.now }
{
    if text.is_empty() || begins(text, b"G04") || is_word(text, b"G01") {
        return true;
    }
    is_word(text, b"G1") || is_word(text, b"G74") || is_word(text, b"G75") || is_word(text, b"G90")
}

/// What stands behind the code of lines, `G01` or `G1`, that a word may begin with, or else the text itself.
pub fn behind_line_code(text: &[u8]) -> &[u8]
    ensures { result.now ≡ spec.behind_line_code text.now }
{
    if begins(text, b"G01") {
        &text[3..]
    } else if begins(text, b"G1") {
        &text[2..]
    } else {
        text
    }
}

/// Digits and signs.
struct Numeric;

impl ByteClass for Numeric {
    ghost member = { spec.is_numeric };

    fn has(byte: u8) -> bool {
        byte == b'+' || byte == b'-' || is_digit(byte)
    }
}

/// The bytes of an arc's offsets.
pub struct Offsets;

impl ByteClass for Offsets {
    ghost member = { spec.is_offset_byte };

    fn has(byte: u8) -> bool {
        is_offset_letter(byte) || Numeric::has(byte)
    }
}

// Whether so many digits are as many as a number has.
fn are_few(digits: usize) -> bool
    ensures { result ≡ (nat_le 1 digits && nat_le digits 13) }
{
    digits >= 1 && digits <= 13
}

// What stands behind so many bytes.
fn behind(text: &[u8], len: usize) -> &[u8]
    requires { len ≤ length text.now }
    ensures { result.now ≡ drop len text.now }
{
    &text[len..]
}

fn is_signed(text: &[u8]) -> bool
    ensures { result ≡ nat_lt (length (unsigned_text text.now)) (length text.now) }
{
    unsigned(text).len() < text.len()
}

// How many digits and signs stand in front, and whether they are a number. Each byte is looked at once, unless a sign stands
// behind a digit.
#[inline(always)]
fn number_front(text: &[u8]) -> (usize, bool)
    ensures len { result.0 ≡ spec.number_len text.now }
    ensures within { result.0 ≤ length text.now }
    ensures number { result.1 ≡ spec.is_number (take result.0 text.now) }
{
    let body = unsigned(text);
    let digits = digits_len(body);
    if is_signed(behind(body, digits)) {
        return mixed_front(text);
    }
    (text.len() - body.len() + digits, are_few(digits))
}

// The same where signs stand anywhere.
#[inline(never)]
fn mixed_front(text: &[u8]) -> (usize, bool)
    ensures len { result.0 ≡ spec.number_len text.now }
    ensures within { result.0 ≤ length text.now }
    ensures number { result.1 ≡ spec.is_number (take result.0 text.now) }
{
    let len = run_len::<Numeric>(text);
    (len, is_number(&text[..len]))
}

// The number behind a letter, if the text begins with it; whether it is one; and what stands behind. It is inlined, so that these
// are not stored to be read again.
#[inline(always)]
fn judged_part(text: &[u8], letter: u8) -> (Option<&[u8]>, bool, &[u8])
    ensures number { option_copied result.0 ≡ spec.number_in letter text.now }
    ensures good { result.1 ≡ spec.is_number_if (spec.number_in letter text.now) }
    ensures behind { result.2.now ≡ spec.behind letter text.now }
{
    match text {
        [] => (None, true, text),
        [c, rest @ ..] => if *c == letter {
            let (len, is_number) = number_front(rest);
            (Some(&rest[..len]), is_number, &rest[len..])
        } else {
            (None, true, text)
        },
    }
}

/// The number behind a letter, if the text begins with it, and what stands behind.
pub fn part(text: &[u8], letter: u8) -> (Option<&[u8]>, &[u8])
    ensures number { option_copied result.0 ≡ spec.number_in letter text.now }
    ensures behind { result.1.now ≡ spec.behind letter text.now }
{
    let (number, _, rest) = judged_part(text, letter);
    (number, rest)
}

/// The command that a word is where the file has no macros. It is inlined into the loop over words.
#[inline(always)]
#[tactic(auto, unfolding(crate::specs::WordCommands::command_of))]
pub fn read_command<'a>(word: Word<'a>) -> Command<'a>
    ensures value { view result ≡ spec.command_of (entry_of word.entry) }
    ensures lawful { IsLawfulCommand (view result) }
{
    if word.extended {
        extended_word(word)
    } else {
        plain(word.text)
    }
}

// The command that an extended word is. It is a call, since few words are one.
#[inline(never)]
#[tactic(auto, unfolding(crate::specs::WordCommands::command_of))]
fn extended_word<'a>(word: Word<'a>) -> Command<'a>
    requires { word.extended ≡ true }
    ensures value { view result ≡ spec.command_of (entry_of word.entry) }
    ensures lawful { IsLawfulCommand (view result) }
{
    match said_by(word.attribute()) {
        Some(command) => command,
        None => extended(word.text),
    }
}

/// The command that a word is where the file may have macros.
pub fn read_macro_command<'a>(word: Word<'a>) -> Command<'a>
    ensures value { view result ≡ command_with_macros (entry_of word.entry) }
    ensures lawful { IsLawfulCommand (view result) }
{
    macro_or(read_command(word), word)
}

/// The command of a macro that a word is, or the other.
#[tactic(auto, unfolding(crate::specs::MacroCommands::macro_or))]
pub fn macro_or<'a>(other: Command<'a>, word: Word<'a>) -> Command<'a>
    requires { IsLawfulCommand (view other) }
    ensures value { view result ≡ macro_or (view other.entry) (entry_of word.entry) }
    ensures lawful { IsLawfulCommand (view result) }
{
    if word.body {
        return Command::Body(word.text);
    }
    if word.extended && begins(word.text, b"AM") {
        return Command::Macro(&word.text[2..]);
    }
    other
}

// What an attribute says of the layer, if it says something.
fn said_by<'a>(attribute: Option<Attribute<'a>>) -> Option<Command<'a>>
    ensures value { option_map view result ≡ spec.said_by (option_map plain_attribute attribute.entry) }
    ensures lawful { IfSome result (λ c. IsLawfulCommand (view c)) }
{
    let attribute = attribute?;
    match attribute.kind() {
        AttributeKind::File => named(attribute),
        _ => None,
    }
}

#[tactic(auto, unfolding(crate::specs::WordCommands::named))]
fn named<'a>(attribute: Attribute<'a>) -> Option<Command<'a>>
    ensures value { option_map view result ≡ spec.named (plain_attribute attribute.entry).text }
    ensures lawful { IfSome result (λ c. IsLawfulCommand (view c)) }
{
    let name = attribute.field(0);
    if is_field(name, b".FileFunction") {
        return Some(Command::Function(attribute.field(1), attribute.field(2)));
    }
    if !is_field(name, b".FilePolarity") {
        return None;
    }
    if is_field(attribute.field(1), b"Negative") {
        Some(Command::Refused(GerberKind::NegativeFile))
    } else {
        Some(Command::Nothing)
    }
}

#[tactic(auto, unfolding(crate::specs::WordCommands::extended))]
fn extended(text: &[u8]) -> Command<'_>
    ensures value { view result ≡ spec.extended text.now }
    ensures lawful { IsLawfulCommand (view result) }
{
    if begins(text, b"FS") {
        return format_word(text);
    }
    if begins(text, b"AD") {
        return Command::Define(text);
    }
    if is_word(text, b"MOMM") {
        return Command::Unit(Unit::Mm);
    }
    if is_word(text, b"MOIN") {
        return Command::Unit(Unit::Inch);
    }
    if begins(text, b"SR") {
        return Command::Repeat(text);
    }
    if is_neutral(text) {
        return Command::Nothing;
    }
    Command::Refused(kind_of(text))
}

#[tactic(auto, unfolding(crate::specs::WordCommands::format_word))]
fn format_word(text: &[u8]) -> Command<'_>
    ensures value { view result ≡ spec.format_word text.now }
    ensures lawful { IsLawfulCommand (view result) }
{
    if begins(text, b"FSLI") || begins(text, b"FSTI") {
        return Command::Refused(GerberKind::Incremental);
    }
    if begins(text, b"FSLAX") {
        return format_of(&text[5..]);
    }
    Command::Refused(GerberKind::BadFormat)
}

#[tactic(auto, unfolding(crate::specs::WordCommands::format_of))]
fn format_of(text: &[u8]) -> Command<'_>
    ensures value { view result ≡ spec.format_of text.now }
    ensures lawful { IsLawfulCommand (view result) }
{
    match text {
        [i, d, y, j, e] => digits_format(*i, *d, *y == b'Y' && (*i == *j && *d == *e)),
        _ => Command::Refused(GerberKind::BadFormat),
    }
}

fn digits_format<'a>(i: u8, d: u8, alike: bool) -> Command<'a>
    ensures value { view result ≡ spec.digits_format i d alike }
    ensures lawful { IsLawfulCommand (view result) }
{
    if !alike {
        return Command::Refused(GerberKind::BadFormat);
    }
    if i < b'1' || i > b'6' || d < b'2' || d > b'7' {
        return Command::Refused(GerberKind::BadFormat);
    }
    Command::Format(Format {
        integers: i - b'0',
        decimals: d - b'0',
    })
}

#[tactic(auto, unfolding(crate::specs::WordCommands::kind_of))]
fn kind_of(text: &[u8]) -> GerberKind
    ensures { result ≡ spec.kind_of text.now }
{
    if begins(text, b"AM") {
        GerberKind::Macro
    } else if begins(text, b"AB") {
        GerberKind::Block
    } else if is_word(text, b"LPC") {
        GerberKind::ClearPolarity
    } else if is_word(text, b"IPNEG") {
        GerberKind::NegativeFile
    } else if is_transform_or_offset(text) || is_image_transform(text) {
        GerberKind::Transform
    } else {
        GerberKind::BadWord
    }
}

fn is_transform_or_offset(text: &[u8]) -> bool
    ensures { result ≡ spec.is_transform_or_offset text.now }
{
    begins(text, b"LM") || begins(text, b"LR") || begins(text, b"LS") || begins(text, b"OF")
}

fn is_image_transform(text: &[u8]) -> bool
    ensures { result ≡ spec.is_image_transform text.now }
{
    begins(text, b"AS") || begins(text, b"MI") || begins(text, b"SF") || begins(text, b"IR")
}

fn is_neutral_image(text: &[u8]) -> bool
    ensures { result ≡ spec.is_neutral_image text.now }
{
    is_word(text, b"IPPOS")
        || is_word(text, b"OFA0B0")
        || is_word(text, b"ASAXBY")
        || is_word(text, b"MIA0B0")
}

fn is_neutral_scale_or_rotation(text: &[u8]) -> bool
    ensures { result ≡ spec.is_neutral_scale_or_rotation text.now }
{
    is_word(text, b"SFA1B1") || is_word(text, b"SFA1.0B1.0") || is_word(text, b"IR0")
}

fn is_name(text: &[u8]) -> bool
    ensures { result ≡ spec.is_name text.now }
{
    begins(text, b"IN") || begins(text, b"LN")
}

fn is_attribute(text: &[u8]) -> bool
    ensures { result ≡ spec.is_attribute text.now }
{
    begins(text, b"TF") || begins(text, b"TA") || begins(text, b"TO") || begins(text, b"TD")
}

fn is_decimal_of(text: &[u8], number: u32) -> bool
    ensures { result ≡ spec.is_value (decimal text.now) number }
{
    match read_decimal(text) {
        None => false,
        Some(d) => d.equals(number),
    }
}

fn is_unturned(text: &[u8]) -> bool
    ensures { result ≡ spec.is_unturned text.now }
{
    begins(text, b"LR") && is_decimal_of(&text[2..], 0)
}

fn is_unscaled(text: &[u8]) -> bool
    ensures { result ≡ spec.is_unscaled text.now }
{
    begins(text, b"LS") && is_decimal_of(&text[2..], 1)
}

fn is_neutral_load(text: &[u8]) -> bool
    ensures { result ≡ spec.is_neutral_load text.now }
{
    is_word(text, b"LPD") || is_word(text, b"LMN") || is_unturned(text) || is_unscaled(text)
}

fn is_neutral(text: &[u8]) -> bool
    ensures { result ≡ spec.is_neutral text.now }
{
    is_neutral_load(text)
        || is_neutral_image(text)
        || is_neutral_scale_or_rotation(text)
        || is_name(text)
        || is_attribute(text)
}

// Most words are coordinates or a selection, which their first letter tells. What reads these is inlined, so that a command is made where
// it is obeyed; what reads others is called.
#[inline(always)]
#[tactic(auto, unfolding(crate::specs::WordCommands::plain, crate::specs::WordCommands::coded, crate::specs::WordCommands::operation))]
fn plain(text: &[u8]) -> Command<'_>
    ensures value { view result ≡ spec.plain text.now }
    ensures lawful { IsLawfulCommand (view result) }
{
    match text {
        [b'X' | b'Y', ..] => from_x(text),
        [b'D', ..] => coded(text),
        _ => general(text),
    }
}

#[inline(never)]
#[tactic(auto, unfolding(crate::specs::WordCommands::plain))]
fn general(text: &[u8]) -> Command<'_>
    ensures value { view result ≡ spec.plain text.now }
    ensures lawful { IsLawfulCommand (view result) }
{
    if is_idle(text) {
        return Command::Nothing;
    }
    if is_arc(text) {
        return Command::Refused(GerberKind::Arc);
    }
    if is_word(text, b"G91") {
        return Command::Refused(GerberKind::Incremental);
    }
    if is_word(text, b"G70") {
        return Command::Unit(Unit::Inch);
    }
    if is_word(text, b"G71") {
        return Command::Unit(Unit::Mm);
    }
    if is_word(text, b"G36") {
        return Command::OpenRegion;
    }
    if is_word(text, b"G37") {
        return Command::CloseRegion;
    }
    if is_last(text) {
        return Command::End;
    }
    coded(text)
}

fn is_last(text: &[u8]) -> bool
    ensures { result ≡ spec.is_last text.now }
{
    is_word(text, b"M02") || is_word(text, b"M2")
}

fn is_arc(text: &[u8]) -> bool
    ensures { result ≡ spec.is_arc text.now }
{
    if begins(text, b"G02") || begins(text, b"G03") {
        return true;
    }
    if begins(text, b"G2") {
        return goes_on(&text[2..]);
    }
    begins(text, b"G3") && goes_on(&text[2..])
}

/// Whether the text is empty or begins with a letter of an operation.
pub fn goes_on(text: &[u8]) -> bool
    ensures { result ≡ spec.goes_on text.now }
{
    matches!(text, [] | [b'X' | b'Y' | b'I' | b'J' | b'D', ..])
}

#[inline(always)]
#[tactic(auto, unfolding(crate::specs::WordCommands::coded))]
fn coded(text: &[u8]) -> Command<'_>
    ensures value { view result ≡ spec.coded text.now }
    ensures lawful { IsLawfulCommand (view result) }
{
    match selected(selection(text)) {
        Some(n) => Command::Select(n),
        None => operation(text),
    }
}

fn selection(text: &[u8]) -> &[u8]
    ensures { result.now ≡ spec.selection text.now }
{
    if begins(text, b"G54D") {
        return &text[4..];
    }
    match text {
        [b'D', digits @ ..] => digits,
        _ => &[],
    }
}

// The number that a selection's digits spell.
#[inline(always)]
fn selected(digits: &[u8]) -> Option<u32>
    ensures { result ≡ spec.selected digits.now }
{
    if digits.len() < 2 || digits.len() > 9 {
        return None;
    }
    if !all_digits(digits) {
        return None;
    }
    let n = small_value(digits);
    if n < 10 {
        return None;
    }
    Some(n)
}

#[inline(never)]
#[tactic(auto, unfolding(crate::specs::WordCommands::operation))]
fn operation(text: &[u8]) -> Command<'_>
    ensures value { view result ≡ spec.operation text.now }
    ensures lawful { IsLawfulCommand (view result) }
{
    from_x(behind_line_code(text))
}

/// An operation word by its text from X on: some of X, Y, offsets and a code, in this order. Refused as an arc where it has offsets,
/// and as a bad word where it is no operation.
#[inline(always)]
#[tactic(auto, unfolding(crate::specs::WordCommands::from_x))]
pub fn from_x(text: &[u8]) -> Command<'_>
    ensures value { view result ≡ spec.from_x text.now }
    ensures lawful { IsLawfulCommand (view result) }
{
    let (x, x_good, rest) = judged_part(text, b'X');
    let (y, y_good, rest) = judged_part(rest, b'Y');
    from_i(x, y, x_good && y_good, rest)
}

fn is_offset_letter(b: u8) -> bool
    ensures { result ≡ spec.is_offset_letter b }
{
    b == b'I' || b == b'J'
}

fn are_offsets(text: &[u8]) -> bool
    ensures { result ≡ spec.are_offsets text.now }
{
    match text {
        [] => true,
        [c, rest @ ..] => is_offset_letter(*c) && are_numbers(rest),
    }
}

// Whether there are numbers between the letters.
fn are_numbers(text: &[u8]) -> bool
    ensures { result ≡ list_all spec.is_number (slice_split spec.is_offset_letter text.now) }
{
    text.split(|b| is_offset_letter(*b))
        .all(|digits| is_number(digits))
}

// The numbers are good where both are numbers.
#[inline(always)]
#[tactic(auto, unfolding(crate::specs::WordCommands::from_i))]
fn from_i<'a>(x: Option<&'a [u8]>, y: Option<&'a [u8]>, good: bool, text: &'a [u8]) -> Command<'a>
    requires good { good ≡ (spec.is_number_if (option_copied x) && spec.is_number_if (option_copied y)) }
    ensures value { view result ≡ spec.from_i (option_copied x.entry) (option_copied y.entry) text.now }
    ensures lawful { IsLawfulCommand (view result) }
{
    let len = run_len::<Offsets>(text);
    operation_of(x, y, good, &text[..len], &text[len..])
}

// An operation by its parts, where behind them stands a text.
#[inline(always)]
#[tactic(auto, unfolding(crate::specs::WordCommands::operation_of))]
fn operation_of<'a>(
    x: Option<&'a [u8]>,
    y: Option<&'a [u8]>,
    good: bool,
    offsets: &[u8],
    text: &[u8],
) -> Command<'a>
    requires good { good ≡ (spec.is_number_if (option_copied x) && spec.is_number_if (option_copied y)) }
    ensures value { view result ≡ spec.operation_of (option_copied x.entry) (option_copied y.entry) offsets.now text.now }
    ensures lawful { IsLawfulCommand (view result) }
{
    if !good {
        return Command::Refused(GerberKind::BadWord);
    }
    if !are_offsets(offsets) {
        return Command::Refused(GerberKind::BadWord);
    }
    let code = code_in(text);
    if !text.is_empty() && code.is_none() {
        return Command::Refused(GerberKind::BadWord);
    }
    if text.is_empty() && x.is_none() && y.is_none() {
        return Command::Refused(GerberKind::BadWord);
    }
    if !offsets.is_empty() {
        return Command::Refused(GerberKind::Arc);
    }
    Command::Operate(x, y, code, Bending::none())
}

/// Whether there is no number in digits, or one.
pub fn is_number_if(digits: Option<&[u8]>) -> bool
    ensures { result ≡ spec.is_number_if (option_copied digits.entry) }
{
    match digits {
        None => true,
        Some(digits) => is_number(digits),
    }
}

fn is_number(digits: &[u8]) -> bool
    ensures { result ≡ spec.is_number digits.now }
{
    let body = unsigned(digits);
    !body.is_empty() && body.len() <= 13 && all_digits(body)
}
