//! How an aperture's definition is read in real copper.
ghost use Rattle.apertures.specs.Flash.{IsNarrow};
ghost use Rattle.planar.specs.Plane.{IsReached};
ghost use Rattle.real_copper.specs.Apertures as spec;
ghost use Rattle.real_copper.specs.Apertures.{AreSizes, IsLawful, IsSize};
ghost use Rattle.std.specs.Prelude.{codes, false, IfOk, IfSome, IsTrue, ◌≡◌, ◌≤◌};

use crate::aperture::{Hole, OddForm, RealAperture};
use apertures::{ApertureFault, last_behind, name_text, number, read_aperture};
use contact::MOST_DIAMETER;
use lengths::decimal::{Unit, read_decimal};
use texts::{after_byte, before_byte, is_word};

// The whole number of u that a parameter is.
#[tactic(auto, unfolding(crate::specs::Apertures::whole_at))]
fn whole(text: &[u8], unit: Unit) -> Result<i64, ApertureFault>
    ensures value { result ≡ spec.whole_at text.now unit }
    ensures reached { IfOk result IsReached }
{
    let Some(decimal) = read_decimal(text) else {
        return Err(ApertureFault::BadText);
    };
    match decimal.position(unit) {
        Ok(len) => Ok(len.u()),
        Err(fault) => Err(fault.choose(ApertureFault::OffGrid, ApertureFault::OutOfRange)),
    }
}

// A size over 0 and at most 1 m, even or odd.
#[tactic(auto, unfolding(crate::specs::Apertures::size_at))]
fn size(text: &[u8], unit: Unit) -> Result<u64, ApertureFault>
    ensures value { result ≡ spec.size_at text.now unit }
    ensures size { IfOk result IsSize }
{
    let u = whole(text, unit)?;
    if 0 < u {
        Ok(u.unsigned_abs())
    } else {
        Err(ApertureFault::OutOfRange)
    }
}

// Two sizes.
#[derive(Clone, Copy)]
struct TwoSizes {
    x: u64,
    y: u64,
}

// Two sizes with an `X` between them.
#[tactic(auto, unfolding(crate::specs::Apertures::sizes_at))]
fn sizes(text: &[u8], unit: Unit) -> Result<TwoSizes, ApertureFault>
    ensures value { result ≡ spec.sizes_at text.now unit }
    ensures x { IfOk result (λ s. IsSize s.x) }
    ensures y { IfOk result (λ s. IsSize s.y) }
{
    let x = size(before_byte(text, b'X'), unit)?;
    let y = size(after_byte(text, b'X'), unit)?;
    Ok(TwoSizes { x, y })
}

// Whether what is round is wider than a draw may be.
fn is_wide(form: OddForm) -> bool
    ensures { result ≡ spec.is_wide form }
{
    match form {
        OddForm::Circle(d) => d > MOST_DIAMETER,
        OddForm::Rectangle(_, _) => false,
        OddForm::Obround(x, y) => x.min(y) > MOST_DIAMETER,
    }
}

// Whether a hole is less than both sizes.
fn is_held(form: OddForm, hole: u64) -> bool
    ensures { result ≡ spec.is_held form hole }
{
    match form {
        OddForm::Circle(d) => hole < d,
        OddForm::Rectangle(x, y) => hole < x && hole < y,
        OddForm::Obround(x, y) => hole < x && hole < y,
    }
}

fn narrow(form: OddForm) -> Result<OddForm, ApertureFault>
    requires sizes { AreSizes form }
    ensures value { result ≡ spec.narrow form }
    ensures sizes { IfOk result AreSizes }
    ensures narrow { IfOk result (λ f. spec.is_wide f ≡ false) }
{
    if is_wide(form) {
        Err(ApertureFault::OutOfRange)
    } else {
        Ok(form)
    }
}

// Whether the name of an `AD` word is `C`.
fn is_circle(word: &[u8]) -> bool
    ensures { result ≡ spec.is_named (codes "C") word.now }
{
    is_word(before_byte(name_text(word), b','), b"C")
}

// What has two sizes.
#[derive(Clone, Copy)]
enum TwoSided {
    Rectangle,
    Obround,
}

// Which of both an `AD` word with two sizes names.
fn sided_in(word: &[u8]) -> TwoSided
    ensures { result ≡ spec.sided_in word.now }
{
    if is_word(before_byte(name_text(word), b','), b"R") {
        TwoSided::Rectangle
    } else {
        TwoSided::Obround
    }
}

fn parameters(word: &[u8]) -> &[u8]
    ensures { result.now ≡ spec.parameters word.now }
{
    after_byte(name_text(word), b',')
}

// One of an odd size.
#[tactic(auto, unfolding(crate::specs::Apertures::odd_by))]
fn odd(word: &[u8], text: &[u8], unit: Unit) -> Result<OddForm, ApertureFault>
    ensures value { result ≡ spec.odd_by word.now text.now unit }
    ensures sizes { IfOk result AreSizes }
    ensures narrow { IfOk result (λ f. spec.is_wide f ≡ false) }
{
    if is_circle(word) {
        return narrow(OddForm::Circle(size(text, unit)?));
    }
    let sizes = sizes(text, unit)?;
    narrow(sided(sided_in(word), sizes.x, sizes.y))
}

fn sided(kind: TwoSided, x: u64, y: u64) -> OddForm
    requires x { IsSize x }
    requires y { IsSize y }
    ensures value { result ≡ spec.sided kind x y }
    ensures sizes { AreSizes result }
{
    match kind {
        TwoSided::Rectangle => OddForm::Rectangle(x, y),
        TwoSided::Obround => OddForm::Obround(x, y),
    }
}

fn is_even(n: u64) -> bool
    ensures { result ≡ spec.is_even n }
{
    n % 2 == 0
}

fn is_ring(d: u64, hole: u64) -> bool
    requires d { IsSize d }
    requires hole { hole ≤ MOST_DIAMETER }
    ensures { result ≡ spec.is_ring d hole }
{
    is_even(d) && is_even(hole) && (d + hole) % 4 == 0
}

// The form with a hole, which is less than both sizes.
fn pierced(form: OddForm, hole: u64) -> RealAperture
    requires sizes { AreSizes form }
    requires narrow { spec.is_wide form ≡ false }
    requires hole { hole ≤ MOST_DIAMETER }
    requires held { IsTrue (spec.is_held form hole) }
    ensures value { result ≡ spec.pierced form hole }
    ensures lawful { IsLawful result }
{
    let diameter = hole;
    match form {
        OddForm::Circle(d) => if is_ring(d, hole) {
            RealAperture::Ring(d, Hole { diameter })
        } else {
            RealAperture::Pierced(form, Hole { diameter })
        },
        OddForm::Rectangle(x, y) => if is_even(x) && is_even(y) && is_even(hole) {
            RealAperture::Frame(x, y, Hole { diameter })
        } else {
            RealAperture::Pierced(form, Hole { diameter })
        },
        OddForm::Obround(_, _) => RealAperture::Pierced(form, Hole { diameter }),
    }
}

fn with_hole(form: OddForm, hole: u64) -> Result<RealAperture, ApertureFault>
    requires sizes { AreSizes form }
    ensures value { result ≡ spec.with_hole form hole }
    ensures lawful { IfOk result IsLawful }
{
    if is_wide(form) {
        return Err(ApertureFault::OutOfRange);
    }
    if hole > MOST_DIAMETER {
        return Err(ApertureFault::OutOfRange);
    }
    if is_held(form, hole) {
        Ok(pierced(form, hole))
    } else {
        Err(ApertureFault::Hole)
    }
}

// A circle with a hole.
#[tactic(auto, unfolding(crate::specs::Apertures::holed_circle_at))]
fn holed_circle(text: &[u8], unit: Unit) -> Result<RealAperture, ApertureFault>
    ensures value { result ≡ spec.holed_circle_at text.now unit }
    ensures lawful { IfOk result IsLawful }
{
    last_behind(text, b'X')?;
    let sizes = sizes(text, unit)?;
    with_hole(OddForm::Circle(sizes.x), sizes.y)
}

// A rectangle or an obround with a hole.
#[tactic(auto, unfolding(crate::specs::Apertures::holed_sided_at))]
fn holed_sided(kind: TwoSided, text: &[u8], unit: Unit) -> Result<RealAperture, ApertureFault>
    ensures value { result ≡ spec.holed_sided_at kind text.now unit }
    ensures lawful { IfOk result IsLawful }
{
    let rest = after_byte(text, b'X');
    last_behind(rest, b'X')?;
    let x = size(before_byte(text, b'X'), unit)?;
    holed_sided_behind(kind, x, rest, unit)
}

// The same by its first size, and what stands behind that.
#[tactic(auto, unfolding(crate::specs::Apertures::holed_sided_behind))]
fn holed_sided_behind(
    kind: TwoSided,
    x: u64,
    text: &[u8],
    unit: Unit,
) -> Result<RealAperture, ApertureFault>
    requires x { IsSize x }
    ensures value { result ≡ spec.holed_sided_behind kind x text.now unit }
    ensures lawful { IfOk result IsLawful }
{
    let sizes = sizes(text, unit)?;
    with_hole(sided(kind, x, sizes.x), sizes.y)
}

#[tactic(auto, unfolding(crate::specs::Apertures::holed_by))]
fn holed(word: &[u8], text: &[u8], unit: Unit) -> Result<RealAperture, ApertureFault>
    ensures value { result ≡ spec.holed_by word.now text.now unit }
    ensures lawful { IfOk result IsLawful }
{
    if is_circle(word) {
        holed_circle(text, unit)
    } else {
        holed_sided(sided_in(word), text, unit)
    }
}

/// Reads an `AD` word of real copper: as `read_aperture`, but circles, rectangles and obrounds may have a round hole as last parameter
/// (Gerber Layer Format Specification, 4.4.2 to 4.4.4 and 4.4.6), and sizes may be odd. It takes no memory.
///
/// Where `read_aperture` says `Hole` or `OffGrid`, a further parameter is `Hole`, and each size is judged anew in turn: `BadText`;
/// `OffGrid` for no whole number of u; `OutOfRange` unless over 0 and at most 1 m. Then comes `OutOfRange` for a hole, or the lesser
/// size of what is round, over 50 mm, and `Hole` unless the hole is less than both sizes.
pub fn read_real_aperture(word: &[u8], unit: Unit) -> Result<(u32, RealAperture), ApertureFault>
    ensures value { result ≡ spec.real_aperture_at word.now unit }
    ensures lawful { IfOk result (λ read. IsLawful read.1) }
{
    match read_aperture(word, unit) {
        Ok((n, aperture)) => Ok((n, RealAperture::Exact(aperture))),
        Err(ApertureFault::Hole) => Ok((number(word), holed(word, parameters(word), unit)?)),
        Err(ApertureFault::OffGrid) => {
            let form = odd(word, parameters(word), unit)?;
            Ok((number(word), RealAperture::Odd(form)))
        },
        Err(fault) => Err(fault),
    }
}

impl OddForm {
    fn pen(self) -> Option<u64>
        ensures value { result ≡ spec.odd_pen self }
        ensures narrow { spec.is_wide self ≡ false → IfSome result IsNarrow }
    {
        match self {
            OddForm::Circle(d) => Some(d),
            OddForm::Rectangle(_, _) => None,
            OddForm::Obround(_, _) => None,
        }
    }
}

impl RealAperture {
    /// The diameter of the pen that it is: a circle without a hole alone draws.
    pub fn pen(&self) -> Option<u64>
        requires lawful { IsLawful self.now }
        ensures value { result ≡ spec.pen_of self.now }
        ensures narrow { IfSome result IsNarrow }
    {
        match *self {
            RealAperture::Exact(aperture) => match aperture.pen() {
                Some(pen) => Some(pen.unsigned_abs()),
                None => None,
            },
            RealAperture::Odd(form) => form.pen(),
            _ => None,
        }
    }
}
