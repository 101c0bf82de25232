//! Circles, vector lines and centre lines of real copper with a size that is an odd number of u.
ghost use Rattle.std.specs.Prelude.{◌≡◌, ◌≤◌, pos, IfOk};
ghost use Rattle.planar.specs.Plane.{IsPlaced, IsReachable};
ghost use Rattle.planar.specs.declared.TheConstants.{METRE};
ghost use Rattle.contact.specs.declared.TheConstants.{MOST_DIAMETER};
ghost use Rattle.aperture_macros.specs.Fine as spec;
ghost use Rattle.aperture_macros.specs.Flashes as flashes;
ghost use Rattle.aperture_macros.specs.Fine.{IsNearFine};
ghost use Rattle.aperture_macros.specs.Images.{right_of as right_of_spot};

use crate::body_word::{part, past};
use crate::fault::MacroFault;
use crate::primitive::Form;
use crate::values::{extent, point};
use contact::MOST_DIAMETER;
use lengths::decimal::{Decimal, Unit};
use planar::{Spot, is_same};

/// What a fine primitive flashes.
#[derive(Clone, Copy, Debug, PartialEq, Eq)]
pub enum FineKind {
    Disc,
    Rectangle,
    Line,
}

/// A fine figure about the origin, by spots in u: a disc by its middle (`start`) and the spot as far to the right of it as it
/// is wide (`end`); a rectangle by its middle and the spots as far to the right of it and above it (`side`) as it is wide and
/// high; a line by its ends, and the spot as far to the right of its start as it is wide.
#[derive(Clone, Copy)]
pub struct FineSketch {
    pub kind: FineKind,
    pub start: Spot,
    pub end: Spot,
    pub side: Spot,
}

fn way(n: u64) -> i64
    requires { n ≤ METRE }
    ensures { result ≡ pos n }
{
    n as i64
}

fn right_of(p: Spot, far: u64) -> Spot
    requires placed { IsPlaced p }
    requires small { far ≤ METRE }
    ensures value { result ≡ right_of_spot p far }
    ensures reachable { IsReachable result }
{
    Spot {
        x: p.x + way(far),
        y: p.y,
    }
}

fn above(p: Spot, far: u64) -> Spot
    requires placed { IsPlaced p }
    requires small { far ≤ METRE }
    ensures value { result ≡ spec.above p far }
    ensures reachable { IsReachable result }
{
    Spot {
        x: p.x,
        y: p.y + way(far),
    }
}

// A diameter, or the width of a vector line.
#[tactic(auto, unfolding(crate::specs::Fine::breadth_at))]
fn breadth(text: &[u8], parameters: &[Decimal], unit: Unit) -> Result<u64, MacroFault>
    ensures value { result ≡ spec.breadth_at text.now parameters.now unit }
    ensures small { IfOk result (λ n. n ≤ MOST_DIAMETER) }
{
    let n = extent(text, parameters, unit)?;
    if n > MOST_DIAMETER {
        return Err(MacroFault::OutOfRange);
    }
    Ok(n)
}

#[tactic(auto, unfolding(crate::specs::Fine::fine_circle))]
fn circle(text: &[u8], parameters: &[Decimal], unit: Unit) -> Result<Option<FineSketch>, MacroFault>
    ensures value { result ≡ spec.fine_circle text.now parameters.now unit }
    ensures near { IfOk result IsNearFine }
{
    let d = breadth(part(0, text), parameters, unit)?;
    let p = point(past(1, text), parameters, unit)?;
    Ok(if d == 0 {
        None
    } else {
        Some(FineSketch {
            kind: FineKind::Disc,
            start: p,
            end: right_of(p, d),
            side: p,
        })
    })
}

#[tactic(auto, unfolding(crate::specs::Fine::fine_line))]
fn line(text: &[u8], parameters: &[Decimal], unit: Unit) -> Result<Option<FineSketch>, MacroFault>
    ensures value { result ≡ spec.fine_line text.now parameters.now unit }
    ensures near { IfOk result IsNearFine }
{
    let w = breadth(part(0, text), parameters, unit)?;
    let p = point(past(1, text), parameters, unit)?;
    let q = point(past(3, text), parameters, unit)?;
    Ok(if w == 0 || is_same(p, q) {
        None
    } else {
        Some(FineSketch {
            kind: FineKind::Line,
            start: p,
            end: q,
            side: right_of(p, w),
        })
    })
}

#[tactic(auto, unfolding(crate::specs::Fine::fine_centre))]
fn centre_line(
    text: &[u8],
    parameters: &[Decimal],
    unit: Unit,
) -> Result<Option<FineSketch>, MacroFault>
    ensures value { result ≡ spec.fine_centre text.now parameters.now unit }
    ensures near { IfOk result IsNearFine }
{
    let w = extent(part(0, text), parameters, unit)?;
    let h = extent(part(1, text), parameters, unit)?;
    let p = point(past(2, text), parameters, unit)?;
    Ok(if w == 0 || h == 0 {
        None
    } else {
        Some(FineSketch {
            kind: FineKind::Rectangle,
            start: p,
            end: right_of(p, w),
            side: above(p, h),
        })
    })
}

/// The fine figure of a primitive of this form; its lengths are judged in turn, sizes as they may be odd.
#[tactic(auto, unfolding(crate::specs::Fine::fine_at))]
pub fn fine(
    form: Form,
    text: &[u8],
    parameters: &[Decimal],
    unit: Unit,
) -> Result<Option<FineSketch>, MacroFault>
    ensures value { result ≡ spec.fine_at form text.now parameters.now unit }
    ensures near { IfOk result IsNearFine }
{
    match form {
        Form::Circle => circle(text, parameters, unit),
        Form::VectorLine => line(text, parameters, unit),
        Form::CentreLine => centre_line(text, parameters, unit),
        Form::Outline(_) => Err(MacroFault::OffGrid),
        Form::Polygon(_) => Err(MacroFault::OffGrid),
    }
}

// Whether other turns than quarter turns leave it as it is: a disc about the origin.
fn is_central(kind: FineKind, p: Spot) -> bool
    ensures { result ≡ spec.is_central kind p }
{
    match kind {
        FineKind::Disc => is_same(p, Spot { x: 0, y: 0 }),
        FineKind::Rectangle => false,
        FineKind::Line => false,
    }
}

/// Whether other turns than quarter turns would turn it.
pub fn is_stiff(fine: Option<FineSketch>) -> bool
    ensures { result ≡ flashes.is_stiff fine }
{
    match fine {
        None => false,
        Some(fine) => !is_central(fine.kind, fine.start),
    }
}
