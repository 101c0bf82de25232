//! Outlines: whether they are lawful, and the areas that they bound.
ghost use Rattle.std.specs.Prelude.{◌≡◌, ◌≤◌, ◌+◌, [], All, IfErr, IfOk, Ok, Some, length};
ghost use Rattle.planar.specs.Plane.{IsPlaced};
ghost use Rattle.area_contact.specs.Contour.{IsClosed};
ghost use Rattle.board_shapes.specs.Figures.{filled};
ghost use Rattle.aperture_macros.specs.BodyWord.{past as past_of};
ghost use Rattle.aperture_macros.specs.Images.{area_at, outline_at, outlined, set_down};
ghost use Rattle.aperture_macros.specs.Outlines.{closing_at, last_from, moved_from};
ghost use Rattle.aperture_macros.specs.Seen.{IsMade, IsNoArea, IsRefusal, Makes};
ghost use Rattle.aperture_macros.specs.Sized.{IsSized};
ghost use Rattle.aperture_macros.specs.declared.TheConstants.{MOST_OUTLINE_EDGES};
ghost use Rattle.aperture_macros.specs.declared.primitive.Form.TheVariants as form;

use crate::body_word::past;
use crate::fault::{FigureFault, MacroFault};
use crate::placing::Placing;
use crate::values::point;
use board_shapes::Shape;
use lengths::decimal::{Decimal, Unit};
use planar::{Spot, are_placed, is_same};
use std::alloc::Global;

/// The points of an outline as they are written, one more than its edges, and the parameters of an
/// aperture definition in their unit.
#[derive(Clone, Copy)]
pub struct Outline<'a> {
    pub edges: u32,
    pub text: &'a [u8],
    pub parameters: &'a [Decimal],
    pub unit: Unit,
}

impl Outline<'_> {
    /// Whether the points are lawful, and the last is the first.
    #[tactic(auto, unfolding(crate::specs::Outlines::closing_at))]
    pub fn judge(&self) -> Result<(), MacroFault>
        ensures { result ≡ closing_at self.now.edges self.now.text.now self.now.parameters.now self.now.unit }
    {
        let first = point(self.text, self.parameters, self.unit)?;
        let last = self.last_point(first)?;
        if is_same(last, first) {
            Ok(())
        } else {
            Err(MacroFault::BadMacro)
        }
    }

    // The last of the points behind the first.
    #[tactic(auto, unfolding(crate::specs::Outlines::last_from))]
    fn last_point(&self, first: Spot) -> Result<Spot, MacroFault>
        ensures { result ≡ last_from first self.now.edges (past_of 2 self.now.text.now) self.now.parameters.now self.now.unit }
    {
        let mut last = first;
        let mut rest = past(2, self.text);
        for _ in 0..self.edges {
            last = point(rest, self.parameters, self.unit)?;
            rest = past(2, rest);
        }
        Ok(last)
    }

    /// The area of the outline, set down.
    pub fn figure(&self, alloc: Global, by: Placing) -> Result<Option<Shape>, FigureFault>
        requires sized { IsSized (form.Outline self.now.edges) }
        ensures { Makes result (outlined by.rotation by.at (outline_at self.now.edges self.now.text.now self.now.parameters.now self.now.unit)) }
    {
        match self.judge() {
            Err(fault) => Err(FigureFault::Macro(fault)),
            Ok(()) => self.area(alloc, by),
        }
    }

    // The same where the points are lawful, and the last is the first.
    fn area(&self, alloc: Global, by: Placing) -> Result<Option<Shape>, FigureFault>
        requires sized { IsSized (form.Outline self.now.edges) }
        requires judged { closing_at self.now.edges self.now.text.now self.now.parameters.now self.now.unit ≡ Ok tt }
        ensures { Makes result (outlined by.rotation by.at (outline_at self.now.edges self.now.text.now self.now.parameters.now self.now.unit)) }
    {
        match self.points(alloc, by) {
            Err(fault) => Err(fault),
            Ok(points) => {
                if !are_placed(&points) {
                    return Err(FigureFault::Macro(MacroFault::OutOfRange));
                }
                bounded(alloc, points)
            },
        }
    }

    // The points, each set down as it is read.
    #[tactic(auto, unfolding(crate::specs::Outlines::moved_from))]
    pub fn points(&self, alloc: Global, by: Placing) -> Result<Vec<Spot>, FigureFault>
        requires few { self.now.edges ≤ MOST_OUTLINE_EDGES }
        ensures ok { IfOk result (λ points. moved_from (set_down by.rotation by.at) [] (self.now.edges + 1) self.now.text.now self.now.parameters.now self.now.unit ≡ Ok points.items) }
        ensures fault { IfErr result (IsRefusal (moved_from (set_down by.rotation by.at) [] (self.now.edges + 1) self.now.text.now self.now.parameters.now self.now.unit)) }
    {
        let mut points = Vec::new(alloc);
        let mut rest = self.text;
        for _ in 0..self.edges + 1 {
            let p = match point(rest, self.parameters, self.unit) {
                Ok(p) => p,
                Err(fault) => return Err(FigureFault::Macro(fault)),
            };
            let Ok(()) = points.push(by.moved(p)) else {
                return Err(FigureFault::NoMemory);
            };
            rest = past(2, rest);
        }
        Ok(points)
    }
}

/// The area of these spots; `OutOfRange` where one of them is over 1 m from 0 in x or y.
pub fn area_of(alloc: Global, spots: &[Spot]) -> Result<Option<Shape>, FigureFault>
    requires closed { IsClosed spots.now }
    requires enough { 4 ≤ length spots.now }
    requires not_many { length spots.now ≤ 5001 }
    ensures shape { Makes result (area_at spots.now) }
    ensures no_memory { IsNoArea (area_at spots.now) → IsMade result (area_at spots.now) }
{
    if !are_placed(spots) {
        return Err(FigureFault::Macro(MacroFault::OutOfRange));
    }
    match spots.to_vec(alloc) {
        Ok(points) => bounded(alloc, points),
        Err(_) => Err(FigureFault::NoMemory),
    }
}

// The area that a contour bounds.
fn bounded(alloc: Global, points: Vec<Spot>) -> Result<Option<Shape>, FigureFault>
    requires closed { IsClosed points.items }
    requires enough { 4 ≤ length points.items }
    requires not_many { length points.items ≤ 5001 }
    requires placed { All IsPlaced points.items }
    ensures { Makes result (Ok (Some (filled points.items))) }
{
    match Shape::area_of(alloc, points) {
        Ok(shape) => Ok(Some(shape)),
        Err(_) => Err(FigureFault::NoMemory),
    }
}
