//! Primitives with their parameters: whether they are lawful, and what they flash.
ghost use Rattle.std.specs.Prelude.{◌≡◌, ◌≢◌, ◌*◌, ◌^◌, ◌<◌, ◌≤◌, false, true, IfOk, None, Ok, Some, length, map};
ghost use Rattle.planar.specs.Plane.{IsPlaced, IsReachable};
ghost use Rattle.contact.specs.declared.TheConstants.{MOST_DIAMETER};
ghost use Rattle.area_contact.specs.Contour.{IsClosed};
ghost use Rattle.board_shapes.specs.Rectangles.{rectangle};
ghost use Rattle.aperture_macros.specs.Flashes as flashes;
ghost use Rattle.aperture_macros.specs.Images as spec;
ghost use Rattle.aperture_macros.specs.declared.primitive.Rotation.{Rotation as Turned};
ghost use Rattle.planar.specs.declared.Spot.{Spot as At};
ghost use Rattle.aperture_macros.specs.Seen.{IsMade, Makes, is_circle, plain};
ghost use Rattle.aperture_macros.specs.Sketches.{IsNear, is_disc};

use crate::body_word::part;
use crate::degrees::{Turn, read_turn};
use crate::fault::{FigureFault, MacroFault};
use crate::fine::{fine, is_stiff};
use crate::images::{Sketch, centre_line, circle, line, polygon};
use crate::outline::{Outline, area_of};
use crate::placing::Placing;
use crate::primitive::{Copper, Form, Primitive, Rotation, Turning};
use board_shapes::{Shape, rectangle};
use contact::Capsule;
use lengths::decimal::{Decimal, Unit};
use planar::{Spot, is_placed};
use std::alloc::Global;

impl<'a> Primitive<'a> {
    /// Whether the primitive is lawful with the parameters of an aperture definition, `$1` first, in
    /// their unit. It takes no memory.
    ///
    /// First come the lengths in the order written, each term or factor in turn with its `OffGrid` and its
    /// `OutOfRange`, and then the length itself. Then comes `BadMacro`, where an outline's last point
    /// is not its first, or of a vector line along no axis `Slanted`, where copper is `Exact`, and else
    /// `OutOfRange`, where it is wider than `MOST_DIAMETER`. A circle, a vector line or a centre line of `Real` copper for which
    /// that is `OffGrid` is judged anew with sizes that may be odd, and a circle or a vector line then is at most `MOST_DIAMETER`
    /// wide. Then, where it is turned by degrees, the rotation, as a length is judged with degrees for mm, and `Turn`, where a
    /// vector line along no axis, or what was judged anew and flashes anything but a disc about the origin, is turned by no
    /// quarter turns.
    pub fn judge(
        &self,
        copper: Copper,
        parameters: &[Decimal],
        unit: Unit,
    ) -> Result<(), MacroFault>
        ensures { result ≡ flashes.judged copper (plain self.now) parameters.now unit }
    {
        if self.is_fine(parameters, unit) {
            self.judge_fine(parameters, unit)
        } else {
            self.judge_plain(copper, parameters, unit)
        }
    }

    // The same of one that is not fine.
    fn judge_plain(
        &self,
        copper: Copper,
        parameters: &[Decimal],
        unit: Unit,
    ) -> Result<(), MacroFault>
        ensures { result ≡ flashes.plainly_judged copper (plain self.now) parameters.now unit }
    {
        self.has_figure(copper, parameters, unit)?;
        self.judge_turn(parameters, unit)
    }

    // The same of a fine one.
    #[tactic(auto, unfolding(crate::specs::Flashes::fine_judged))]
    fn judge_fine(&self, parameters: &[Decimal], unit: Unit) -> Result<(), MacroFault>
        ensures { result ≡ flashes.fine_judged self.now.form self.now.lengths.now parameters.now unit }
    {
        let fine = fine(self.form, self.lengths, parameters, unit)?;
        let turn = self.turn(parameters)?;
        if turn.rest > 0 && is_stiff(fine) {
            Err(MacroFault::Turn)
        } else {
            Ok(())
        }
    }

    /// Whether the primitive has an image with these parameters where copper is taken exactly, and `judge` finds no fault. One that is
    /// turned by degrees counts as one that has.
    #[tactic(auto, unfolding(crate::specs::Flashes::figure_turned, crate::specs::Flashes::is_fine, crate::specs::Flashes::turn_judged))]
    pub fn has_image(
        &self,
        copper: Copper,
        parameters: &[Decimal],
        unit: Unit,
    ) -> Result<bool, MacroFault>
        ensures lawful { spec.is_done result ≡ flashes.judged copper (plain self.now) parameters.now unit }
        ensures blank { IfOk result (λ has. has ≡ false → flashes.IsBlank (plain self.now) parameters.now unit) }
        ensures image { IfOk result (λ has. has ≡ true → flashes.HasImage (plain self.now) parameters.now unit) }
    {
        match self.rotation {
            Turning::Quarters(_) => self.has_figure(copper, parameters, unit),
            Turning::Degrees => {
                self.judge(copper, parameters, unit)?;
                Ok(true)
            },
        }
    }

    // Whether it is judged as a fine one.
    #[tactic(auto, unfolding(crate::specs::Flashes::is_fine))]
    pub fn is_fine(&self, parameters: &[Decimal], unit: Unit) -> bool
        ensures { result ≡ flashes.is_fine self.now.rotation self.now.form self.now.lengths.now parameters.now unit }
    {
        match self.rotation {
            Turning::Quarters(_) => false,
            Turning::Degrees => match self.form {
                Form::Circle => is_off_grid(circle(self.lengths, parameters, unit)),
                Form::VectorLine => {
                    is_off_grid(line(Copper::Real, self.lengths, parameters, unit))
                },
                Form::CentreLine => is_off_grid(centre_line(self.lengths, parameters, unit)),
                Form::Outline(_) => false,
                Form::Polygon(_) => false,
            },
        }
    }

    // Whether its lengths give a figure.
    #[tactic(auto, unfolding(crate::specs::Images::judged_by, crate::specs::Images::figure_by, crate::specs::Images::sketch_at))]
    fn has_figure(
        &self,
        copper: Copper,
        parameters: &[Decimal],
        unit: Unit,
    ) -> Result<bool, MacroFault>
        ensures lawful { spec.is_done result ≡ spec.judged_by copper self.now.form self.now.lengths.now parameters.now unit }
        ensures blank { IfOk result (λ has. has ≡ false → (turned : Turned) (at : At) → spec.figure_by self.now.form turned self.now.lengths.now parameters.now unit at ≡ Ok None) }
        ensures image { IfOk result (λ has. has ≡ true → (turned : Turned) (at : At) → spec.figure_by self.now.form turned self.now.lengths.now parameters.now unit at ≢ Ok None) }
    {
        match self.form {
            Form::Circle => Ok(circle(self.lengths, parameters, unit)?.is_some()),
            Form::Outline(edges) => {
                let outline = Outline {
                    edges,
                    text: self.lengths,
                    parameters,
                    unit,
                };
                match outline.judge() {
                    Ok(()) => Ok(true),
                    Err(fault) => Err(fault),
                }
            },
            Form::VectorLine => Ok(line(copper, self.lengths, parameters, unit)?.is_some()),
            Form::CentreLine => Ok(centre_line(self.lengths, parameters, unit)?.is_some()),
            Form::Polygon(n) => Ok(polygon(n, self.lengths, parameters, unit)?.is_some()),
        }
    }

    // Whether it is turned as it may be.
    #[tactic(auto, unfolding(crate::specs::Flashes::turn_judged))]
    fn judge_turn(&self, parameters: &[Decimal], unit: Unit) -> Result<(), MacroFault>
        ensures { result ≡ flashes.turn_judged self.now.rotation self.now.form self.now.lengths.now parameters.now unit }
    {
        match self.rotation {
            Turning::Quarters(_) => Ok(()),
            Turning::Degrees => {
                let turn = self.turn(parameters)?;
                if turn.rest > 0 && self.needs_quarters(parameters, unit) {
                    Err(MacroFault::Turn)
                } else {
                    Ok(())
                }
            },
        }
    }

    // The turn that the expression behind the lengths says.
    fn turn(&self, parameters: &[Decimal]) -> Result<Turn, MacroFault>
        ensures value { result ≡ flashes.turn_behind self.now.form self.now.lengths.now parameters.now }
        ensures below { IfOk result (λ turn. turn.rest < 900000000) }
    {
        read_turn(part(self.form.row().count(), self.lengths), parameters)
    }

    // Whether other turns than quarter turns would slant its stroke.
    #[tactic(auto, unfolding(crate::specs::Flashes::needs_quarters))]
    fn needs_quarters(&self, parameters: &[Decimal], unit: Unit) -> bool
        ensures { result ≡ flashes.needs_quarters self.now.form self.now.lengths.now parameters.now unit }
    {
        match self.form {
            Form::VectorLine => is_slanted(line(Copper::Real, self.lengths, parameters, unit)),
            Form::Circle => false,
            Form::Outline(_) => false,
            Form::CentreLine => false,
            Form::Polygon(_) => false,
        }
    }

    /// What the primitive flashes at a spot within 1 m of 0 where copper is taken exactly, with the parameters of an aperture
    /// definition in their unit (Gerber Layer Format Specification, 4.5.1): its figure about the origin of the macro, turned
    /// counterclockwise about it and moved to the spot. `None` stands exactly where a diameter, a width, a height or the length of a
    /// vector line is 0. For a vector line along no axis stands its stroke: the places at most half its width from the segment between
    /// its ends.
    ///
    /// `Turn` comes of one that is turned by degrees, then the fault of the lengths, `BadMacro` of a polygon, then `OutOfRange`, where
    /// the centre of a circle, a corner or an end is over 1 m from 0 in x or y. `NoMemory` comes for areas alone: a circle takes no
    /// memory.
    #[tactic(auto, unfolding(crate::specs::Flashes::figure_turned))]
    pub fn figure(
        &self,
        alloc: Global,
        parameters: &[Decimal],
        unit: Unit,
        at: Spot,
    ) -> Result<Option<Shape>, FigureFault>
        requires placed { IsPlaced at }
        ensures shape { Makes result (flashes.figure_at (plain self.now) parameters.now unit at) }
        ensures no_memory { is_circle self.now.form ≡ true → IsMade result (flashes.figure_at (plain self.now) parameters.now unit at) }
    {
        match self.rotation {
            Turning::Quarters(rotation) => self.figure_by(alloc, parameters, unit, rotation, at),
            Turning::Degrees => Err(FigureFault::Macro(MacroFault::Turn)),
        }
    }

    // The figure turned by quarter turns.
    #[tactic(auto, unfolding(crate::specs::Images::figure_by))]
    fn figure_by(
        &self,
        alloc: Global,
        parameters: &[Decimal],
        unit: Unit,
        rotation: Rotation,
        at: Spot,
    ) -> Result<Option<Shape>, FigureFault>
        requires placed { IsPlaced at }
        ensures shape { Makes result (spec.figure_by self.now.form rotation self.now.lengths.now parameters.now unit at) }
        ensures no_memory { is_circle self.now.form ≡ true → IsMade result (spec.figure_by self.now.form rotation self.now.lengths.now parameters.now unit at) }
    {
        let by = Placing { rotation, at };
        match self.form {
            Form::Circle => set_down(alloc, by, circle(self.lengths, parameters, unit)),
            Form::Outline(edges) => Outline {
                edges,
                text: self.lengths,
                parameters,
                unit,
            }
            .figure(alloc, by),
            Form::VectorLine => set_down(
                alloc,
                by,
                line(Copper::Real, self.lengths, parameters, unit),
            ),
            Form::CentreLine => set_down(alloc, by, centre_line(self.lengths, parameters, unit)),
            Form::Polygon(n) => set_down(alloc, by, polygon(n, self.lengths, parameters, unit)),
        }
    }
}

// Whether there is none, since a length is off the grid.
fn is_off_grid(sketch: Result<Option<Sketch>, MacroFault>) -> bool
    ensures { result ≡ flashes.is_off_grid sketch }
{
    match sketch {
        Err(MacroFault::OffGrid) => true,
        _ => false,
    }
}

// Whether another turn than quarter turns would slant it: a stroke.
fn is_slanted(sketch: Result<Option<Sketch>, MacroFault>) -> bool
    ensures { result ≡ flashes.is_slanted sketch }
{
    match sketch {
        Ok(Some(Sketch::Stroke(_, _, _))) => true,
        Ok(Some(Sketch::Disc(_, _))) => false,
        Ok(Some(Sketch::Rectangle(_, _))) => false,
        Ok(Some(Sketch::Regular(_, _, _))) => false,
        Ok(None) => false,
        Err(_) => false,
    }
}

// A figure about the origin, set down.
#[tactic(auto, unfolding(crate::specs::Images::sketch_at))]
fn set_down(
    alloc: Global,
    by: Placing,
    sketch: Result<Option<Sketch>, MacroFault>,
) -> Result<Option<Shape>, FigureFault>
    requires near { IfOk sketch IsNear }
    ensures shape { Makes result (spec.sketched by.rotation by.at sketch) }
    ensures no_memory { IfOk sketch (λ found. is_disc found ≡ true) → IsMade result (spec.sketched by.rotation by.at sketch) }
{
    match sketch {
        Err(fault) => Err(FigureFault::Macro(fault)),
        Ok(None) => Ok(None),
        Ok(Some(Sketch::Disc(p, d))) => disc(by.moved(p), d),
        Ok(Some(Sketch::Rectangle(low, high))) => area(alloc, by, low, high),
        Ok(Some(Sketch::Stroke(p, q, w))) => stroke(by.moved(p), by.moved(q), w),
        Ok(Some(Sketch::Regular(_, _, _))) => Err(FigureFault::Macro(MacroFault::BadMacro)),
    }
}

fn disc(p: Spot, d: u64) -> Result<Option<Shape>, FigureFault>
    requires small { d ≤ MOST_DIAMETER }
    ensures { IsMade result (spec.disc_at p d) }
{
    if !is_placed(p) {
        return Err(FigureFault::Macro(MacroFault::OutOfRange));
    }
    Ok(Some(Shape::Round(Capsule::new(p, p, (d / 2) as i64))))
}

fn stroke(p: Spot, q: Spot, w: u64) -> Result<Option<Shape>, FigureFault>
    requires narrow { w ≤ MOST_DIAMETER }
    ensures { IsMade result (spec.stroke_at p q w) }
{
    if !(is_placed(p) && is_placed(q)) {
        return Err(FigureFault::Macro(MacroFault::OutOfRange));
    }
    Ok(Some(Shape::Round(Capsule::new(p, q, (w / 2) as i64))))
}

// The area of a rectangle.
fn area(alloc: Global, by: Placing, low: Spot, high: Spot) -> Result<Option<Shape>, FigureFault>
    requires low { IsReachable low }
    requires high { IsReachable high }
    ensures { Makes result (spec.area_at (map (spec.set_down by.rotation by.at) (rectangle low high))) }
{
    area_of(alloc, corners(by, low, high).as_slice())
}

// The contour of a rectangle, each corner set down.
fn corners(by: Placing, low: Spot, high: Spot) -> [Spot; 5]
    requires low { IsReachable low }
    requires high { IsReachable high }
    ensures value { result ≡ map (spec.set_down by.rotation by.at) (rectangle low high) }
    ensures closed { IsClosed result }
    ensures five { length result ≡ 5 }
{
    let [first, second, third, fourth, _] = rectangle(low, high);
    let start = by.moved(first);
    [
        start,
        by.moved(second),
        by.moved(third),
        by.moved(fourth),
        start,
    ]
}
