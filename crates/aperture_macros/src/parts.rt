//! What a primitive of real copper is about the origin of its macro, before it is turned and set down.
ghost use Rattle.aperture_macros.specs.Fine.{IsNearFine, fine_at};
ghost use Rattle.aperture_macros.specs.Images.{outline_at, set_down};
ghost use Rattle.aperture_macros.specs.Parts as spec;
ghost use Rattle.aperture_macros.specs.Parts.{IsPoints};
ghost use Rattle.aperture_macros.specs.Seen.{plain};
ghost use Rattle.aperture_macros.specs.Sized.{IsSized};
ghost use Rattle.aperture_macros.specs.Sketches.{IsNear};
ghost use Rattle.aperture_macros.specs.declared.primitive.Form.TheVariants as form;
ghost use Rattle.area_contact.specs.Contour.{IsClosed};
ghost use Rattle.std.specs.Prelude.{IfErr, IfOk, length, map, ◌≡◌, ◌<◌, ◌≤◌};

use crate::body_word::part;
use crate::degrees::{Turn, read_turn};
use crate::fault::{FigureFault, MacroFault};
use crate::fine::{FineSketch, fine};
use crate::images::{Sketch, centre_line, circle, line, polygon};
use crate::outline::Outline;
use crate::placing::Placing;
use crate::primitive::{Copper, Form, Primitive, Turning};
use lengths::decimal::{Decimal, Unit};
use planar::Spot;
use std::alloc::Global;

impl<'a> Primitive<'a> {
    /// How it is turned.
    pub fn turned(&self, parameters: &[Decimal]) -> Result<Turn, MacroFault>
        ensures value { result ≡ spec.turn_of (plain self.now) parameters.now }
        ensures below { IfOk result (λ turn. turn.rest < 900000000) }
    {
        match self.rotation {
            Turning::Quarters(quarters) => Ok(Turn { quarters, rest: 0 }),
            Turning::Degrees => read_turn(part(self.form.row().count(), self.lengths), parameters),
        }
    }

    /// Its figure about the origin, of even sizes; `None` where it has no image, and of an outline, whose `points` say it.
    pub fn sketch(&self, parameters: &[Decimal], unit: Unit) -> Result<Option<Sketch>, MacroFault>
        ensures value { result ≡ spec.sketch_of self.now.form self.now.lengths.now parameters.now unit }
        ensures near { IfOk result IsNear }
    {
        match self.form {
            Form::Circle => circle(self.lengths, parameters, unit),
            Form::Outline(_) => Ok(None),
            Form::VectorLine => line(Copper::Real, self.lengths, parameters, unit),
            Form::CentreLine => centre_line(self.lengths, parameters, unit),
            Form::Polygon(n) => polygon(n, self.lengths, parameters, unit),
        }
    }

    /// The points of an outline of so many edges, each set down; its last is its first.
    pub fn points(
        &self,
        alloc: Global,
        edges: u32,
        parameters: &[Decimal],
        unit: Unit,
        by: Placing,
    ) -> Result<Vec<Spot>, FigureFault>
        requires sized { IsSized (form.Outline edges) }
        ensures ok { IfOk result (λ points. IsPoints by.rotation by.at (outline_at edges self.now.lengths.now parameters.now unit) points.items) }
        ensures closed { IfOk result (λ points. IsClosed points.items) }
        ensures enough { IfOk result (λ points. 4 ≤ length points.items) }
        ensures few { IfOk result (λ points. length points.items ≤ 5001) }
        ensures fault { IfErr result (spec.IsPointsFault (outline_at edges self.now.lengths.now parameters.now unit)) }
    {
        let outline = Outline {
            edges,
            text: self.lengths,
            parameters,
            unit,
        };
        match outline.judge() {
            Ok(()) => outline.points(alloc, by),
            Err(fault) => Err(FigureFault::Macro(fault)),
        }
    }

    /// Its figure about the origin, of sizes that may be odd.
    pub fn fine(&self, parameters: &[Decimal], unit: Unit) -> Result<Option<FineSketch>, MacroFault>
        ensures value { result ≡ fine_at self.now.form self.now.lengths.now parameters.now unit }
        ensures near { IfOk result IsNearFine }
    {
        fine(self.form, self.lengths, parameters, unit)
    }
}
