//! What the reader of a file keeps, and how it obeys a line.
ghost use Rattle.std.specs.Prelude.{◌≡◌, ◌+◌, ◌^◌, ◌<◌, ◌≤◌, [], IfOk, IfErr, IfSome, OnOk};
ghost use Rattle.contact.specs.declared.TheConstants.{MOST_DIAMETER};

use crate::MOST_TOOLS;
use crate::drill_effects::{after, diameter, half, is_drilling, is_ended, is_start, target};
use crate::effect::Effect;
use crate::kind::DrillKind;
use crate::line::DrillLine;
use crate::settings::{Mode, Settings, Stage};
use crate::span::Span;
use crate::tools::Tools;
use board_shapes::{Origin, Piece, Placed, Shape};
use contact::Capsule;
use file_reading::Halt;
use lengths::decimal::{Decimal, Unit, other_unit};
use lengths::rows::NoMemory;
use planar::Spot;
use std::alloc::Global;

// About how many bytes of a file make a barrel.
const BYTES_OF_A_BARREL: usize = 16;

/// What the lines of a drill file so far have set and made. Its barrels stand on the layers `from`
/// to `to`, and `file` goes into their origins; `lines` counts those that were obeyed, and `room`
/// is how many barrels may come.
#[derive(Drop)]
pub struct Reader {
    pub settings: Settings,
    pub tools: Tools,
    pub pieces: Vec<Piece>,
    pub lines: u32,
    pub from: u8,
    pub to: u8,
    pub file: u32,
    pub room: u32,
    pub ghost span: { (1 ≤ from) × (from ≤ to) },
}

impl Reader {
    ghost use Rattle.planar.specs.Plane.{IsPlaced};
    ghost use Rattle.board_shapes.specs.Figures.{capsule_figure};
    ghost use Rattle.xnc.specs.Reader.{Applies, AreLawful, Halts, IsFit, IsLawfulReader, IsNew, Obeys, known_of, placed_row, showing, shown};
    ghost use Rattle.xnc.specs.DrillEffects as spec;

    /// Before the first line of a file of so many bytes.
    pub fn new(alloc: Global, size: usize, span: Span, file: u32, room: u32) -> Reader
        ensures new { IsNew (record { from = span.from; to = span.to; file = file; room = room }) result }
        ensures lawful { IsLawfulReader result }
    {
        Reader {
            settings: Settings {
                stage: Stage::Opening,
                unit: None,
                tool: None,
                mode: Mode::Drill,
                down: false,
                at: Spot { x: 0, y: 0 },
            },
            tools: Tools::new(alloc),
            pieces: with_room(alloc, size, room),
            lines: 0,
            from: span.from,
            to: span.to,
            file,
            room,
        }
    }

    // The diameter of the selected tool.
    fn diameter(&self) -> Option<u64>
        requires { AreLawful self.now.tools }
        ensures value { result ≡ spec.diameter (known_of self.now) }
        ensures lawful { IfSome result (λ d. d ≤ MOST_DIAMETER) }
    {
        let n = self.settings.tool?;
        self.tools.find(n)
    }

    #[tactic(auto, unfolding(crate::specs::DrillEffects::define))]
    fn define(&self, n: u32, d: Decimal) -> Result<Effect, DrillKind>
        ensures value { showing result ≡ spec.define (known_of self.now) n d }
        ensures fit { IfOk result (IsFit self.now.tools) }
    {
        let size = diameter(self.settings.unit, d)?;
        if self.tools.find(n).is_some() {
            return Err(DrillKind::ToolTwice);
        }
        if self.tools.len() >= MOST_TOOLS {
            return Err(DrillKind::TooManyTools);
        }
        Ok(Effect::Makes(n, size))
    }

    // A barrel of the diameter, if there is room for it.
    #[tactic(auto, unfolding(crate::specs::DrillEffects::barrel))]
    fn barrel(&self, from: Spot, to: Spot, diameter: Option<u64>) -> Result<Effect, DrillKind>
        requires diameter { diameter ≡ spec.diameter (known_of self.now) }
        requires bound { IfSome diameter (λ d. d ≤ MOST_DIAMETER) }
        requires from { IsPlaced from }
        requires to { IsPlaced to }
        ensures value { showing result ≡ spec.barrel (known_of self.now) from to }
        ensures fit { IfOk result (IsFit self.now.tools) }
    {
        if self.room as usize <= self.pieces.len() {
            return Err(DrillKind::TooManyPieces);
        }
        let barrel = Capsule::new(from, to, half(diameter));
        Ok(Effect::Drills(to, barrel))
    }

    // What a line does that names a place, where the mode and the tool allow it. The diameter was looked up once. It is inlined, as all that
    // obeys a place is, so that neither form nor effect is copied on the way.
    #[inline(always)]
    #[tactic(auto, unfolding(crate::specs::Reader::placed_row, crate::specs::DrillEffects::rout, crate::specs::DrillEffects::straight, crate::specs::DrillEffects::hit, crate::specs::DrillEffects::slot))]
    fn placed_row(&self, form: &DrillLine, diameter: Option<u64>) -> Result<Effect, DrillKind>
        requires lawful { IsLawfulReader self.now }
        requires diameter { diameter ≡ spec.diameter (known_of self.now) }
        requires bound { IfSome diameter (λ d. d ≤ MOST_DIAMETER) }
        ensures value { showing result ≡ placed_row (known_of self.now) form.now }
        ensures fit { IfOk result (IsFit self.now.tools) }
    {
        let unit = self.settings.unit;
        let here = self.settings.at;
        match *form {
            DrillLine::Rout(to) => {
                let to = target(unit, here, to)?;
                Ok(Effect::Moves(to))
            },
            DrillLine::Straight(to) => {
                let to = target(unit, here, to)?;
                self.barrel(here, to, diameter)
            },
            DrillLine::Hit(at) => {
                let at = target(unit, here, at)?;
                self.barrel(at, at, diameter)
            },
            DrillLine::Slot(from, to) => {
                let from = target(unit, here, from)?;
                let to = target(unit, from, to)?;
                self.barrel(from, to, diameter)
            },
            _ => Err(DrillKind::BadLine),
        }
    }

    // The rows of the header.
    #[tactic(auto, unfolding(crate::specs::DrillEffects::header))]
    fn header(&self, form: &DrillLine) -> Result<Effect, DrillKind>
        ensures value { showing result ≡ spec.header (known_of self.now) form.now }
        ensures fit { IfOk result (IsFit self.now.tools) }
    {
        match *form {
            DrillLine::Unit(unit) => if other_unit(self.settings.unit, unit) {
                Err(DrillKind::BadLine)
            } else {
                Ok(Effect::Stays)
            },
            DrillLine::Format | DrillLine::Absolute | DrillLine::HeaderEnd => Ok(Effect::Stays),
            DrillLine::Tool(n, d) => self.define(n, d),
            _ => Err(DrillKind::BadLine),
        }
    }

    // The rows of the body.
    #[tactic(auto, unfolding(crate::specs::DrillEffects::body, crate::specs::Reader::placed_row))]
    fn body(&self, form: &DrillLine) -> Result<Effect, DrillKind>
        requires lawful { IsLawfulReader self.now }
        ensures value { showing result ≡ spec.body (known_of self.now) form.now }
        ensures fit { IfOk result (IsFit self.now.tools) }
    {
        let down = self.settings.down;
        let drilling = is_drilling(self.settings.mode);
        let diameter = self.diameter();
        match *form {
            DrillLine::Arc => Err(DrillKind::ArcRout),
            DrillLine::NoTool | DrillLine::Drill | DrillLine::End if down => Err(
                DrillKind::WrongMode,
            ),
            DrillLine::NoTool | DrillLine::Drill | DrillLine::End | DrillLine::Absolute => Ok(
                Effect::Stays,
            ),
            DrillLine::Select(_) if down => Err(DrillKind::WrongMode),
            DrillLine::Select(n) if self.tools.find(n).is_none() => Err(DrillKind::NoTool),
            DrillLine::Select(_) => Ok(Effect::Stays),
            DrillLine::Rout(_) if down => Err(DrillKind::WrongMode),
            DrillLine::Rout(_) => self.placed_row(form, diameter),
            DrillLine::Lower if drilling || down => Err(DrillKind::WrongMode),
            DrillLine::Lower if diameter.is_none() => Err(DrillKind::NoTool),
            DrillLine::Lower => Ok(Effect::Stays),
            DrillLine::Raise if !down => Err(DrillKind::WrongMode),
            DrillLine::Raise => Ok(Effect::Stays),
            DrillLine::Straight(_) if !down => Err(DrillKind::WrongMode),
            DrillLine::Straight(_) => self.placed_row(form, diameter),
            DrillLine::Hit(_) | DrillLine::Slot(_, _) if !drilling => Err(DrillKind::WrongMode),
            DrillLine::Hit(_) | DrillLine::Slot(_, _) if diameter.is_none() => Err(
                DrillKind::NoTool,
            ),
            DrillLine::Hit(_) | DrillLine::Slot(_, _) => self.placed_row(form, diameter),
            _ => Err(DrillKind::BadLine),
        }
    }

    // By where the line stands.
    #[tactic(auto, unfolding(crate::specs::DrillEffects::staged))]
    fn staged(&self, form: &DrillLine) -> Result<Effect, DrillKind>
        requires lawful { IsLawfulReader self.now }
        ensures value { showing result ≡ spec.staged self.now.settings.stage (known_of self.now) form.now }
        ensures fit { IfOk result (IsFit self.now.tools) }
    {
        match self.settings.stage {
            Stage::Opening => if is_start(form) {
                Ok(Effect::Stays)
            } else {
                Err(DrillKind::NoHeader)
            },
            Stage::Header => self.header(form),
            Stage::Body => self.body(form),
            Stage::Ended => Err(DrillKind::AfterEnd),
        }
    }

    // What a line does, or its fault.
    #[tactic(auto, unfolding(crate::specs::DrillEffects::effect))]
    fn effect(&self, form: &DrillLine) -> Result<Effect, DrillKind>
        requires lawful { IsLawfulReader self.now }
        ensures value { showing result ≡ spec.effect (known_of self.now) form.now }
        ensures fit { IfOk result (IsFit self.now.tools) }
    {
        match *form {
            DrillLine::Blank => Ok(Effect::Stays),
            DrillLine::Misfit(kind) => Err(kind),
            DrillLine::Finish => if is_ended(self.settings.stage) {
                Ok(Effect::Stays)
            } else {
                Err(DrillKind::NotEnded)
            },
            _ => self.staged(form),
        }
    }

    // Takes an effect on. An `Err` leaves a reader that is of no more use.
    fn apply(&mut self, effect: Effect) -> Result<(), NoMemory>
        requires fit { IsFit self.old.tools effect }
        requires few { self.old.lines + 1 < 2 ^ 32 }
        ensures ok { OnOk result (Applies self.old (shown effect) self.new) }
        ensures lawful { OnOk result (AreLawful self.old.tools → AreLawful self.new.tools) }
    {
        match effect {
            Effect::Stays | Effect::Moves(_) => Ok(()),
            Effect::Makes(n, diameter) => self.tools.add(n, diameter),
            Effect::Drills(_, barrel) => self.add_hole(barrel),
        }
    }

    fn add_hole(&mut self, barrel: Capsule) -> Result<(), NoMemory>
        requires few { self.old.lines + 1 < 2 ^ 32 }
        ensures ok { OnOk result (Applies self.old (spec.drills self.old.settings.at (capsule_figure barrel)) self.new) }
    {
        let origin = Origin {
            file: self.file,
            command: self.lines + 1,
            copy: 0,
        };
        self.pieces.push(Placed {
            shape: Shape::Round(barrel),
            top: self.from,
            bottom: self.to,
            origin,
        })?;
        Ok(())
    }

    /// Obeys a line. An `Err` leaves a reader that is of no more use.
    pub fn obey(&mut self, form: &DrillLine) -> Result<(), Halt<DrillKind>>
        requires lawful { IsLawfulReader self.old }
        requires few { self.old.lines + 1 < 2 ^ 32 }
        ensures ok { OnOk result (Obeys self.old form.now self.new) }
        ensures lawful { OnOk result (IsLawfulReader self.new) }
        ensures halt { IfErr result (Halts (known_of self.old) form.now) }
    {
        let effect = self.effect(form)?;
        let settings = after(self.settings, form, &effect);
        if let Err(_) = self.apply(effect) {
            return Err(Halt::NoMemory);
        }
        self.settings = settings;
        self.lines += 1;
        Ok(())
    }

    /// The barrels so far.
    pub fn into_pieces(self) -> Vec<Piece>
        ensures { result ≡ self.pieces }
    {
        self.pieces
    }
}

// No pieces, with room for about as many as a file of that size makes, where memory serves: a list that grows is copied each time.
fn with_room(alloc: Global, size: usize, room: u32) -> Vec<Piece>
    ensures { result.items ≡ [] }
{
    match Vec::with_capacity(alloc, (size / BYTES_OF_A_BARREL).min(room as usize)) {
        Ok(pieces) => pieces,
        Err(_) => Vec::new(alloc),
    }
}
