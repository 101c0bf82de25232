//! Operations in regions (Gerber Layer Format Specification, 4.10).
ghost use Rattle.gerber_reading.specs.Command.{bending_of};
ghost use Rattle.gerber_reading.specs.Reader.{Stops};
ghost use Rattle.gerber_reading.specs.declared.command.Code.TheVariants as code;
ghost use Rattle.planar.specs.Plane.{IsPlaced};
ghost use Rattle.planar.specs.declared.Spot.{Spot as To};
ghost use Rattle.real_copper.specs.Contours.{end_of as end_from};
ghost use Rattle.real_copper.specs.RealReader.{Closes, HasObeyed, IsCounted, IsLawful, IsRight, known};
ghost use Rattle.real_copper.specs.Rows as spec;
ghost use Rattle.regions.specs.Contours.{outline_of};
ghost use Rattle.std.specs.Prelude.{IfErr, None, OnOk, Some, ◌≡◌, ◌+◌, ◌<◌, ◌^◌};

use crate::bends::bend_of;
use crate::contours::{area_of, is_too_short};
use crate::draw::Bend;
use crate::drawing::{RealReader, halted, without_offsets};
use crate::kind::{RealKind, gerber};
use area_contact::MOST_CONTOUR_EDGES;
use file_reading::Halt;
use gerber_reading::{Bending, Code, GerberKind};
use planar::{Spot, is_same};
use regions::Contour;
use std::alloc::Global;

// Where the last edge of a contour ends.
fn end_of(contour: &Contour<Option<Bend>>) -> Spot
    ensures { result ≡ end_from (outline_of contour.now).first (outline_of contour.now).legs }
{
    match contour.legs.last() {
        Some(leg) => leg.to,
        None => contour.first,
    }
}

/// Closes the contour, and takes on what it bounds.
#[tactic(auto, unfolding(crate::specs::Rows::closing))]
pub fn close(reader: &mut RealReader, alloc: Global) -> Result<(), Halt<RealKind>>
    requires few { reader.old.commands + 1 < 2 ^ 32 }
    requires lawful { IsLawful reader.old }
    ensures ok { OnOk result (Closes reader.old reader.new) }
    ensures counted { OnOk result (IsCounted reader.new) }
    ensures halt { IfErr result (Stops (spec.closing (known reader.old))) }
{
    let Some(contour) = reader.contour.take() else {
        return Ok(());
    };
    if !is_same(end_of(&contour), contour.first) {
        return Err(Halt::Fault(gerber(GerberKind::OpenContour)));
    }
    if is_too_short(&contour) {
        return Err(Halt::Fault(gerber(GerberKind::ShortContour)));
    }
    if reader.is_full() {
        return Err(Halt::Fault(gerber(GerberKind::TooManyPieces)));
    }
    let Ok(area) = area_of(alloc, &contour) else {
        return Err(Halt::NoMemory);
    };
    match reader.add_piece(area) {
        Ok(()) => Ok(()),
        Err(halt) => Err(halted(halt)),
    }
}

// Adds an edge to the contour, with its bend.
#[tactic(auto, unfolding(crate::specs::Rows::extend))]
fn extend(
    reader: &mut RealReader,
    alloc: Global,
    bending: &Bending,
    to: Spot,
) -> Result<(), Halt<RealKind>>
    requires lawful { IsLawful reader.old }
    requires placed { IsPlaced to }
    ensures ok { OnOk result (HasObeyed reader.old (spec.extend (known reader.old) (bending_of bending.now) to) (Some to) None reader.new) }
    ensures right { OnOk result (IsRight reader.new) }
    ensures halt { IfErr result (Stops (spec.extend (known reader.old) (bending_of bending.now) to)) }
{
    let edges = reader.contour_edges();
    if edges >= MOST_CONTOUR_EDGES || reader.exceeds(edges + 1) {
        return Err(Halt::Fault(gerber(GerberKind::TooManyVertices)));
    }
    match bend_of(&reader.settings, bending, to) {
        Ok(bend) => match reader.extend(alloc, to, bend) {
            Ok(()) => Ok(()),
            Err(halt) => Err(halted(halt)),
        },
        Err(kind) => Err(Halt::Fault(kind)),
    }
}

// Closes the contour, so that another may begin.
fn begin(reader: &mut RealReader, alloc: Global, bending: &Bending) -> Result<(), Halt<RealKind>>
    requires few { reader.old.commands + 1 < 2 ^ 32 }
    requires lawful { IsLawful reader.old }
    ensures ok { (to : To) → OnOk result (HasObeyed reader.old (spec.perform_in_region (known reader.old) code.Move (bending_of bending.now) to) (Some to) None reader.new) }
    ensures right { OnOk result (IsRight reader.new) }
    ensures halt { (to : To) → IfErr result (Stops (spec.perform_in_region (known reader.old) code.Move (bending_of bending.now) to)) }
{
    match close(reader, alloc) {
        Ok(()) => without_offsets(bending),
        Err(halt) => Err(halt),
    }
}

/// Performs an operation in a region.
#[tactic(auto, unfolding(crate::specs::Rows::perform_in_region))]
pub fn perform_in_region(
    reader: &mut RealReader,
    alloc: Global,
    code: Code,
    bending: &Bending,
    to: Spot,
) -> Result<(), Halt<RealKind>>
    requires few { reader.old.commands + 1 < 2 ^ 32 }
    requires lawful { IsLawful reader.old }
    requires placed { IsPlaced to }
    ensures ok { OnOk result (HasObeyed reader.old (spec.perform_in_region (known reader.old) code (bending_of bending.now) to) (Some to) None reader.new) }
    ensures right { OnOk result (IsRight reader.new) }
    ensures halt { IfErr result (Stops (spec.perform_in_region (known reader.old) code (bending_of bending.now) to)) }
{
    match code {
        Code::Draw => extend(reader, alloc, bending, to),
        Code::Move => begin(reader, alloc, bending),
        Code::Flash => Err(Halt::Fault(gerber(GerberKind::NotInRegion))),
    }
}
