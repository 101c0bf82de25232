//! Pieces shifted.
ghost use Rattle.board_shapes.specs.Figures.{area_figure, capsule_figure, figure_of};
ghost use Rattle.board_shapes.specs.Moved.{IsMoveFault, IsShift, IsWay, StaysPlaced, moved_piece, shifted, shifted_figure};
ghost use Rattle.board_shapes.specs.Pieces.{plain_piece};
ghost use Rattle.planar.specs.Plane.{IsPlaced};
ghost use Rattle.std.specs.Prelude.{All, IfErr, IfOk, map, ◌≡◌};

use crate::placed::{Origin, Piece, Placed};
use crate::shape::Shape;
use area_contact::Area;
use contact::Capsule;
use planar::{Spot, is_placed};
use std::alloc::Global;
use thiserror::Error;

/// Why a piece cannot be shifted.
#[derive(Clone, Copy, Debug, PartialEq, Eq, Error)]
pub enum MoveFault {
    /// A shifted end or corner is over 1 m from 0 in x or y.
    #[error("a shifted end or corner is over one metre from zero")]
    OutOfRange = 1,
    #[error("memory is wanted")]
    NoMemory = 2,
}

/// How far something is shifted, in u.
#[derive(Clone, Copy)]
struct Shift {
    x: i64,
    y: i64,
}

impl Piece {
    /// The same piece shifted by `dx` and `dy`, each at most 2 m in u, as copy number `copy`.
    ///
    /// `OutOfRange` where a shifted end or corner is over 1 m from 0 in x or y; `NoMemory` where memory is wanted.
    pub fn moved(&self, alloc: Global, dx: i64, dy: i64, copy: u32) -> Result<Piece, MoveFault>
        requires across { IsShift dx }
        requires up { IsShift dy }
        ensures ok { IfOk result (λ piece. plain_piece piece ≡ moved_piece dx dy copy (plain_piece self.now)) }
        ensures placed { IfOk result (λ piece. StaysPlaced dx dy (figure_of self.now.shape)) }
        ensures fault { IfErr result (IsMoveFault dx dy (figure_of self.now.shape)) }
    {
        let shape = self.shape.moved(alloc, dx, dy)?;
        let origin = Origin {
            file: self.origin.file,
            command: self.origin.command,
            copy,
        };
        Ok(Placed {
            shape,
            top: self.top,
            bottom: self.bottom,
            origin,
        })
    }
}

impl Shape {
    /// The same shape shifted by `dx` and `dy`, each at most 2 m in u.
    ///
    /// `OutOfRange` where a shifted end or corner is over 1 m from 0 in x or y; `NoMemory` where memory is wanted.
    pub fn moved(&self, alloc: Global, dx: i64, dy: i64) -> Result<Shape, MoveFault>
        requires across { IsShift dx }
        requires up { IsShift dy }
        ensures ok { IfOk result (λ s. figure_of s ≡ shifted_figure dx dy (figure_of self.now)) }
        ensures placed { IfOk result (λ s. StaysPlaced dx dy (figure_of self.now)) }
        ensures fault { IfErr result (IsMoveFault dx dy (figure_of self.now)) }
    {
        moved_shape(alloc, self, Shift { x: dx, y: dy })
    }
}

/// The shape shifted.
fn moved_shape(alloc: Global, shape: &Shape, by: Shift) -> Result<Shape, MoveFault>
    requires way { IsWay by }
    ensures ok { IfOk result (λ s. figure_of s ≡ shifted_figure by.x by.y (figure_of shape.now)) }
    ensures placed { IfOk result (λ s. StaysPlaced by.x by.y (figure_of shape.now)) }
    ensures fault { IfErr result (IsMoveFault by.x by.y (figure_of shape.now)) }
{
    match shape {
        Shape::Round(capsule) => Ok(Shape::Round(moved_capsule(capsule, by)?)),
        Shape::Filled(area) => moved_area(alloc, area, by),
    }
}

/// The capsule shifted.
fn moved_capsule(capsule: &Capsule, by: Shift) -> Result<Capsule, MoveFault>
    requires way { IsWay by }
    ensures ok { IfOk result (λ c. capsule_figure c ≡ shifted_figure by.x by.y (capsule_figure capsule.now)) }
    ensures placed { IfOk result (λ c. StaysPlaced by.x by.y (capsule_figure capsule.now)) }
    ensures fault { IfErr result (IsMoveFault by.x by.y (capsule_figure capsule.now)) }
{
    let (start, end, r) = capsule.parts();
    let a = moved_spot(start, by)?;
    let b = moved_spot(end, by)?;
    Ok(Capsule::new(a, b, r))
}

/// The area shifted.
fn moved_area(alloc: Global, area: &Area, by: Shift) -> Result<Shape, MoveFault>
    requires way { IsWay by }
    ensures ok { IfOk result (λ s. figure_of s ≡ shifted_figure by.x by.y (area_figure area.now)) }
    ensures placed { IfOk result (λ s. StaysPlaced by.x by.y (area_figure area.now)) }
    ensures fault { IfErr result (IsMoveFault by.x by.y (area_figure area.now)) }
{
    let points = moved_points(alloc, area, by)?;
    // A closed contour stays closed, and keeps its number of edges.
    match Shape::area_of(alloc, points) {
        Ok(shape) => Ok(shape),
        Err(_) => Err(MoveFault::NoMemory),
    }
}

/// The points of the contour shifted: each corner, and the first one again.
fn moved_points(alloc: Global, area: &Area, by: Shift) -> Result<Vec<Spot>, MoveFault>
    requires way { IsWay by }
    ensures ok { IfOk result (λ points. points.items ≡ map (shifted by.x by.y) area.now.points.items) }
    ensures placed { IfOk result (λ points. All IsPlaced points.items) }
    ensures fault { IfErr result (IsMoveFault by.x by.y (area_figure area.now)) }
{
    let mut points = Vec::new(alloc);
    for i in 0..area.edges() {
        let corner = moved_spot(area.corner(i), by)?;
        let Ok(()) = points.push(corner) else {
            return Err(MoveFault::NoMemory);
        };
    }
    let first = moved_spot(area.corner(0), by)?;
    let Ok(()) = points.push(first) else {
        return Err(MoveFault::NoMemory);
    };
    Ok(points)
}

/// The spot shifted, where it stays within 1 m.
fn moved_spot(spot: Spot, by: Shift) -> Result<Spot, MoveFault>
    requires placed { IsPlaced spot }
    requires way { IsWay by }
    ensures ok { IfOk result (λ p. p ≡ shifted by.x by.y spot) }
    ensures placed { IfOk result (λ p. IsPlaced p) }
    ensures fault { IfErr result (λ fault. (fault ≡ MoveFault.OutOfRange) × ¬ IsPlaced (shifted by.x by.y spot)) }
{
    let p = shift_spot(spot, by);
    if !is_placed(p) {
        return Err(MoveFault::OutOfRange);
    }
    Ok(p)
}

fn shift_spot(p: Spot, by: Shift) -> Spot
    requires placed { IsPlaced p }
    requires way { IsWay by }
    ensures { result ≡ shifted by.x by.y p }
{
    Spot {
        x: p.x + by.x,
        y: p.y + by.y,
    }
}
