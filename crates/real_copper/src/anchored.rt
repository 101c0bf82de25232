//! Figures near enough to be read and moved.
ghost use Rattle.real_copper.specs.Figures.{is_real_placed, real_edges};
ghost use Rattle.real_copper.specs.Shapes.{real_figure};
ghost use Rattle.real_shapes.specs.Settled.{is_settled};
ghost use Rattle.std.specs.Prelude.{◌≡◌, ◌≤◌, true};

use real_shapes::RealShape;

/// A figure of real copper, each end, corner, centre and spot of which that it is turned about is at most 1 m from 0 in x and y. It
/// is turned by less than a right angle, and has from 3 to 12 corners where it is a polygon.
#[derive(Drop)]
pub struct Anchored {
    pub shape: RealShape,
    pub ghost near: { is_real_placed (real_figure shape) ≡ true },
    pub ghost settled: { is_settled shape ≡ true },
    pub ghost few: { real_edges (real_figure shape) ≤ 4294967295 },
}
