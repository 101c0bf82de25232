//! Turns by about an angle, and whether polygons bound a figure that is turned by it.
ghost use Rattle.board_shapes.specs.Figures.{InFigure, filled};
ghost use Rattle.planar.specs.Plane.{Point};
ghost use Rattle.slants.specs.Cones as spec;
ghost use Rattle.slants.specs.Cones.{FigureAbove, FigureBelow, PossiblyTurned, SurelyTurned, cosine_by, half_of, lessened, scaled, sine_by, square_of, turns_by};
ghost use Rattle.slants.specs.Turned.{IsSmall};
ghost use Rattle.std.specs.Prelude.{IsTrue, ◌*◌, ◌/◌, ◌<◌, ◌≡◌, ◌≤◌, ◌↔◌};

use super::figure::TurnedFigure;
use super::turned::{is_above_turned, is_below_turned};
use super::turns::{MOST_PART, Motions, Turn};
use planar::Spot;

/// A degree, in the parts in which angles are whole.
pub const DEGREE: u128 = 10_000_000;

/// A right angle, in those.
pub const RIGHT_ANGLE: u32 = 900_000_000;

/// A third of a turn.
pub const THIRD: u32 = 1_200_000_000;

/// Cosines, sines and radians are reckoned in parts of so much.
pub const ONE: u128 = 1_000_000_000_000_000_000;

/// A half turn in radians, in parts of `ONE`, rounded down.
pub const PI: u128 = 3_141_592_653_589_793_238;

/// How long the ways are, about.
pub const RADIUS: u128 = MOST_PART as u128 - 1;

/// Half the angle, in radians.
fn half(angle: u32) -> u128
    requires { angle ≤ THIRD }
    ensures value { result ≡ half_of angle }
    ensures small { result ≤ 1_100_000_000_000_000_000 }
    ensures acute { angle < RIGHT_ANGLE → result ≤ ONE }
{
    angle as u128 * PI / (360 * DEGREE)
}

/// Its square.
fn square(half: u128) -> u128
    requires { half ≤ 1_100_000_000_000_000_000 }
    ensures value { result ≡ square_of half }
    ensures small { result ≤ 2 * ONE }
{
    half * half / ONE
}

/// The product of a number up to 2 and one up to 1.
fn product(a: u128, b: u128) -> u128
    requires a_small { a ≤ 2 * ONE }
    requires b_small { b ≤ ONE }
    ensures value { result ≡ a * b / ONE }
    ensures small { result ≤ a }
{
    a * b / ONE
}

/// 1 - `t` `z` / `k`.
fn less(t: u128, k: u128, z: u128) -> u128
    requires t_small { t ≤ 2 * ONE }
    requires z_small { z ≤ ONE }
    requires some { 2 ≤ k }
    ensures value { result ≡ lessened t k z }
    ensures small { result ≤ ONE }
{
    ONE - product(t, z) / k
}

/// The cosine, by the square of what it is of.
#[tactic(auto, unfolding(crate::specs::Cones::cosine_by))]
fn cosine(t: u128) -> u128
    requires { t ≤ 2 * ONE }
    ensures value { result ≡ cosine_by t }
    ensures small { result ≤ ONE }
{
    let far = less(t, 56, less(t, 90, less(t, 132, ONE)));
    less(t, 2, less(t, 12, less(t, 30, far)))
}

/// The sine without its first factor, so too.
#[tactic(auto, unfolding(crate::specs::Cones::sine_by))]
fn sine(t: u128) -> u128
    requires { t ≤ 2 * ONE }
    ensures value { result ≡ sine_by t }
    ensures small { result ≤ ONE }
{
    let far = less(t, 72, less(t, 110, less(t, 156, ONE)));
    less(t, 6, less(t, 20, less(t, 42, far)))
}

/// `RADIUS` times a number up to 1, to the nearest whole one.
fn scale(z: u128) -> u32
    requires { z ≤ ONE }
    ensures value { result ≡ scaled z }
    ensures small { result ≤ RADIUS }
{
    ((z * RADIUS + ONE / 2) / ONE) as u32
}

/// The cosine of half the angle, times `RADIUS`.
#[tactic(auto, unfolding(crate::specs::Cones::cosine))]
pub fn cosine_of_half(angle: u32) -> u32
    requires { angle ≤ THIRD }
    ensures value { result ≡ spec.cosine angle }
    ensures small { result ≤ RADIUS }
{
    scale(cosine(square(half(angle))))
}

/// That and the sine, for an angle below a right one.
#[tactic(auto, unfolding(crate::specs::Cones::cosine, crate::specs::Cones::sine))]
pub fn place(angle: u32) -> (u32, u32)
    requires { angle < RIGHT_ANGLE }
    ensures across { result.0 ≡ spec.cosine angle }
    ensures up { result.1 ≡ spec.sine angle }
    ensures across_small { result.0 ≤ RADIUS }
    ensures up_small { result.1 ≤ RADIUS }
{
    let half = half(angle);
    let square = square(half);
    (scale(cosine(square)), scale(product(half, sine(square))))
}

/// The turns about the spot by about the angle.
pub fn turns(about: Spot, angle: u32) -> Motions
    requires { angle < RIGHT_ANGLE }
    ensures value { result ≡ turns_by about angle }
    ensures small { IsSmall result.first × IsSmall result.last }
{
    let (across, up) = place(angle);
    let (x, y) = (across as i64, up as i64);
    Motions {
        first: Turn { x: x + 1, y: y - 1 },
        last: Turn { x: x - 1, y: y + 1 },
        from: about,
        to: about,
    }
}

/// Whether the polygon, whose edges have to rise in one run, holds the figure. Where it says so, it does at each turn
/// by about the angle; of others that do, it may refuse some (`FigureAbove`).
pub fn is_above_figure(figure: &TurnedFigure, points: &[Spot]) -> bool
    ensures taken { IsTrue result ↔ FigureAbove figure.now.contour.items figure.now.about figure.now.angle points.now }
    ensures copper { IsTrue result → (p : Point) → PossiblyTurned figure.now.contour.items figure.now.about figure.now.angle p → InFigure (filled points.now) p }
{
    figure.angle < RIGHT_ANGLE
        && is_above_turned(&figure.contour, &turns(figure.about, figure.angle), points)
}

/// Whether the polygon lies in the figure, whose edges have to rise in one run. Where it says so, it does at each turn
/// by about the angle; of others that do, it may refuse some (`FigureBelow`).
pub fn is_below_figure(figure: &TurnedFigure, points: &[Spot]) -> bool
    ensures taken { IsTrue result ↔ FigureBelow figure.now.contour.items figure.now.about figure.now.angle points.now }
    ensures copper { IsTrue result → (p : Point) → InFigure (filled points.now) p → SurelyTurned figure.now.contour.items figure.now.about figure.now.angle p }
{
    figure.angle < RIGHT_ANGLE
        && is_below_turned(&figure.contour, &turns(figure.about, figure.angle), points)
}
