//! Which centre an arc of a single quadrant means.
ghost use Rattle.real_copper.specs.Centres as spec;
ghost use Rattle.planar.specs.Plane.{IsPlaced, IsReachable};
ghost use Rattle.real_copper.specs.Centres.{IsLawfulDraw};
ghost use Rattle.lengths.specs.Decimal.{units_in as of_unit};
ghost use Rattle.std.specs.Prelude.{◌≡◌, ◌≤◌, ◌^◌, not, int_lt, pos, IfSome};

use lengths::decimal::Unit;
use planar::{Spot, cross, dot, is_same};

/// A draw whose centre is looked for, in u. `decimals` and `unit` tell the step of its file.
#[derive(Clone, Copy)]
pub struct Draw {
    pub clockwise: bool,
    pub start: Spot,
    pub end: Spot,
    pub decimals: u8,
    pub unit: Unit,
}

/// The spot this way from another.
pub fn moved(a: Spot, way: Spot) -> Spot
    requires spot { IsPlaced a }
    requires way { IsPlaced way }
    ensures value { result ≡ spec.moved a way }
    ensures near { IsReachable result }
{
    Spot {
        x: a.x + way.x,
        y: a.y + way.y,
    }
}

fn span(a: Spot, b: Spot) -> u64
    requires a { IsReachable a }
    requires b { IsPlaced b }
    ensures value { result ≡ spec.span a b }
    ensures short { result ≤ 60_000_000_000 }
{
    b.x.abs_diff(a.x) + b.y.abs_diff(a.y)
}

fn units_in(unit: Unit) -> u128
    ensures value { result ≡ of_unit unit }
    ensures few { result ≤ 254_000_000 }
{
    match unit {
        Unit::Mm => 10_000_000,
        Unit::Inch => 254_000_000,
    }
}

fn steps_in(decimals: u8) -> u128
    requires { decimals ≤ 7 }
    ensures value { result ≡ 10 ^ decimals }
    ensures few { result ≤ 10_000_000 }
{
    match decimals {
        0 => 1,
        1 => 10,
        2 => 100,
        3 => 1_000,
        4 => 10_000,
        5 => 100_000,
        6 => 1_000_000,
        _ => 10_000_000,
    }
}

/// Whether so many square u are at most what a step of the file makes at ends that are `reach` u from a centre; a step is
/// `units` over `steps`.
fn is_little(over: u128, steps: u128, units: u128, reach: u64) -> bool
    requires steps { steps ≤ 10_000_000 }
    requires units { units ≤ 254_000_000 }
    requires reach { reach ≤ 120_000_000_000 }
    ensures { result ≡ spec.is_little over steps units reach }
{
    match over.checked_mul(steps * steps) {
        Some(over) => over <= units * (u128::from(reach) * steps + units),
        None => false,
    }
}

fn flip_x(way: Spot) -> Spot
    requires { IsPlaced way }
    ensures value { result ≡ spec.flip_x way }
    ensures placed { IsPlaced result }
{
    Spot {
        x: -way.x,
        y: way.y,
    }
}

fn flip_y(way: Spot) -> Spot
    requires { IsPlaced way }
    ensures value { result ≡ spec.flip_y way }
    ensures placed { IsPlaced result }
{
    Spot {
        x: way.x,
        y: -way.y,
    }
}

impl Draw {
    fn is_forward(&self, c: Spot) -> bool
        requires lawful { IsLawfulDraw self.now }
        requires centre { IsReachable c }
        ensures { result ≡ not (int_lt (spec.turn_about self.now c) (pos 0)) }
    {
        let turn = if self.clockwise {
            cross(c, self.end, self.start)
        } else {
            cross(c, self.start, self.end)
        };
        !(turn < 0)
    }

    fn is_wide(&self, c: Spot) -> bool
        requires lawful { IsLawfulDraw self.now }
        requires centre { IsReachable c }
        ensures { result ≡ spec.is_wide self.now c }
    {
        dot(c, self.start, self.end) < 0
    }

    fn is_nearly_right(&self, c: Spot) -> bool
        requires lawful { IsLawfulDraw self.now }
        requires centre { IsReachable c }
        ensures { result ≡ spec.is_nearly_right self.now c }
    {
        let over = dot(c, self.start, self.end).unsigned_abs();
        let reach = span(c, self.start) + span(c, self.end);
        is_little(over, steps_in(self.decimals), units_in(self.unit), reach)
    }

    fn is_quarter(&self, c: Spot) -> bool
        requires lawful { IsLawfulDraw self.now }
        requires centre { IsReachable c }
        ensures { result ≡ spec.is_quarter self.now c }
    {
        !self.is_wide(c) || self.is_nearly_right(c)
    }

    /// Whether a centre may be meant.
    fn is_fit(&self, c: Spot) -> bool
        requires lawful { IsLawfulDraw self.now }
        requires centre { IsReachable c }
        ensures { result ≡ spec.is_fit self.now c }
    {
        self.is_forward(c) && self.is_quarter(c)
    }

    /// By how much the squares of the distances of both ends from a centre differ, in square u.
    fn unlike(&self, c: Spot) -> u128
        requires lawful { IsLawfulDraw self.now }
        requires centre { IsReachable c }
        ensures { result ≡ spec.unlike self.now c }
    {
        let near = dot(c, self.start, self.start).unsigned_abs();
        let far = dot(c, self.end, self.end).unsigned_abs();
        near.abs_diff(far)
    }

    fn is_better(&self, a: Spot, b: Spot) -> bool
        requires lawful { IsLawfulDraw self.now }
        requires a { IsReachable a }
        requires b { IsReachable b }
        ensures { result ≡ spec.is_better self.now a b }
    {
        let unlike = self.unlike(a);
        let other = self.unlike(b);
        if unlike == other {
            !self.is_wide(a) && self.is_wide(b)
        } else {
            unlike < other
        }
    }

    /// Whether a centre that may be meant is better than another, if that is one.
    fn beats(&self, a: Spot, b: Spot) -> bool
        requires lawful { IsLawfulDraw self.now }
        requires a { IsReachable a }
        requires b { IsReachable b }
        ensures { result ≡ spec.beats self.now a b }
    {
        if is_same(a, b) || !self.is_fit(b) {
            return true;
        }
        self.is_better(a, b)
    }

    /// Whether a way leads to a centre that may be meant and beats those that lie the same way but for
    /// the signs.
    fn wins(&self, way: Spot) -> bool
        requires lawful { IsLawfulDraw self.now }
        requires way { IsPlaced way }
        ensures { result ≡ spec.wins self.now way }
    {
        let c = moved(self.start, way);
        if !self.is_fit(c) {
            return false;
        }
        self.beats(c, moved(self.start, flip_x(way)))
            && self.beats(c, moved(self.start, flip_y(way)))
            && self.beats(c, moved(self.start, flip_x(flip_y(way))))
    }

    /// The way to the centre that is meant, by one with any signs; none where there is no such centre.
    #[tactic(auto, unfolding(crate::specs::Centres::choice))]
    pub fn choice(&self, way: Spot) -> Option<Spot>
        requires lawful { IsLawfulDraw self.now }
        requires way { IsPlaced way }
        ensures value { result ≡ spec.choice self.now way }
        ensures placed { IfSome result IsPlaced }
    {
        if self.wins(way) {
            return Some(way);
        }
        if self.wins(flip_x(way)) {
            return Some(flip_x(way));
        }
        if self.wins(flip_y(way)) {
            return Some(flip_y(way));
        }
        if self.wins(flip_x(flip_y(way))) {
            return Some(flip_x(flip_y(way)));
        }
        None
    }
}
