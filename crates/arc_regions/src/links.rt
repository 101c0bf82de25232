//! Whether a chain goes round an odd number of times.
ghost use Rattle.arc_regions.specs.Taken.{is_past, odd_past, odd_round};
ghost use Rattle.planar.specs.Plane.{IsPlaced, cross_of};
ghost use Rattle.std.specs.Prelude.{All, int_lt, pos, ◌≡◌};

use planar::{Spot, cross};

/// Whether `a` is on the right of the line from `c` through `s`.
fn is_right(c: Spot, s: Spot, a: Spot) -> bool
    requires c_placed { IsPlaced c }
    requires s_placed { IsPlaced s }
    requires a_placed { IsPlaced a }
    ensures { result ≡ int_lt (cross_of c s a) (pos 0) }
{
    cross(c, s, a) < 0
}

/// Whether the link goes past the direction of `s` from `c`, or comes to it.
fn goes_past(c: Spot, s: Spot, a: Spot, b: Spot) -> bool
    requires c_placed { IsPlaced c }
    requires s_placed { IsPlaced s }
    requires a_placed { IsPlaced a }
    requires b_placed { IsPlaced b }
    ensures { result ≡ is_past c s a b }
{
    is_right(c, s, a) && !is_right(c, s, b)
}

/// Whether an odd number of the links from `start` do.
fn past_odd(c: Spot, s: Spot, start: Spot, rest: &[Spot]) -> bool
    requires c_placed { IsPlaced c }
    requires s_placed { IsPlaced s }
    requires start_placed { IsPlaced start }
    requires rest_placed { All IsPlaced rest.now }
    ensures { result ≡ odd_past c s start rest.now }
{
    let mut odd = false;
    let mut from = start;
    for to in rest {
        let past = goes_past(c, s, from, *to);
        odd = odd != past;
        from = *to;
    }
    odd
}

/// Whether an odd number of the links go past the direction of the first spot of the chain.
pub fn is_odd_round(c: Spot, chain: &[Spot]) -> bool
    requires c_placed { IsPlaced c }
    requires placed { All IsPlaced chain.now }
    ensures { result ≡ odd_round c chain.now }
{
    match chain {
        [] => false,
        [first, rest @ ..] => past_odd(c, *first, *first, rest),
    }
}
