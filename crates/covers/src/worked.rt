//! A worked case: half discs whose radius is the square root of 2, which no type of ours holds, between discs of radius 1 and 2.
//!
//! On layer 1 two test points of one name stand on a left and a right half disc, which touch; on layer 2, between
//! them, one of another name stands on a disc.
ghost use Rattle.covers.specs.Agreeing.{AgreesWithNames};
ghost use Rattle.covers.specs.Covering.{Covers};
ghost use Rattle.covers.specs.Worked.{discs, halves, inner, outer, whole};

use crate::Copper;
use crate::laws::bounds_agree;

/// The discs below.
struct Inner;

/// The half discs between.
struct Halves;

/// The discs above.
struct Outer;

impl Copper for Inner {
    ghost holds = { inner };
}

impl Copper for Halves {
    ghost holds = { halves };
}

impl Copper for Outer {
    ghost holds = { outer };
}

/// The discs of radius 1 are covered by the half discs, and these by the discs of radius 2; so the
/// board of half discs agrees with its names.
pub fn half_discs_agree()
    ensures below { Covers inner whole halves discs }
    ensures above { Covers halves discs outer whole }
    ensures agrees { AgreesWithNames halves discs }
{
    bounds_agree::<Inner, Halves, Outer>();
}
