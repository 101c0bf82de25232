//! Laws over boards whose copper is any set of points. Their calls do nothing.
ghost use Rattle.board_shapes.specs.Plain.{PlainBoard};
ghost use Rattle.covers.specs.Agreeing.{AgreesWithNames};
ghost use Rattle.covers.specs.Boards.{Layout};
ghost use Rattle.covers.specs.Laws.{BoundsAgree, CoversKeepJoins, Decides, IsBetween};
ghost use Rattle.std.specs.Prelude.{[], ◌≡◌};
ghost use Rattle.verdict.specs.declared.verdict.Verdict.{Verdict};

use crate::Copper;
use board_shapes::laws::tables_are_unique;
use witness_check::laws::boards_have_the_laws;

/// On a board that covers another, test points are joined that are joined on the other, and each has
/// copper that has copper there.
pub fn covers_keep_joins<B: Copper, C: Copper>()
    ensures { CoversKeepJoins B.holds C.holds }
{}

/// A board agrees with its names where a board that it covers has no opens and no missing points, and
/// one that covers it no shorts.
pub fn bounds_agree<L: Copper, R: Copper, U: Copper>()
    ensures { BoundsAgree L.holds R.holds U.holds }
{
    covers_keep_joins::<L, R>();
    covers_keep_joins::<R, U>();
}

/// What right verdicts on two boards that the program can read say of a board with any copper between
/// them. It agrees with its names where the verdict below has no opens and no missing points and
/// the one above no shorts. What is on one net below is joined, what is joined is on one net above,
/// and a point without a net above has no copper.
pub fn verdicts_decide<R: Copper>()
    ensures agrees { (lower upper : PlainBoard) (v w : Verdict) (real : Layout) → IsBetween lower upper v w R.holds real → v.opens ≡ [] → v.bare ≡ [] → w.shorts ≡ [] → AgreesWithNames R.holds real }
    ensures decides { (lower upper : PlainBoard) (v w : Verdict) (real : Layout) → IsBetween lower upper v w R.holds real → Decides v w R.holds real }
{
    tables_are_unique();
    boards_have_the_laws();
}
