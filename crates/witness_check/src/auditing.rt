//! The tests of a verdict, in the order of its clauses.
ghost use Rattle.board_shapes.specs.Plain.{plain_board};
ghost use Rattle.board_shapes.specs.Tables.{IsNear, IsTables};
ghost use Rattle.board_shapes.specs.Touching.{UnderAt};
ghost use Rattle.std.specs.Prelude.{[], ◌≡◌, ◌<◌, All, IfOk, length};
ghost use Rattle.tables.specs.Tables.{Tables};
ghost use Rattle.verdict.specs.Forest.{AreTrees, IsForest};
ghost use Rattle.witness_check.specs.Asked.{AreTested};
ghost use Rattle.witness_check.specs.Homes.{AreHomes};
ghost use Rattle.witness_check.specs.Lines.{AreLinesBy};
ghost use Rattle.witness_check.specs.Nets.{HasStanding};
ghost use Rattle.witness_check.specs.Ruled.{Rules};
ghost use Rattle.witness_check.specs.Strips.{AreIntervals};

use crate::counts::counts_hold;
use crate::findings::findings_ruling;
use crate::least::homes_under;
use crate::nets::{Standing, are_trees, standing_of};
use crate::points::{bare_holds, points_hold};
use crate::strips::{Strips, strips_of};
use crate::supplements::supplement_ruling;
use crate::sweep::stand_apart;
use board_shapes::{Board, laws as shapes};
use lengths::rows::NoMemory;
use std::alloc::Global;
use std::marker::Brand;
use std::sync::ledger::{Blank, Ledger};
use steps::Steps;
use verdict::Verdict;

/// What an audit says.
#[derive(Clone, Copy, Debug, PartialEq, Eq)]
pub enum Ruling {
    /// The verdict is right.
    True,
    /// The verdict is not right: the number, from 1 to 11, of the first clause that does not hold.
    Untrue(u8),
}

/// Whether a verdict, of which nothing need hold, is right for the board. A clause that speaks of a part that is not
/// there does not hold.
pub fn audit(alloc: Global, board: &Board, v: &Verdict) -> Result<Ruling, NoMemory>
    ensures { IfOk result (λ ruling. (t : Tables) → IsTables (plain_board board.now) t → Rules t v.now ruling) }
{
    with_counter::<Brand>(alloc, board, v, Blank::new(1))
}

// The same, with a counter of its own.
fn with_counter<L: Ledger>(
    alloc: Global,
    board: &Board,
    v: &Verdict,
    blank: Blank,
) -> Result<Ruling, NoMemory>
    requires name { blank.name ≡ L.name }
    requires parts { blank.parts ≡ L.parts }
    requires some { 0 < blank.parts }
    ensures { IfOk result (λ ruling. (t : Tables) → IsTables (plain_board board.now) t → Rules t v.now ruling) }
{
    let mut tests = Steps::<L>::new(blank);
    ruling_of(alloc, board, v, &mut tests)
}

/// The same. One tick of `tests` is one contact test: there is at most one for each twig of the verdict's nets, and one for
/// each pair of pieces that come together in the strips.
pub fn ruling_of<L: Ledger>(
    alloc: Global,
    board: &Board,
    v: &Verdict,
    tests: &mut Steps<L>,
) -> Result<Ruling, NoMemory>
    ensures rules { IfOk result (λ ruling. (t : Tables) → IsTables (plain_board board.now) t → Rules t v.now ruling) }
    ensures tests { AreTested (plain_board board.now) v.now.nets tests.old tests.new }
{
    let nets = v.nets.as_slice();
    let pieces = board.pieces().len();
    if !are_trees(alloc, board, nets, tests)? {
        return Ok(Ruling::Untrue(1));
    }
    let Some(standing) = standing_of(alloc, nets, pieces)? else {
        return Ok(Ruling::Untrue(2));
    };
    apart_ruling(alloc, board, v, &standing, tests)
}

// The ruling where the nets are trees and each piece stands once in one of them.
fn apart_ruling<L: Ledger>(
    alloc: Global,
    board: &Board,
    v: &Verdict,
    standing: &Standing,
    tests: &mut Steps<L>,
) -> Result<Ruling, NoMemory>
    requires trees { AreTrees (length (plain_board board.now).pieces) (IsNear (plain_board board.now)) v.now.nets }
    requires stood { HasStanding (length (plain_board board.now).pieces) v.now.nets standing.now.numbers.items standing.now.places.items }
    ensures rules { IfOk result (λ ruling. (t : Tables) → IsTables (plain_board board.now) t → Rules t v.now ruling) }
    ensures tests { AreTested (plain_board board.now) [] tests.old tests.new }
{
    let nets = v.nets.as_slice();
    let numbers = standing.numbers.as_slice();
    let strips = strips_of(alloc, board)?;
    if !stand_apart(board, nets, numbers, &strips, tests) {
        return Ok(Ruling::Untrue(3));
    }
    points_ruling(alloc, board, v, &strips, standing)
}

// The ruling where the clauses on nets hold. The call of a law does nothing when the program runs.
fn points_ruling(
    alloc: Global,
    board: &Board,
    v: &Verdict,
    strips: &Strips,
    standing: &Standing,
) -> Result<Ruling, NoMemory>
    requires strips { AreIntervals (plain_board board.now) strips.now.height strips.now.intervals.items }
    requires forest { IsForest (length (plain_board board.now).pieces) (IsNear (plain_board board.now)) v.now.nets }
    requires stood { HasStanding (length (plain_board board.now).pieces) v.now.nets standing.now.numbers.items standing.now.places.items }
    ensures { IfOk result (λ ruling. (t : Tables) → IsTables (plain_board board.now) t → Rules t v.now ruling) }
{
    shapes::tables_are_unique();
    let numbers = standing.numbers.as_slice();
    let lines = v.points.as_slice();
    let shorts = v.shorts.as_slice();
    let under = homes_under(alloc, board, strips, shorts)?;
    let homes = under.as_slice();
    if !points_hold(board.probes(), homes, numbers, lines) {
        return Ok(Ruling::Untrue(4));
    }
    lists_ruling(alloc, board, v, standing, homes)
}

// The ruling where the clauses on nets and points hold.
fn lists_ruling(
    alloc: Global,
    board: &Board,
    v: &Verdict,
    standing: &Standing,
    homes: &[Option<u32>],
) -> Result<Ruling, NoMemory>
    requires forest { IsForest (length (plain_board board.now).pieces) (IsNear (plain_board board.now)) v.now.nets }
    requires stood { HasStanding (length (plain_board board.now).pieces) v.now.nets standing.now.numbers.items standing.now.places.items }
    requires under { AreHomes (length (plain_board board.now).probes) (UnderAt (plain_board board.now)) v.now.shorts homes.now }
    requires lines { AreLinesBy standing.now.numbers.items (plain_board board.now).probes homes.now v.now.points }
    requires named { All (λ line. line.name < length (plain_board board.now).names) v.now.points }
    ensures { IfOk result (λ ruling. (t : Tables) → IsTables (plain_board board.now) t → Rules t v.now ruling) }
{
    let pieces = board.pieces().len();
    let places = standing.places.as_slice();
    if let Some(number) = findings_ruling(alloc, board.names(), places, homes, v)? {
        return Ok(Ruling::Untrue(number));
    }
    if !bare_holds(v.points.as_slice(), v.bare.as_slice()) {
        return Ok(Ruling::Untrue(8));
    }
    if !counts_hold(pieces, board.names(), v.pieces, v.names.as_slice()) {
        return Ok(Ruling::Untrue(9));
    }
    if let Some(clause) = supplement_ruling(board, &v.more) {
        return Ok(Ruling::Untrue(clause));
    }
    Ok(Ruling::True)
}
