//! The verdict on a board.
ghost use Rattle.board_shapes.specs.Plain.{plain_board};
ghost use Rattle.board_shapes.specs.Tables.{IsNear, IsTables};
ghost use Rattle.board_shapes.specs.Touching.{UnderAt};
ghost use Rattle.judge.specs.Judged.{AreLinesOn};
ghost use Rattle.std.specs.Prelude.{◌≡◌, ◌<◌, ◌^◌, length, map, All, IfOk, None};
ghost use Rattle.tables.specs.Lists.{AreLeast};
ghost use Rattle.tables.specs.Tables.{Tables};
ghost use Rattle.verdict.specs.Forest.{IsForest};
ghost use Rattle.verdict.specs.Right.{BeginsAtHome, HasBranches, IsRight, all_opens, all_shorts, outline};

use crate::marks::marks_of;
use crate::opens::opens_of;
use crate::points::{bare_of, lines_of};
use crate::seats::seats_of;
use crate::shorts::shorts_of;
use board_shapes::Board;
use lengths::rows::{NoMemory, Rows};
use lengths::text::Text;
use net_numbers::numbers_of;
use std::alloc::Global;
use verdict::{Open, PointLine, Short, Tree, Trees, Verdict};

/// The verdict on a board, with the handed-in trees as its nets. The trees are spanning trees of the board's nets, and
/// the homes are for each of its probes the least piece under it. The verdict has no supplement. A refusal drops what was
/// handed in.
pub fn judge(
    alloc: Global,
    board: &Board,
    homes: Rows<Option<u32>>,
    trees: Trees,
) -> Result<Verdict, NoMemory>
    requires trees { IsForest (length (plain_board board.now).pieces) (IsNear (plain_board board.now)) trees }
    requires homes { AreLeast (length (plain_board board.now).probes) (UnderAt (plain_board board.now)) homes }
    ensures right { IfOk result (λ v. (t : Tables) → IsTables (plain_board board.now) t → IsRight t v) }
    ensures nets { IfOk result (λ v. v.nets ≡ trees) }
    ensures more { IfOk result (λ v. v.more ≡ None) }
{
    let pieces = board.pieces().len();
    let nets = trees.as_slice();
    let rows = homes.as_slice();
    let names = copied(alloc, board.names())?;
    let points = lines_on(alloc, board, nets, rows)?;
    let lines = points.as_slice();
    let bare = bare_of(alloc, lines)?;
    let (opens, shorts) = findings(alloc, board, names.as_slice(), nets, rows, lines)?;
    Ok(Verdict {
        pieces: pieces as u32,
        names,
        nets: trees,
        points,
        opens,
        shorts,
        bare,
        more: None,
    })
}

// The lines of the board's probes, with the net of each home.
fn lines_on(
    alloc: Global,
    board: &Board,
    nets: &[Tree],
    homes: &[Option<u32>],
) -> Result<Rows<PointLine>, NoMemory>
    requires trees { IsForest (length (plain_board board.now).pieces) (IsNear (plain_board board.now)) nets.now }
    requires homes { AreLeast (length (plain_board board.now).probes) (UnderAt (plain_board board.now)) homes.now }
    ensures { IfOk result (AreLinesOn (plain_board board.now) nets.now homes.now) }
{
    let pieces = board.pieces();
    let numbers = numbers_of(alloc, nets, pieces.len())?;
    let lines = lines_of(alloc, board.probes(), homes, numbers.as_slice())?;
    Ok(lines)
}

// The opens and the shorts.
fn findings(
    alloc: Global,
    board: &Board,
    names: &[Text],
    nets: &[Tree],
    homes: &[Option<u32>],
    lines: &[PointLine],
) -> Result<(Rows<Open>, Rows<Short>), NoMemory>
    requires few { length names.now < 2 ^ 32 }
    requires names { names.now ≡ (plain_board board.now).names }
    requires trees { IsForest (length (plain_board board.now).pieces) (IsNear (plain_board board.now)) nets.now }
    requires homes { AreLeast (length (plain_board board.now).probes) (UnderAt (plain_board board.now)) homes.now }
    requires lines { AreLinesOn (plain_board board.now) nets.now homes.now lines.now }
    ensures opens { IfOk result (λ r. r.0 ≡ all_opens 0 names.now lines.now) }
    ensures outlines { IfOk result (λ r. map outline r.1 ≡ all_shorts 0 nets.now names.now lines.now) }
    ensures branches { IfOk result (λ r. All (HasBranches nets.now (BeginsAtHome homes.now) lines.now) r.1) }
{
    let pieces = board.pieces();
    let seats = seats_of(alloc, names.len(), lines)?;
    let groups = seats.as_slice();
    let opens = opens_of(alloc, names, groups)?;
    let marks = marks_of(alloc, nets.len(), groups)?;
    let table = marks.as_slice();
    let shorts = shorts_of(alloc, nets, table, pieces.len(), homes)?;
    Ok((opens, shorts))
}

// The same texts.
fn copied(alloc: Global, names: &[Text]) -> Result<Rows<Text>, NoMemory>
    ensures { IfOk result (λ copies. copies ≡ names.now) }
{
    let mut copies = Rows::with_capacity(alloc, names.len())?;
    for name in names {
        copies.push(name.clone()?)?;
    }
    Ok(copies)
}
