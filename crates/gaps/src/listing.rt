//! The list of the gaps of a board.
ghost use Rattle.board_shapes.specs.CommonBox.{Fits};
ghost use Rattle.board_shapes.specs.Plain.{plain_board};
ghost use Rattle.board_shapes.specs.Shapes.{InShape, shape_box};
ghost use Rattle.board_shapes.specs.Tables.{IsNear};
ghost use Rattle.cell_index.specs.Among.{TouchAmong};
ghost use Rattle.contact.specs.Solid.{IsInside};
ghost use Rattle.gaps.specs.Firsts.{AreFirsts};
ghost use Rattle.gaps.specs.Gaps.{AreGaps, CloseAt};
ghost use Rattle.gaps.specs.Grown.{Grown, wider_box};
ghost use Rattle.gaps.specs.GrownBox.{IsGapFault, grown_box, grown_common};
ghost use Rattle.gaps.specs.Meetings.{IsFieldLine};
ghost use Rattle.gaps.specs.declared.TheConstants.{MOST_NANOMETRES};
ghost use Rattle.std.specs.Prelude.{All, IfErr, IfOk, length, pos, ◌*◌, ◌+ℤ◌, ◌<◌, ◌^◌, ◌≡◌, ◌≤◌};
ghost use Rattle.verdict.specs.Forest.{IsForest};

use super::Fat;
use super::fats::{fats_of, spans_of};
use super::gap::Gap;
use super::grown_box::{common, frame_for};
use super::meetings::{Span, meetings};
use board_shapes::{Board, Placed};
use cell_index::Cells;
use contact::Bounds;
use lengths::rows::{NoMemory, Rows};
use net_numbers::numbers_of;
use planar::Frame;
use std::alloc::Global;
use std::marker::Brand;
use std::sync::ledger::{Blank, Ledger};
use steps::Steps;
use verdict::{Tree, Trees};

/// Why there is no list of gaps.
#[derive(Clone, Copy, Debug, PartialEq, Eq)]
pub enum GapFault {
    /// The common box of all grown shapes, which this is, in u, has a side over 1 m.
    FrameTooLarge(Bounds),
    /// Memory is wanted.
    NoMemory,
}

impl From<NoMemory> for GapFault {
    ghost use Rattle.gaps.specs.declared.listing.GapFault.TheVariants as fault;

    ghost from_gives = { λ _ e. e ≡ fault.NoMemory };

    fn from(_: NoMemory) -> GapFault {
        GapFault::NoMemory
    }
}

/// The gaps between the nets of a board: for each layer, each two nets of which pieces are at most
/// this distance apart on the layer, with the least such pieces. The trees are spanning trees of
/// the board's nets. `nanometres` is at most 10,000,000.
///
/// `FrameTooLarge` comes exactly where the box of all pieces, each grown by half the distance, has
/// a side over 1 m: that is judged before memory is taken. Behind it `NoMemory` may come at any board.
pub fn gaps(
    alloc: Global,
    board: &Board,
    nets: &Trees,
    nanometres: u32,
) -> Result<Rows<Gap>, GapFault>
    requires trees { IsForest (length (plain_board board.now).pieces) (IsNear (plain_board board.now)) nets.now }
    requires most { nanometres ≤ MOST_NANOMETRES }
    ensures list { IfOk result (AreGaps (CloseAt (plain_board board.now) (pos (10 * nanometres))) nets.now) }
    ensures fits { IfOk result (λ list. Fits (grown_common (pos (5 * nanometres)) (plain_board board.now).pieces)) }
    ensures fault { IfErr result (IsGapFault (grown_common (pos (5 * nanometres)) (plain_board board.now).pieces)) }
{
    let grow = 5 * nanometres;
    let frame = frame_for(common(board.pieces(), grow))?;
    let list = gaps_in::<Brand>(alloc, board, nets.as_slice(), grow, frame, Blank::new(1))?;
    Ok(list)
}

/// The gaps at twice the growth, found in a frame in which all grown pieces lie.
fn gaps_in<L: Ledger>(
    alloc: Global,
    board: &Board,
    nets: &[Tree],
    grow: u32,
    frame: Frame,
    blank: Blank,
) -> Result<Rows<Gap>, NoMemory>
    requires name { blank.name ≡ L.name }
    requires parts { blank.parts ≡ L.parts }
    requires some { 0 < blank.parts }
    requires trees { IsForest (length (plain_board board.now).pieces) (IsNear (plain_board board.now)) nets.now }
    requires growth { grow ≤ 50_000_000 }
    requires inside { All (λ p. IsInside (grown_box (pos grow) p) frame) (plain_board board.now).pieces }
    ensures { IfOk result (AreGaps (CloseAt (plain_board board.now) (pos grow +ℤ pos grow)) nets.now) }
{
    let pieces = board.pieces();
    let numbers = numbers_of(alloc, nets, pieces.len())?;
    let spans = spans_of(alloc, pieces)?;
    let fats = fats_of(alloc, pieces, grow)?;
    met_in::<L>(alloc, &fats, frame, &numbers, &spans, blank)
}

/// The least lines of grown pieces that touch, found in a frame in which all of them lie.
fn met_in<L: Ledger>(
    alloc: Global,
    fats: &[Placed<Fat>],
    frame: Frame,
    numbers: &[u32],
    spans: &[Span],
    blank: Blank,
) -> Result<Rows<Gap>, NoMemory>
    requires name { blank.name ≡ L.name }
    requires parts { blank.parts ≡ L.parts }
    requires some { 0 < blank.parts }
    requires few { length fats.now < 2 ^ 32 }
    requires inside { All (λ f. IsInside (wider_box (shape_box f.shape.shape.now) f.shape.grow) frame) fats.now }
    requires numbered { length numbers.now ≡ length fats.now }
    requires spanned { length spans.now ≡ length fats.now }
    ensures { IfOk result (AreFirsts (IsFieldLine (length fats.now) (TouchAmong (λ f p. Grown (InShape f.shape.now) f.grow p) fats.now) numbers.now spans.now)) }
{
    let field = Cells::for_search(alloc, fats, frame)?;
    let mut tests = Steps::<L>::new(blank);
    let least = meetings(alloc, &field, numbers, spans, &mut tests)?;
    rows(alloc, &least)
}

/// The same lines.
fn rows(alloc: Global, lines: &[Gap]) -> Result<Rows<Gap>, NoMemory>
    ensures { IfOk result (λ rows. rows ≡ lines.now) }
{
    let mut rows = Rows::new(alloc);
    for line in lines {
        rows.push(*line)?;
    }
    Ok(rows)
}
