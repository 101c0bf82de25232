// Verdicts that nobody made with care, on a board of two discs that touch and one that stands apart.
ghost use Rattle.board_shapes.specs.Lawful.{IsOnLayers, IsProbe};
ghost use Rattle.contact.specs.Round.{IsCapsuleRadius};
ghost use Rattle.planar.specs.Plane.{IsPlaced};
ghost use Rattle.std.specs.Prelude.{◌≡◌, ◌+◌, ◌<◌, All, IfOk, length, pos};

use board_shapes::{Board, Origin, Piece, Placed, Probe, Shape};
use contact::Capsule;
use lengths::rows::{NoMemory, Rows};
use lengths::text::Text;
use planar::Spot;
use std::alloc::Global;
use std::test::Fail;
use verdict::{Verdict, read_report};
use witness_check::{Ruling, audit};

fn disc(at: Spot, r: i64) -> Piece
    requires placed { IsPlaced at }
    requires radius { IsCapsuleRadius r }
    ensures top { result.top ≡ 1 }
    ensures bottom { result.bottom ≡ 1 }
{
    Placed {
        shape: Shape::Round(Capsule::new(at, at, r)),
        top: 1,
        bottom: 1,
        origin: Origin {
            file: 0,
            command: 1,
            copy: 0,
        },
    }
}

// One disc more, of 10,000,000 u round (x, 0).
fn with_disc(mut pieces: Vec<Piece>, x: i64) -> Result<Vec<Piece>, NoMemory>
    requires placed { IsPlaced (record { x = x; y = pos 0 }) }
    requires spans { All (IsOnLayers 1) pieces.items }
    ensures many { IfOk result (λ more. length more.items ≡ length pieces.items + 1) }
    ensures spans { IfOk result (λ more. All (IsOnLayers 1) more.items) }
{
    pieces.push(disc(Spot { x, y: 0 }, 10_000_000))?;
    Ok(pieces)
}

// Discs round (0, 0), (20,000,000, 0) and (50,000,000, 0).
fn discs(alloc: Global) -> Result<Vec<Piece>, NoMemory>
    ensures many { IfOk result (λ pieces. length pieces.items ≡ 3) }
    ensures spans { IfOk result (λ pieces. All (IsOnLayers 1) pieces.items) }
{
    let one = with_disc(Vec::new(alloc), 0)?;
    let two = with_disc(one, 20_000_000)?;
    with_disc(two, 50_000_000)
}

fn probe(number: u32, x: i64, name: u32) -> Probe
    requires placed { IsPlaced (record { x = x; y = pos 0 }) }
    requires named { name < 2 }
    ensures { IsProbe 2 1 result }
{
    Probe {
        number,
        at: Spot { x, y: 0 },
        layer: 1,
        name,
    }
}

// A probe where the first two discs touch, one of another name in the second, and one where no copper is.
fn probes(alloc: Global) -> Result<Rows<Probe>, NoMemory>
    ensures many { IfOk result (λ probes. length probes ≡ 3) }
    ensures known { IfOk result (All (IsProbe 2 1)) }
{
    let mut probes = Rows::new(alloc);
    probes.push(probe(1, 10_000_000, 0))?;
    probes.push(probe(2, 25_000_000, 1))?;
    probes.push(probe(3, 90_000_000, 0))?;
    Ok(probes)
}

fn text(alloc: Global, bytes: &[u8]) -> Result<Text, NoMemory> {
    match Text::new(alloc, bytes) {
        Ok(text) => Ok(text),
        Err(_) => Err(NoMemory),
    }
}

fn names(alloc: Global) -> Result<Rows<Text>, NoMemory>
    ensures { IfOk result (λ names. length names ≡ 2) }
{
    let mut names = Rows::new(alloc);
    names.push(text(alloc, b"A")?)?;
    names.push(text(alloc, b"B")?)?;
    Ok(names)
}

// What stands in front of the nets of a report, and between them and its points.
const FRONT: &[u8] = b"boardnet 1\npieces 3\n";

const NAMES: &[u8] = b"names 2\nname 0 A\nname 1 B\n";

// The nets, the points, the findings and the supplement of the right report.
const NETS: &[u8] = b"nets 2\nnet 0 0 1:0\nnet 1 2\n";

const POINTS: &[u8] = b"points 3\npoint 0 1 1 0 0\npoint 1 2 1 1 0\npoint 2 3 1 0 -\n";

const FINDINGS: &[u8] =
    b"opens 0\nshorts 1\nshort 0 2\nbranch 0 0 0\nbranch 1 1 1 0\nmissing 1\nbare 2\n";

const MORE: &[u8] =
    b"spots 3\nspot 0 10000000 0\nspot 1 25000000 0\nspot 2 90000000 0\nsources 3\nsource 0 0 1 0 1 1\nsource 1 0 1 0 1 1\nsource 2 0 1 0 1 1\n";

// The parts of a report, and what the audit says of it.
#[derive(Clone, Copy)]
struct Case {
    front: &'static [u8],
    nets: &'static [u8],
    points: &'static [u8],
    findings: &'static [u8],
    more: &'static [u8],
    ruling: Ruling,
}

// The right report but for its nets and points, and the clause that does not hold.
macro_rules! wrong {
    ($nets:expr, $points:expr, $clause:expr $(,)?) => {
        Case {
            front: FRONT,
            nets: $nets,
            points: $points,
            findings: FINDINGS,
            more: b"",
            ruling: Ruling::Untrue($clause),
        }
    };
}

// The right report but for what is not nets and points.
macro_rules! part {
    ($front:expr, $findings:expr, $more:expr, $ruling:expr $(,)?) => {
        Case {
            front: $front,
            nets: NETS,
            points: POINTS,
            findings: $findings,
            more: $more,
            ruling: $ruling,
        }
    };
}

const NONE: &[u8] = b"points 0\n";

const SECOND: &[u8] = b"boardnet 2\npieces 3\n";

const MANY: &[u8] = b"boardnet 2\npieces 4\n";

// The last disc is another copy, and then the second probe is elsewhere too.
const COPIED: &[u8] =
    b"spots 3\nspot 0 10000000 0\nspot 1 25000000 0\nspot 2 90000000 0\nsources 3\nsource 0 0 1 0 1 1\nsource 1 0 1 0 1 1\nsource 2 0 1 1 1 1\n";

const MOVED: &[u8] =
    b"spots 3\nspot 0 10000000 0\nspot 1 -25000000 0\nspot 2 90000000 0\nsources 3\nsource 0 0 1 0 1 1\nsource 1 0 1 0 1 1\nsource 2 0 1 1 1 1\n";

static CASES: [Case; 27] = [
    // no nets, an empty net, parents in a circle, its own parent, and that again
    wrong!(b"nets 0\n", NONE, 2),
    wrong!(b"nets 3\nnet 0\nnet 1 0 1:0\nnet 2 2\n", NONE, 1),
    wrong!(b"nets 1\nnet 0 0 1:2 2:1\n", NONE, 1),
    wrong!(b"nets 2\nnet 0 0 1:1\nnet 1 2\n", NONE, 1),
    wrong!(b"nets 2\nnet 0 0 1:0 1:1\nnet 1 2\n", NONE, 1),
    // a parent of another net, one that does not touch, and one past the board
    wrong!(b"nets 3\nnet 0 0\nnet 1 1 1:0\nnet 2 2\n", NONE, 1),
    wrong!(b"nets 1\nnet 0 0 1:0 2:1\n", NONE, 1),
    wrong!(b"nets 1\nnet 0 0 1:4294967295\n", NONE, 1),
    // past the board, and far past it
    wrong!(b"nets 1\nnet 0 0 3:0\n", NONE, 1),
    wrong!(b"nets 1\nnet 0 4294967295\n", NONE, 1),
    // the first is not the least, and equal first pieces
    wrong!(b"nets 2\nnet 0 1 0:1\nnet 1 2\n", NONE, 1),
    wrong!(b"nets 3\nnet 0 0 1:0\nnet 1 0\nnet 2 2\n", NONE, 1),
    // a piece twice, the first piece twice, a piece of two nets, and a net in two
    wrong!(b"nets 2\nnet 0 0 1:0 1:0\nnet 1 2\n", NONE, 2),
    wrong!(b"nets 2\nnet 0 0 1:0 0:1\nnet 1 2\n", NONE, 2),
    wrong!(b"nets 3\nnet 0 0 1:0\nnet 1 1\nnet 2 2\n", NONE, 2),
    wrong!(b"nets 3\nnet 0 0\nnet 1 1\nnet 2 2\n", NONE, 3),
    // a net that is not there, and a line too few
    wrong!(
        NETS,
        b"points 3\npoint 0 1 1 0 9\npoint 1 2 1 1 0\npoint 2 3 1 0 -\n",
        4,
    ),
    wrong!(NETS, b"points 2\npoint 0 1 1 0 0\npoint 1 2 1 1 0\n", 4),
    // right, and then spoilt at one part more a row
    part!(FRONT, FINDINGS, b"", Ruling::True),
    part!(SECOND, FINDINGS, MORE, Ruling::True),
    part!(SECOND, FINDINGS, COPIED, Ruling::Untrue(11)),
    part!(SECOND, FINDINGS, MOVED, Ruling::Untrue(10)),
    part!(MANY, FINDINGS, MOVED, Ruling::Untrue(9)),
    part!(
        MANY,
        b"opens 0\nshorts 1\nshort 0 2\nbranch 0 0 0\nbranch 1 1 1 0\nmissing 2\nbare 0\nbare 2\n",
        MOVED,
        Ruling::Untrue(8),
    ),
    part!(
        MANY,
        b"opens 0\nshorts 1\nshort 0 2\nbranch 0 0 0\nbranch 1 1 1\nmissing 2\nbare 0\nbare 2\n",
        MOVED,
        Ruling::Untrue(7),
    ),
    part!(
        MANY,
        b"opens 0\nshorts 0\nmissing 2\nbare 0\nbare 2\n",
        MOVED,
        Ruling::Untrue(6),
    ),
    part!(
        MANY,
        b"opens 1\nopen 0 0 1 2\nshorts 0\nmissing 2\nbare 0\nbare 2\n",
        MOVED,
        Ruling::Untrue(5),
    ),
];

// The verdict of a report that differs.
fn verdict(alloc: Global, case: &Case) -> Result<Verdict, Fail> {
    let mut text = Vec::new(alloc);
    for bytes in [
        case.front,
        case.nets,
        NAMES,
        case.points,
        case.findings,
        case.more,
        b"differs\n",
    ] {
        text.extend_from_slice(bytes)?;
    }
    match read_report(alloc, text.as_slice()) {
        Ok(verdict) => Ok(verdict),
        Err(_) => Err("no report".into()),
    }
}

#[test]
fn verdicts_from_anywhere(rt: HostRuntime) -> Result<(), Fail> {
    let alloc = rt.alloc();
    let board = Board::new(discs(alloc)?, probes(alloc)?, names(alloc)?, 1).expect(&rt, "a board");
    for (k, case) in CASES.iter().enumerate() {
        let v = verdict(alloc, case)?;
        assert_eq!(rt; audit(alloc, &board, &v)?, case.ruling, "case {k}");
    }
    Ok(())
}
