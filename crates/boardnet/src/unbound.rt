//! Why two boards are no bounds of a real one, and the line of each reason.
ghost use Rattle.arc_covers.specs.Faults.{on_side};
ghost use Rattle.boardnet.specs.Bounded.{piece_line, unbound_line};
ghost use Rattle.reports.specs.Lines.{Says};
ghost use Rattle.std.specs.Prelude.{codes, ◌≡◌};

use arc_covers::Side;
use board_io::Sink;
use board_shapes::Origin;
use reports::lines;
use texts::Numeral;

/// Why two boards are no bounds of a real one.
#[derive(Clone, Copy)]
pub enum Unbound {
    /// The line of that number, from 1, of the file of counts is of another form.
    NotCounts(usize),
    /// The board of that side has other test points, names or layers than the real one.
    Netlist(Side),
    /// The counts of that side do not add up.
    Counts(Side),
    /// What is counted on that side to the real piece that was made there is not taken for it.
    Piece { side: Side, origin: Origin },
}

impl Unbound {
    /// Puts the line of the reason, by the names of the real manifest and of the file of counts.
    pub fn put<N: Sink>(self, real: &str, counts: &str, notes: &mut N)
        ensures { Says N.got N.faults notes.old notes.new (unbound_line real.now counts.now self) }
    {
        let real = real.as_bytes();
        let counts = counts.as_bytes();
        match self {
            Unbound::NotCounts(line) => lines::not_counts(notes, counts, line),
            Unbound::Netlist(side) => lines::about_file(notes, real, other_netlist(side)),
            Unbound::Counts(side) => lines::about_file(notes, counts, other_counts(side)),
            Unbound::Piece { side, origin } => put_piece(real, not_bounded(side), origin, notes),
        }
    }
}

fn other_netlist(side: Side) -> &'static [u8]
    ensures { result.now ≡ on_side side (codes "lower board has other test points, names or layers") (codes "upper board has other test points, names or layers") }
{
    match side {
        Side::Below => b"lower board has other test points, names or layers",
        Side::Above => b"upper board has other test points, names or layers",
    }
}

fn other_counts(side: Side) -> &'static [u8]
    ensures { result.now ≡ on_side side (codes "counts below do not add up") (codes "counts above do not add up") }
{
    match side {
        Side::Below => b"counts below do not add up",
        Side::Above => b"counts above do not add up",
    }
}

fn not_bounded(side: Side) -> &'static [u8]
    ensures { result.now ≡ on_side side (codes ": not bounded below") (codes ": not bounded above") }
{
    match side {
        Side::Below => b": not bounded below",
        Side::Above => b": not bounded above",
    }
}

// Puts the line of a real piece, with what is said of it.
fn put_piece<'a, N: Sink>(real: &'a [u8], what: &'a [u8], origin: Origin, notes: &mut N)
    ensures { Says N.got N.faults notes.old notes.new (piece_line real.now what.now origin) }
{
    lines::put_all(
        notes,
        &[
            b"boardnet: ",
            real,
            b": file ",
            Numeral::of(u64::from(origin.file)).as_bytes(),
            b", command ",
            Numeral::of(u64::from(origin.command)).as_bytes(),
            b", copy ",
            Numeral::of(u64::from(origin.copy)).as_bytes(),
            what,
            b"\n",
        ],
    );
}
