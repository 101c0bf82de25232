//! The line to the notes, put in pieces and without memory.
ghost use Rattle.reports.specs.Lines.{Gains, Rose, Says, at_byte, at_item, counted_line, end, file_line, findings_line, frame_behind, frame_line, kind_line, label_line, manifest_frame_line, plain_line};
ghost use Rattle.reports.specs.Lines.{not_counts_line};
ghost use Rattle.std.specs.List.{concat, flat_map};
ghost use Rattle.std.specs.Prelude.{[], codes, false, true, ◌++◌, ◌∷◌, ◌≡◌};

use board_io::{Put, Sink};
use contact::Bounds;
use texts::Numeral;

/// Puts the pieces of a line one by one, as long as none fails, and answers whether all were put.
pub fn put_all<N: Sink>(notes: &mut N, pieces: &[&[u8]]) -> bool
    ensures says { Says N.got N.faults notes.old notes.new (flat_map (λ piece. piece.now) pieces.now) }
    ensures whole { result ≡ true → Gains (N.got notes.old) (flat_map (λ piece. piece.now) pieces.now) (N.got notes.new) × (N.faults notes.new ≡ N.faults notes.old) }
    ensures cut { result ≡ false → Rose (N.faults notes.old) (N.faults notes.new) }
{
    for piece in pieces {
        if notes.put(*piece) == Put::Failed {
            return false;
        }
    }
    true
}

/// Puts a line of a few words.
pub fn plain<N: Sink>(notes: &mut N, what: &[u8])
    ensures { Says N.got N.faults notes.old notes.new (plain_line what.now) }
{
    put_all(notes, &[b"boardnet: ", what, b"\n"]);
}

/// Puts the line of a word and of how many findings are listed.
pub fn findings<N: Sink>(notes: &mut N, what: &[u8], opens: usize, shorts: usize, missing: usize)
    ensures { Says N.got N.faults notes.old notes.new (findings_line what.now opens shorts missing) }
{
    put_all(
        notes,
        &[
            b"boardnet: ",
            what,
            b", opens ",
            Numeral::of(opens as u64).as_bytes(),
            b", shorts ",
            Numeral::of(shorts as u64).as_bytes(),
            b", missing ",
            Numeral::of(missing as u64).as_bytes(),
            b"\n",
        ],
    );
}

/// Puts a line of a few words and a number.
pub fn counted<N: Sink>(notes: &mut N, what: &[u8], number: u64)
    ensures { Says N.got N.faults notes.old notes.new (counted_line what.now number) }
{
    put_all(
        notes,
        &[b"boardnet: ", what, Numeral::of(number).as_bytes(), b"\n"],
    );
}

/// Puts a line about a file.
pub fn about_file<N: Sink>(notes: &mut N, file: &[u8], what: &[u8])
    ensures { Says N.got N.faults notes.old notes.new (file_line file.now what.now) }
{
    put_all(notes, &[b"boardnet: ", file, b": ", what, b"\n"]);
}

/// A kind of refusal: the form of the file, and the number and the name of the kind.
#[derive(Clone, Copy)]
pub struct Kind<'a> {
    pub form: &'a str,
    pub number: u32,
    pub name: &'a str,
}

/// Puts the line of a refusal of a file at an item, a command or a line, and its first byte.
pub fn refused_at_byte<N: Sink>(
    notes: &mut N,
    file: &[u8],
    kind: Kind,
    item: &[u8],
    number: u32,
    byte: usize,
)
    ensures { Says N.got N.faults notes.old notes.new (kind_line file.now kind.entry.form.now kind.entry.number kind.entry.name.now (at_byte item.now number byte)) }
{
    let number = Numeral::of(u64::from(number));
    let byte = Numeral::of(byte as u64);
    put_kind(notes, file, kind, &pieces_at(item, &number, &byte));
}

// The pieces of a place in a file: an item, its number and its first byte.
fn pieces_at<'a>(item: &'a [u8], number: &'a Numeral, byte: &'a Numeral) -> [&'a [u8]; 6]
    ensures { flat_map (λ piece. piece.now) result ≡ concat (item.now ∷ codes " " ∷ number.now ∷ codes ", byte " ∷ byte.now ∷ end ∷ []) }
{
    [
        item,
        b" ",
        number.as_bytes(),
        b", byte ",
        byte.as_bytes(),
        b"\n",
    ]
}

/// Puts the line of a refusal of a file at an item alone, as a netlist has it.
pub fn refused_at<N: Sink>(notes: &mut N, file: &[u8], kind: Kind, item: &[u8], number: u32)
    ensures { Says N.got N.faults notes.old notes.new (kind_line file.now kind.entry.form.now kind.entry.number kind.entry.name.now (at_item item.now number)) }
{
    let number = Numeral::of(u64::from(number));
    put_kind(notes, file, kind, &[item, b" ", number.as_bytes(), b"\n"]);
}

// Puts the line of a refusal of a file, which ends with its place in the file.
fn put_kind<'a, N: Sink>(notes: &mut N, file: &'a [u8], kind: Kind<'a>, place: &[&[u8]])
    ensures { Says N.got N.faults notes.old notes.new (kind_line file.now kind.entry.form.now kind.entry.number kind.entry.name.now (flat_map (λ piece. piece.now) place.now)) }
{
    let number = Numeral::of(u64::from(kind.number));
    put_both(
        notes,
        &[
            b"boardnet: ",
            file,
            b": ",
            kind.form.as_bytes(),
            b" ",
            number.as_bytes(),
            b" ",
            kind.name.as_bytes(),
            b" at ",
        ],
        place,
    );
}

// Puts the pieces of a line in two parts.
fn put_both<N: Sink>(notes: &mut N, head: &[&[u8]], place: &[&[u8]])
    ensures { Says N.got N.faults notes.old notes.new (flat_map (λ piece. piece.now) head.now ++ flat_map (λ piece. piece.now) place.now) }
{
    let whole = put_all(notes, head);
    if !whole {
        return;
    }
    put_all(notes, place);
}

/// Puts the line of a label of a copper file that is amiss, at a command and its first byte.
pub fn mislabelled<N: Sink>(notes: &mut N, file: &[u8], command: u32, byte: usize)
    ensures { Says N.got N.faults notes.old notes.new (label_line file.now command byte) }
{
    let number = Numeral::of(u64::from(command));
    let byte = Numeral::of(byte as u64);
    let place = pieces_at(b"command", &number, &byte);
    put_both(notes, &[b"boardnet: ", file, b": label at "], &place);
}

/// Puts the line of a file of counts that is none, at the number of a line.
pub fn not_counts<N: Sink>(notes: &mut N, file: &[u8], line: usize)
    ensures { Says N.got N.faults notes.old notes.new (not_counts_line file.now line) }
{
    put_all(
        notes,
        &[
            b"boardnet: ",
            file,
            b": not counts at line ",
            Numeral::of(line as u64).as_bytes(),
            b"\n",
        ],
    );
}

/// Puts the line of a board whose common box has a side over one metre.
pub fn frame<N: Sink>(notes: &mut N, bounds: Bounds)
    ensures { Says N.got N.faults notes.old notes.new (frame_line bounds) }
{
    put_frame(notes, b"", b"", bounds);
}

/// Puts the same of the board of a manifest.
pub fn frame_of<N: Sink>(notes: &mut N, manifest: &[u8], bounds: Bounds)
    ensures { Says N.got N.faults notes.old notes.new (manifest_frame_line manifest.now bounds) }
{
    put_frame(notes, manifest, b": ", bounds);
}

fn put_frame<'a, N: Sink>(notes: &mut N, file: &'a [u8], colon: &'a [u8], bounds: Bounds)
    ensures { Says N.got N.faults notes.old notes.new (frame_behind file.now colon.now bounds) }
{
    put_all(
        notes,
        &[
            b"boardnet: ",
            file,
            colon,
            b"frame too large: ",
            Numeral::signed(bounds.left).as_bytes(),
            b" ",
            Numeral::signed(bounds.low).as_bytes(),
            b" ",
            Numeral::signed(bounds.right).as_bytes(),
            b" ",
            Numeral::signed(bounds.high).as_bytes(),
            b"\n",
        ],
    );
}
