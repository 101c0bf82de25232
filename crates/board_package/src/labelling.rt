//! The labels of copper files, and the probes of pieces whose file names their nets.
ghost use Rattle.std.specs.Prelude.{◌≡◌, ◌≤◌, ◌+◌, ◌<◌, ◌^◌, ℕ, length, reverse, All, IfErr, IfOk, OnOk};
ghost use Rattle.std.specs.Option.{option_copied};
ghost use Rattle.board_shapes.specs.Figures.{figure_of};
ghost use Rattle.board_shapes.specs.Pieces.{plain_piece, plain_pieces};
ghost use Rattle.board_package.specs.LabelledBoard as spec;
ghost use Rattle.board_package.specs.LabelledBoard.{Lists, labelled_board_of, named_by, with_label};
ghost use Rattle.board_package.specs.LabelledCauses.{IsMislabelling};
ghost use Rattle.board_package.specs.Labelling.{named_as};
ghost use Rattle.board_package.specs.Parts.{board_so_far, IsLawfulParts};
ghost use Rattle.ipc356_records.specs.NameTable.{names_in};
ghost use Rattle.lengths.specs.Text.{IsText};
ghost use Rattle.x2_nets.specs.Labels.{IsRead, Rise};

use crate::entry::{Entry, Naming, Role};
use crate::fault::{BuildFault, LabelledFault};
use crate::parts::Parts;
use board_shapes::{MOST_PIECES, Origin, Piece, Probe, Shape};
use ipc356_records::NameTable;
use lengths::rows::{NoMemory, Rows};
use lengths::text::Text;
use planar::Spot;
use std::alloc::Global;
use texts::MOST_BYTES;
use x2_nets::{Label, LabelFault, label_among, labels};

// The first end of a capsule, or the first corner of an area.
fn first_spot(shape: &Shape) -> Spot
    ensures { result ≡ spec.first_spot (figure_of shape.now) }
{
    match shape {
        Shape::Round(capsule) => capsule.a,
        Shape::Filled(area) => area.corner(0),
    }
}

// The name in force where a piece was made.
fn label_of<'t>(tables: &'t [Rows<Label>], origin: Origin) -> Option<&'t Text>
    requires rise { All Rise tables.now }
    ensures { option_copied result ≡ spec.label_of tables.now origin }
{
    let file = origin.file as usize;
    if file >= tables.len() {
        return None;
    }
    label_among(&tables[file], origin.command)
}

// Adds the probe of a piece, if it has a label.
fn add_probe<'t>(
    piece: &Piece,
    number: u32,
    label: Option<&'t Text>,
    names: &mut NameTable<'t>,
    probes: &mut Rows<Probe>,
) -> Result<(), NoMemory>
    requires few { length (names_in names.old) + 1 < 2 ^ 32 }
    requires lawful { All IsText (names_in names.old) }
    ensures named { OnOk result (named_as probes.new (names_in names.new) ≡ with_label (named_as probes.old (names_in names.old)) number (plain_piece piece.now) (option_copied label.entry)) }
    ensures lawful { OnOk result (All IsText (names_in names.new)) }
{
    let Some(text) = label else {
        return Ok(());
    };
    let name = names.number(text.as_bytes())?;
    probes.push(Probe {
        number,
        at: first_spot(&piece.shape),
        layer: piece.top,
        name,
    })?;
    Ok(())
}

// The probes that pieces give by the labels of their files, and the names of their nets.
fn probes_by(
    alloc: Global,
    tables: &[Rows<Label>],
    pieces: &[Piece],
) -> Result<(Rows<Probe>, Rows<Text>), NoMemory>
    requires few { length pieces.now ≤ MOST_PIECES }
    requires rise { All Rise tables.now }
    ensures { IfOk result (λ r. named_as r.0 r.1 ≡ named_by tables.now (reverse (plain_pieces pieces.now))) }
{
    let mut names = NameTable::new(alloc);
    let mut probes = Rows::new(alloc);
    for (i, piece) in pieces.iter().enumerate() {
        let label = label_of(tables, piece.origin);
        add_probe(piece, i as u32 + 1, label, &mut names, &mut probes)?;
    }
    let texts = names.texts(alloc)?;
    Ok((probes, texts))
}

/// Gives the parts the probes and names of their labelled pieces.
pub fn name_pieces(
    alloc: Global,
    tables: &[Rows<Label>],
    parts: &mut Parts<Shape>,
) -> Result<(), NoMemory>
    requires lawful { IsLawfulParts parts.old }
    requires rise { All Rise tables.now }
    ensures ok { OnOk result (board_so_far parts.new ≡ labelled_board_of tables.now (board_so_far parts.old)) }
    ensures lawful { OnOk result (IsLawfulParts parts.new) }
{
    let (probes, names) = probes_by(alloc, tables, parts.pieces.as_slice())?;
    parts.probes = probes;
    parts.names = names;
    Ok(())
}

/// Lists the labels of a file of the order, if they name the nets.
pub fn list_labels(
    alloc: Global,
    naming: Naming,
    entry: &Entry,
    file: &[u8],
    tables: &mut Rows<Rows<Label>>,
) -> Result<(), LabelledFault>
    requires short { length file.now ≤ MOST_BYTES }
    requires rise { All Rise tables.old }
    ensures listed { OnOk result (Lists naming entry.now.role file.now tables.old tables.new) }
    ensures rise { OnOk result (All Rise tables.new) }
    ensures fault { IfErr result (IsMislabelling naming entry.now.role entry.now.name file.now) }
{
    match naming {
        Naming::ByNetlist => Ok(()),
        Naming::ByLabels => match entry.role {
            Role::Copper { .. } => {
                let listed = labels_in(alloc, &entry.name, file)?;
                tables.push(listed)?;
                Ok(())
            }
            Role::Drill { .. } | Role::Netlist => Ok(()),
        },
    }
}

// The labels of a copper file of this name.
fn labels_in(alloc: Global, name: &Text, file: &[u8]) -> Result<Rows<Label>, LabelledFault>
    requires short { length file.now ≤ MOST_BYTES }
    ensures ok { IfOk result (λ listed. IsRead file.now listed) }
    ensures rise { IfOk result (λ listed. Rise listed) }
    ensures fault { (layer : ℕ) → IfErr result (IsMislabelling Naming.ByLabels (Role.Copper layer) name.now file.now) }
{
    match labels(alloc, file) {
        Ok(listed) => Ok(listed),
        Err(LabelFault::Bad { command, at }) => Err(LabelledFault::Label {
            file: name.clone()?,
            command,
            at,
        }),
        Err(LabelFault::NoMemory) => Err(LabelledFault::Build(BuildFault::NoMemory)),
    }
}
