//! The board of a package.
ghost use Rattle.std.specs.Prelude.{◌≡◌, ◌≤◌, [], ◌∷◌, length, All, IfSome, IfOk, IfErr, OnOk, MatchResult};
ghost use Rattle.std.specs.List.{filter};
ghost use Rattle.board_shapes.specs.Plain.{plain_board, common_box, Fits};
ghost use Rattle.board_package.specs.Causes.{Builds, BuildsHanded, HandedCause, HandedCauseBy, HasCause, HasCauseBy, IsFrameFault, KeepsFaults, KeepsFaultsBy, Leaves, Spares};
ghost use Rattle.board_package.specs.Contents.{Reads};
ghost use Rattle.board_package.specs.HandedBoard.{ComesAlongHanded, ComesNext, GoesHanded, IsHanded, IsManifestHanded, StopsAmongHanded, StopsAtHanded, StopsAtManifestHanded, StopsHanding, as_board, course};
ghost use Rattle.board_package.specs.HandedLabelled.{IsFirstLabelledStopHanded, IsLabelledBoardHanded, LabelledComesHanded, as_labelled};
ghost use Rattle.board_package.specs.LabelledBoard.{is_taken, IsFirstLabelledStop, IsLabelledBoardOf, LabelledComes};
ghost use Rattle.board_package.specs.LabelledCauses.{labelled_faults, labelled_so_far};
ghost use Rattle.board_package.specs.Manifest.{IsLawful, IsOnBoard};
ghost use Rattle.board_package.specs.PackageBoard.{IsHeld, IsManifestFile, IsWithinLimits, StopsAtManifest, StopsTaking, WalksBy};
ghost use Rattle.board_package.specs.Parts.{board_so_far, IsLawfulParts};
ghost use Rattle.x2_nets.specs.Labels.{Rise};

use crate::contents::read_file;
use crate::entry::{Entry, Naming};
use crate::fault::{BuildFault, LabelledFault};
use crate::labelling::{list_labels, name_pieces};
use crate::manifest::{Manifest, ManifestFault, read_manifest};
use crate::parts::Parts;
use board_io::{Package, Take};
use board_shapes::{Board, BoardFault, Shape, laws};
use lengths::rows::Rows;
use lengths::text::Text;
use std::alloc::Global;
use texts::MOST_BYTES;
use x2_nets::Label;

/// The board of a package under the name of its manifest: its copper files' pieces and then its drill files', the probes
/// and names of its netlist, and as many layers as copper files.
///
/// It takes the manifest, each copper file, each drill file and the netlist, in this order. Each is judged before the
/// next is taken, and after a refusal nothing more is taken. The frame is judged last.
pub fn build<P: Package>(
    alloc: Global,
    manifest: &Text,
    package: &mut P,
) -> Result<Board, BuildFault>
    ensures leaves { Leaves P.held P.handed P.faults «package».old «package».new }
    ensures spared { Spares KeepsFaults P.faults P.lost «package».old «package».new result }
    ensures told { Builds P.held P.faults P.lost manifest.now «package».old «package».new result }
    ensures handed { BuildsHanded P.handed P.faults P.lost manifest.now «package».old «package».new result }
    ensures limits { IfOk result (λ board. IsWithinLimits (plain_board board)) }
{
    let listed = take_manifest(alloc, manifest, package)?;
    let mut parts = Parts::new(alloc, listed.layers);
    let mut tables = Rows::new(alloc);
    let entries = listed.files.as_slice();
    let naming = Naming::ByNetlist;
    match take_files(alloc, package, naming, entries, &mut parts, &mut tables) {
        Ok(()) => framed(parts),
        Err(LabelledFault::Build(why)) => Err(why),
        Err(LabelledFault::Label { .. }) => unreachable!(),
    }
}

/// The board of a package under the name of its manifest, by the net names in its copper files in place of its netlist.
///
/// It has the pieces, layers and frame of `build`. Each piece whose file names a net at the command that made it gives a
/// probe: its record is the piece's number, from 0, plus 1, its layer the piece's top, its place the first end or the
/// first corner. Copies have the name of what was copied, and drilled pieces have none.
///
/// It takes the manifest, each copper file and each drill file, in this order; the netlist is not taken. `Label` stands
/// after the file's own refusal and before the next file is taken. `Build` is as in `build`, and never a netlist's.
pub fn build_labelled<P: Package>(
    alloc: Global,
    manifest: &Text,
    package: &mut P,
) -> Result<Board, LabelledFault>
    ensures leaves { Leaves P.held P.handed P.faults «package».old «package».new }
    ensures spared { Spares (KeepsFaultsBy labelled_faults) P.faults P.lost «package».old «package».new result }
    ensures told { MatchResult result (λ board. IfSome (P.held «package».old) (λ files. IsLabelledBoardOf files manifest.now (plain_board board))) (HasCauseBy labelled_faults (P.held «package».old) (λ files stop. IsFirstLabelledStop files manifest.now stop) (λ files name. LabelledComes files manifest.now name) (P.faults «package».old) (P.faults «package».new) (P.lost «package».new)) }
    ensures handed { MatchResult result (λ board. IsLabelledBoardHanded (P.handed «package».old) (P.handed «package».new) manifest.now (plain_board board)) (HandedCauseBy labelled_faults (λ stop. IsFirstLabelledStopHanded (P.handed «package».old) (P.handed «package».new) manifest.now stop) (λ name. LabelledComesHanded (P.handed «package».old) (P.handed «package».new) manifest.now name) (P.faults «package».old) (P.faults «package».new) (P.lost «package».new)) }
    ensures limits { IfOk result (λ board. IsWithinLimits (plain_board board)) }
{
    let listed = take_manifest(alloc, manifest, package)?;
    let mut parts = Parts::new(alloc, listed.layers);
    let mut tables = Rows::new(alloc);
    let entries = listed.files.as_slice();
    let naming = Naming::ByLabels;
    take_files(alloc, package, naming, entries, &mut parts, &mut tables)?;
    name_pieces(alloc, tables.as_slice(), &mut parts)?;
    let board = framed(parts)?;
    Ok(board)
}

/// Takes the manifest of this name, and reads it.
pub fn take_manifest<P: Package>(
    alloc: Global,
    manifest: &Text,
    package: &mut P,
) -> Result<Manifest, BuildFault>
    ensures leaves { Leaves P.held P.handed P.faults «package».old «package».new }
    ensures spared { Spares KeepsFaults P.faults P.lost «package».old «package».new result }
    ensures found { IfOk result (λ m. IfSome (P.held «package».old) (λ files. IsManifestFile files manifest.now m)) }
    ensures handed { IfOk result (λ m. IsManifestHanded (P.handed «package».old) (P.handed «package».new) manifest.now m) }
    ensures handed_cause { IfErr result (HandedCause (λ stop. StopsAtManifestHanded (P.handed «package».old) (P.handed «package».new) manifest.now stop) (λ name. ComesNext (P.handed «package».old) (P.handed «package».new) manifest.now name) (P.faults «package».old) (P.faults «package».new) (P.lost «package».new)) }
    ensures lawful { IfOk result (λ m. IsLawful m) }
    ensures cause { IfErr result (HasCause (P.held «package».old) (λ files stop. StopsAtManifest files manifest.now stop) (λ files name. name ≡ manifest.now) (P.faults «package».old) (P.faults «package».new) (P.lost «package».new)) }
{
    let mut file = Vec::new(alloc);
    take_file(alloc, manifest, package, &mut file)?;
    match read_manifest(alloc, file.as_slice()) {
        Ok(listed) => Ok(listed),
        Err(ManifestFault::NotJson) => Err(BuildFault::NotJson),
        Err(ManifestFault::BadManifest) => Err(BuildFault::BadManifest),
        Err(ManifestFault::NoMemory) => Err(BuildFault::NoMemory),
    }
}

/// Takes the files of the order, adds what they give, and lists the labels that name the nets.
pub fn take_files<P: Package>(
    alloc: Global,
    package: &mut P,
    naming: Naming,
    entries: &[Entry],
    parts: &mut Parts<Shape>,
    tables: &mut Rows<Rows<Label>>,
) -> Result<(), LabelledFault>
    requires lawful { IsLawfulParts parts.old }
    requires roles { All (λ e. IsOnBoard parts.old.layers e.role) entries.now }
    requires rise { All Rise tables.old }
    ensures leaves { Leaves P.held P.handed P.faults «package».old «package».new }
    ensures spared { Spares (KeepsFaultsBy labelled_faults) P.faults P.lost «package».old «package».new result }
    ensures handed { OnOk result (WalksBy (GoesHanded (as_labelled naming)) (filter (λ e. is_taken naming e.role) entries.now) (course (P.handed «package».old) (labelled_so_far parts.old tables.old)) (course (P.handed «package».new) (labelled_so_far parts.new tables.new))) }
    ensures handed_cause { IfErr result (HandedCauseBy labelled_faults (λ stop. StopsAmongHanded (as_labelled naming) (filter (λ e. is_taken naming e.role) entries.now) (course (P.handed «package».old) (labelled_so_far parts.old tables.old)) (P.handed «package».new) stop) (λ name. ComesAlongHanded (as_labelled naming) (filter (λ e. is_taken naming e.role) entries.now) (course (P.handed «package».old) (labelled_so_far parts.old tables.old)) (P.handed «package».new) name) (P.faults «package».old) (P.faults «package».new) (P.lost «package».new)) }
    ensures parts { OnOk result (IsLawfulParts parts.new) }
    ensures rise { OnOk result (All Rise tables.new) }
{
    let mut file = Vec::new(alloc);
    for entry in entries {
        take_needed(alloc, package, naming, entry, parts, &mut file, tables)?;
    }
    Ok(())
}

// Takes one file of the order, unless it is the netlist and labels name the nets. Adds what it gives, and lists its labels
// where they name the nets.
fn take_needed<P: Package>(
    alloc: Global,
    package: &mut P,
    naming: Naming,
    entry: &Entry,
    parts: &mut Parts<Shape>,
    file: &mut Vec<u8>,
    tables: &mut Rows<Rows<Label>>,
) -> Result<(), LabelledFault>
    requires lawful { IsLawfulParts parts.old }
    requires role { IsOnBoard parts.old.layers entry.now.role }
    requires rise { All Rise tables.old }
    ensures leaves { Leaves P.held P.handed P.faults «package».old «package».new }
    ensures spared { Spares (KeepsFaultsBy labelled_faults) P.faults P.lost «package».old «package».new result }
    ensures handed { OnOk result (WalksBy (GoesHanded (as_labelled naming)) (filter (λ e. is_taken naming e.role) (entry.now ∷ [])) (course (P.handed «package».old) (labelled_so_far parts.old tables.old)) (course (P.handed «package».new) (labelled_so_far parts.new tables.new))) }
    ensures handed_cause { IfErr result (HandedCauseBy labelled_faults (λ stop. StopsAmongHanded (as_labelled naming) (filter (λ e. is_taken naming e.role) (entry.now ∷ [])) (course (P.handed «package».old) (labelled_so_far parts.old tables.old)) (P.handed «package».new) stop) (λ name. ComesAlongHanded (as_labelled naming) (filter (λ e. is_taken naming e.role) (entry.now ∷ [])) (course (P.handed «package».old) (labelled_so_far parts.old tables.old)) (P.handed «package».new) name) (P.faults «package».old) (P.faults «package».new) (P.lost «package».new)) }
    ensures parts { OnOk result (IsLawfulParts parts.new) }
    ensures layers { OnOk result (parts.new.layers ≡ parts.old.layers) }
    ensures rise { OnOk result (All Rise tables.new) }
{
    if !naming.takes(entry.role) {
        return Ok(());
    }
    take_entry(alloc, package, entry, parts, file)?;
    list_labels(alloc, naming, entry, file.as_slice(), tables)
}

// Takes one file of the order into `file`, and adds what it gives.
fn take_entry<P: Package>(
    alloc: Global,
    package: &mut P,
    entry: &Entry,
    parts: &mut Parts<Shape>,
    file: &mut Vec<u8>,
) -> Result<(), BuildFault>
    requires lawful { IsLawfulParts parts.old }
    requires role { IsOnBoard parts.old.layers entry.now.role }
    ensures leaves { Leaves P.held P.handed P.faults «package».old «package».new }
    ensures spared { Spares KeepsFaults P.faults P.lost «package».old «package».new result }
    ensures short { OnOk result (length file.new.items ≤ MOST_BYTES) }
    ensures handed { OnOk result (IsHanded (P.handed «package».old) (P.handed «package».new) entry.now.name file.new.items) }
    ensures read { OnOk result (Reads entry.now.role entry.now.number file.new.items (board_so_far parts.old) (board_so_far parts.new)) }
    ensures handed_cause { IfErr result (HandedCause (λ stop. StopsAtHanded as_board entry.now (course (P.handed «package».old) (board_so_far parts.old)) (P.handed «package».new) stop) (λ name. ComesNext (P.handed «package».old) (P.handed «package».new) entry.now.name name) (P.faults «package».old) (P.faults «package».new) (P.lost «package».new)) }
    ensures parts { OnOk result (IsLawfulParts parts.new) }
    ensures layers { OnOk result (parts.new.layers ≡ parts.old.layers) }
{
    take_file(alloc, &entry.name, package, file)?;
    read_file(alloc, entry, file.as_slice(), parts)
}

/// Takes the file of this name into `file`, if it has at most 67,108,864 bytes; a fault leaves `file` empty.
///
/// `Longer` and `CannotRead` carry the name; `CannotRead` comes only where the package's count of faults rose in this call.
pub fn take_file<P: Package>(
    alloc: Global,
    name: &Text,
    package: &mut P,
    file: &mut Vec<u8>,
) -> Result<(), BuildFault>
    ensures leaves { Leaves P.held P.handed P.faults «package».old «package».new }
    ensures spared { Spares KeepsFaults P.faults P.lost «package».old «package».new result }
    ensures emptied { IfErr result (λ why. file.new.items ≡ []) }
    ensures short { OnOk result (length file.new.items ≤ MOST_BYTES) }
    ensures found { OnOk result (IfSome (P.held «package».old) (λ files. IsHeld files name.now file.new.items)) }
    ensures handed { OnOk result (IsHanded (P.handed «package».old) (P.handed «package».new) name.now file.new.items) }
    ensures handed_cause { IfErr result (HandedCause (λ stop. StopsHanding (P.handed «package».old) (P.handed «package».new) name.now stop) (λ other. ComesNext (P.handed «package».old) (P.handed «package».new) name.now other) (P.faults «package».old) (P.faults «package».new) (P.lost «package».new)) }
    ensures cause { IfErr result (HasCause (P.held «package».old) (λ files stop. StopsTaking files name.now stop) (λ files other. other ≡ name.now) (P.faults «package».old) (P.faults «package».new) (P.lost «package».new)) }
{
    let text = name.as_str();
    match package.take(text, MOST_BYTES, file) {
        Take::Whole => Ok(()),
        Take::Longer => Err(BuildFault::Longer(name.clone()?)),
        Take::Failed => Err(BuildFault::CannotRead(name.clone()?)),
        Take::NoMemory => Err(BuildFault::NoMemory),
    }
}

/// The board of these parts, if it fits in a frame.
pub fn framed(parts: Parts<Shape>) -> Result<Board, BuildFault>
    requires { IsLawfulParts parts }
    ensures ok { IfOk result (λ board. plain_board board ≡ board_so_far parts) }
    ensures fits { IfOk result (λ board. Fits (common_box (board_so_far parts).pieces)) }
    ensures limits { IfOk result (λ board. IsWithinLimits (plain_board board)) }
    ensures fault { IfErr result (IsFrameFault (board_so_far parts)) }
{
    laws::boards_are_lawful();
    match Board::new(parts.pieces, parts.probes, parts.names, parts.layers) {
        Ok(board) => Ok(board),
        Err(BoardFault::FrameTooLarge(bounds)) => Err(BuildFault::FrameTooLarge(bounds)),
    }
}
