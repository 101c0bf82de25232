//! The reader of a file: what it keeps, and how it takes on what commands make, whatever that is.
ghost use Rattle.std.specs.Prelude.{◌≡◌, ◌+◌, ◌^◌, ◌<◌, ◌≤◌, ◌&&◌, [], ℕ, drop, is_none, length, map, nat_le, not, option_map, take, IfErr, IfOk, IfSome, None, OnOk, Ok, Some};
ghost use Rattle.std.specs.Option.{option_and_then, option_copied};
ghost use Rattle.planar.specs.Plane.{IsPlaced};
ghost use Rattle.gerber_reading.specs.CommandEffects as spec;
ghost use Rattle.step_repeat.specs.Copies.{copies_by, edges_by, pieces_by};
ghost use Rattle.step_repeat.specs.Repeats.{IsLawful as IsLawfulRepeat};

use crate::MOST_APERTURES;
use crate::command::Code;
use crate::command_effects::{halt_of_copy, is_drawing};
use crate::dictionary::Dictionary;
use crate::kind::GerberKind;
use crate::place::Place;
use crate::settings::{Curve, Settings};
use crate::tool::Tool;
use area_contact::MOST_CONTOUR_EDGES;
use board_shapes::{MOST_LAYERS, Origin, Placed, Room};
use file_reading::Halt;
use planar::Spot;
use regions::{AddFault, Contour};
use std::alloc::Global;
use step_repeat::{Figure, Repeat, edges_of};

// About how many bytes of a file make a piece.
const BYTES_OF_A_PIECE: usize = 32;

/// What the commands of a file so far have set and made. Its pieces stand on `layer`, from 1 to 32,
/// and `file` goes into their origins; `commands` counts those that were obeyed.
#[derive(Drop)]
pub struct Reader<'a, F, E, A> {
    pub settings: Settings,
    pub dictionary: Dictionary<'a, A>,
    /// The contour so far of the open region, if it has an edge.
    pub contour: Option<Contour<E>>,
    pub pieces: Vec<Placed<F>>,
    /// The edges that all pieces so far count for the room.
    pub edges: u64,
    /// How many pieces stand before the open block.
    pub start: usize,
    pub commands: u32,
    pub layer: u8,
    pub file: u32,
    pub room: Room,
    pub ghost from_first: { 1 ≤ layer },
}

impl<'a, F: Drop, E: Drop, A: Drop> Reader<'a, F, E, A> {
    ghost use Rattle.gerber_reading.specs.Reader.{IsNew, IsSound, kept_in};

    /// Before the first command of a file of so many bytes. The layer is from 1 to `MOST_LAYERS`.
    pub fn new(alloc: Global, size: usize, place: Place) -> Reader<'a, F, E, A>
        requires { (1 ≤ place.layer) × (place.layer ≤ MOST_LAYERS) }
        ensures new { IsNew place result }
        ensures sound { IsSound result }
        ensures room { result.room.pieces < 2 ^ 32 }
        ensures kept { (n : ℕ) → kept_in result.dictionary n ≡ None }
        ensures edges { result.edges ≡ 0 }
    {
        Reader {
            settings: Settings {
                format: None,
                unit: None,
                selected: None,
                at: Spot { x: 0, y: 0 },
                last: None,
                region: false,
                block: None,
                ended: false,
                curve: Curve::Line,
                quadrants: None,
            },
            dictionary: Dictionary::new(alloc),
            contour: None,
            pieces: with_room(alloc, size, place.room),
            edges: 0,
            start: 0,
            commands: 0,
            layer: place.layer,
            file: place.file,
            room: place.room,
        }
    }

    /// The pieces so far.
    pub fn into_pieces(self) -> Vec<Placed<F>>
        ensures { result ≡ self.entry.pieces }
    {
        self.pieces
    }
}

impl<'a, F: Drop, E: Drop, A: Drop> Reader<'a, F, E, A> {
    ghost use Rattle.gerber_reading.specs.Reader.{defined_in, kept_in, size_of, tool_of};

    /// The aperture in force.
    pub fn selected(&self) -> Option<&Tool<'a, A>>
        ensures value { option_map tool_of (option_copied result) ≡ spec.lookup self.now.settings.selected (defined_in self.now.dictionary) }
        ensures kept { option_copied result ≡ option_and_then (kept_in self.now.dictionary) self.now.settings.selected }
    {
        let n = self.settings.selected?;
        self.dictionary.find(n)
    }

    /// Whether a number is none of an aperture, and there is room for one; or why not.
    pub fn judge_number(&self, n: u32) -> Result<(), GerberKind>
        ensures { result ≡ spec.number_judged (defined_in self.now.dictionary) (size_of self.now.dictionary) n }
    {
        if self.dictionary.defines(n) {
            return Err(GerberKind::ApertureTwice);
        }
        if self.dictionary.len() >= MOST_APERTURES {
            return Err(GerberKind::TooManyApertures);
        }
        Ok(())
    }

    /// Whether an operation has no code and the last was no draw.
    pub fn lacks_code(&self, code: Option<Code>) -> bool
        ensures { result ≡ (is_none code && not (spec.is_drawing self.now.settings.last)) }
    {
        code.is_none() && !is_drawing(self.settings.last)
    }

    /// Whether there is no room for one more piece.
    pub fn is_full(&self) -> bool
        ensures { result ≡ nat_le self.now.room.pieces (length self.now.pieces.items) }
    {
        self.room.pieces as usize <= self.pieces.len()
    }
}

impl<'a, F: Figure + Drop, E: Copy + Drop, A: Drop> Reader<'a, F, E, A> {
    ghost use Rattle.gerber_reading.specs.Reader.{AreCounted, EndsBlock, Lacks, Lengthens, Places, Stops, TakesOn, contour_of, known_of};

    /// Whether that many edges more are too many.
    pub fn exceeds(&self, more: u32) -> bool
        requires { AreCounted F.plain F.handling self.now }
        ensures { result ≡ spec.exceed F.handling (known_of F.plain self.now) more }
    {
        u64::from(self.room.edges) < self.edges + u64::from(more)
    }

    /// Takes the figure on as a piece. It is inlined, so that the figure is copied once.
    #[inline(always)]
    pub fn add_piece(&mut self, figure: F) -> Result<(), Halt<GerberKind>>
        requires few { self.old.commands + 1 < 2 ^ 32 }
        requires counted { AreCounted F.plain F.handling self.old }
        requires room { length self.old.pieces.items < self.old.room.pieces }
        ensures ok { OnOk result (Places F.plain self.old (Some (F.plain figure)) self.new) }
        ensures counted { OnOk result (AreCounted F.plain F.handling self.new) }
        ensures halt { IfErr result (λ h. h ≡ Halt.NoMemory) }
    {
        let edges = u64::from(figure.edges());
        let origin = Origin {
            file: self.file,
            command: self.commands + 1,
            copy: 0,
        };
        let piece = Placed {
            shape: figure,
            top: self.layer,
            bottom: self.layer,
            origin,
        };
        if let Err(_) = self.pieces.push(piece) {
            return Err(Halt::NoMemory);
        }
        self.edges += edges;
        Ok(())
    }

    /// Takes the figure on, if there is room for one more piece. An `Err` leaves a reader that is of no more use.
    #[inline(always)]
    #[tactic(auto, unfolding(crate::specs::CommandEffects::room_for))]
    pub fn add_piece_in_room(&mut self, figure: F) -> Result<(), Halt<GerberKind>>
        requires few { self.old.commands + 1 < 2 ^ 32 }
        requires counted { AreCounted F.plain F.handling self.old }
        ensures ok { OnOk result (Places F.plain self.old (Some (F.plain figure)) self.new) }
        ensures room { OnOk result (spec.room_for (known_of F.plain self.old) (Some (F.plain figure)) ≡ Ok (Some (F.plain figure))) }
        ensures counted { OnOk result (AreCounted F.plain F.handling self.new) }
        ensures halt { IfErr result (Stops (spec.room_for (known_of F.plain self.old) (Some (F.plain figure)))) }
    {
        if self.is_full() {
            return Err(refused(GerberKind::TooManyPieces));
        }
        self.add_piece(figure)
    }

    /// Takes pieces on, if there is room for all of them.
    #[tactic(auto, unfolding(crate::specs::CommandEffects::lacks_room))]
    pub fn take_on(&mut self, mut more: Vec<Placed<F>>) -> Result<(), Halt<GerberKind>>
        requires counted { AreCounted F.plain F.handling self.old }
        ensures ok { OnOk result (TakesOn F.plain self.old (pieces_by F.plain more.items) self.new) }
        ensures room { OnOk result (spec.lacks_room F.handling (known_of F.plain self.old) (length more.items) (edges_by F.handling (pieces_by F.plain more.items)) ≡ None) }
        ensures counted { OnOk result (AreCounted F.plain F.handling self.new) }
        ensures halt { IfErr result (Lacks (spec.lacks_room F.handling (known_of F.plain self.old) (length more.items) (edges_by F.handling (pieces_by F.plain more.items)))) }
    {
        if more.is_empty() {
            return Ok(());
        }
        if (self.room.pieces as usize) < self.pieces.len() + more.len() {
            return Err(refused(GerberKind::TooManyPieces));
        }
        let edges = edges_of(&more);
        if u64::from(self.room.edges) < self.edges + edges {
            return Err(refused(GerberKind::TooManyVertices));
        }
        if let Err(_) = self.pieces.append(&mut more) {
            return Err(Halt::NoMemory);
        }
        self.edges += edges;
        Ok(())
    }

    /// The number of edges of the contour so far.
    pub fn contour_edges(&self) -> u32
        ensures value { result ≡ spec.edges_in (contour_of self.now.contour) }
        ensures few { result ≤ MOST_CONTOUR_EDGES }
    {
        match &self.contour {
            None => 0,
            Some(contour) => contour.edges(),
        }
    }

    /// Adds an edge to the contour, or begins it. It is a call, as a flash is.
    #[inline(never)]
    #[tactic(auto, unfolding(crate::specs::CommandEffects::extend_by))]
    pub fn extend(&mut self, alloc: Global, to: Spot, bend: E) -> Result<(), Halt<GerberKind>>
        requires counted { AreCounted F.plain F.handling self.old }
        requires here { IsPlaced self.old.settings.at }
        requires placed { IsPlaced to }
        ensures ok { OnOk result (Lengthens self.old to bend self.new) }
        ensures counted { OnOk result (AreCounted F.plain F.handling self.new) }
        ensures room { OnOk result (spec.extend_by F.handling (known_of F.plain self.old) to bend ≡ Ok (spec.extends to bend)) }
        ensures halt { IfErr result (Stops (spec.extend_by F.handling (known_of F.plain self.old) to bend)) }
    {
        let edges = self.contour_edges();
        if edges >= MOST_CONTOUR_EDGES || self.exceeds(edges + 1) {
            return Err(refused(GerberKind::TooManyVertices));
        }
        let mut contour = match self.contour.take() {
            None => Contour::begin(alloc, self.settings.at),
            Some(contour) => contour,
        };
        match contour.add(to, bend) {
            Ok(()) => {
                self.contour = Some(contour);
                Ok(())
            },
            Err(AddFault::TooLong) => unreachable!(),
            Err(AddFault::NoMemory) => Err(Halt::NoMemory),
        }
    }

    // The pieces of the open block.
    fn block(&self) -> &[Placed<F>]
        requires { AreCounted F.plain F.handling self.now }
        ensures pieces { pieces_by F.plain result.now ≡ drop self.now.start (pieces_by F.plain self.now.pieces.items) }
        ensures few { length result.now ≤ length self.now.pieces.items }
    {
        &self.pieces[self.start..]
    }

    // How many edges the pieces before the open block have.
    fn edges_before(&self) -> u64
        requires { AreCounted F.plain F.handling self.now }
        ensures { result ≡ edges_by F.handling (take self.now.start (pieces_by F.plain self.now.pieces.items)) }
    {
        self.edges - edges_of(self.block())
    }

    // The room that the pieces before the open block leave.
    fn left(&self, edges: u64) -> Room
        requires counted { AreCounted F.plain F.handling self.now }
        requires edges { edges ≡ edges_by F.handling (take self.now.start (pieces_by F.plain self.now.pieces.items)) }
        ensures { result ≡ spec.left_by F.handling (known_of F.plain self.now) }
    {
        let most = self.room.edges;
        Room {
            pieces: self.room.pieces - self.start as u32,
            edges: u64::from(most).saturating_sub(edges) as u32,
        }
    }

    // The copies that the open block gives way to.
    fn copies(
        &self,
        alloc: Global,
        block: Repeat,
        edges: u64,
    ) -> Result<Vec<Placed<F>>, Halt<GerberKind>>
        requires counted { AreCounted F.plain F.handling self.now }
        requires lawful { IsLawfulRepeat block }
        requires edges { edges ≡ edges_by F.handling (take self.now.start (pieces_by F.plain self.now.pieces.items)) }
        ensures ok { IfOk result (λ copies. copies_by F.handling block (spec.left_by F.handling (known_of F.plain self.now)) (drop self.now.start (pieces_by F.plain self.now.pieces.items)) ≡ Ok (pieces_by F.plain copies.items)) }
        ensures few { IfOk result (λ copies. self.now.start + length copies.items ≤ self.now.room.pieces) }
        ensures halt { IfErr result (Stops (spec.as_copies (take self.now.start (pieces_by F.plain self.now.pieces.items)) (copies_by F.handling block (spec.left_by F.handling (known_of F.plain self.now)) (drop self.now.start (pieces_by F.plain self.now.pieces.items))))) }
    {
        match block.copies(alloc, self.block(), self.left(edges)) {
            Ok(copies) => Ok(copies),
            Err(fault) => Err(halt_of_copy(fault)),
        }
    }

    /// Ends the open block: its pieces give way to its copies.
    #[tactic(auto, unfolding(crate::specs::CommandEffects::ended_block_by))]
    pub fn end_block(&mut self, alloc: Global) -> Result<(), Halt<GerberKind>>
        requires counted { AreCounted F.plain F.handling self.old }
        requires lawful { IfSome self.old.settings.block IsLawfulRepeat }
        ensures ok { OnOk result (EndsBlock F.plain F.handling self.old self.new) }
        ensures counted { OnOk result (AreCounted F.plain F.handling self.new) }
        ensures halt { IfErr result (Stops (spec.ended_block_by F.handling (known_of F.plain self.old))) }
    {
        let Some(block) = self.settings.block else {
            return Ok(());
        };
        let before = self.edges_before();
        let mut copies = self.copies(alloc, block, before)?;
        let edges = before + edges_of(&copies);
        self.pieces.truncate(self.start);
        if let Err(_) = self.pieces.append(&mut copies) {
            return Err(Halt::NoMemory);
        }
        self.edges = edges;
        Ok(())
    }
}

/// What stops a reader is that kind.
pub fn refused(kind: GerberKind) -> Halt<GerberKind>
    ensures { result ≡ Halt.Fault kind }
{
    Halt::Fault(kind)
}

// No pieces, with room for about as many as a file of that size makes, where memory serves: a list that grows is copied each time.
fn with_room<F: Drop>(alloc: Global, size: usize, room: Room) -> Vec<Placed<F>>
    ensures { result.items ≡ [] }
{
    match Vec::with_capacity(alloc, (size / BYTES_OF_A_PIECE).min(room.pieces as usize)) {
        Ok(pieces) => pieces,
        Err(_) => Vec::new(alloc),
    }
}
