//! The copies of a block.
ghost use Rattle.std.specs.Prelude.{◌≡◌, ◌+◌, ◌*◌, ◌<◌, ◌≤◌, ◌^◌, ◌*ℤ◌, pos, [], ◌∷◌, length, Option, Some, None, Result, Ok, Err, IfOk, IfErr, IsOk, IfSome, MatchOption, option_map};
ghost use Rattle.std.specs.Option.{SomeIff};
ghost use Rattle.board_shapes.specs.Moved.{IsShift};
ghost use Rattle.step_repeat.specs.Copies.{Adds, IsCopyFault, block_at, column_of, copies_by, copies_of, edges_by, moved_block, piece_by, pieces_by, refused_as, room_fault, shifted_piece};
ghost use Rattle.step_repeat.specs.Repeats.{IsLawful};

use crate::fault::CopyFault;
use crate::figure::Figure;
use crate::repeat::Repeat;
use board_shapes::{MoveFault, Origin, Placed, Room};
use planar::TWO_METRES;
use std::alloc::Global;

/// How far a copy stands from the block, in u, and its number.
#[derive(Clone, Copy)]
struct Shift {
    x: i64,
    y: i64,
    copy: u32,
    ghost across: { IsShift x },
    ghost up: { IsShift y },
}

/// A block that is not empty, and how it is repeated.
#[derive(Drop)]
struct Grid<'a, F> {
    repeat: Repeat,
    block: &'a [Placed<F>],
    ghost some: { 0 < length block.now },
    ghost few: { repeat.across * repeat.up < 2 ^ 32 },
}

impl Repeat {
    /// The pieces that stand for a block (Gerber Layer Format Specification, step and repeat): for
    /// each column from 0, and in it for each row from 0, the block's pieces moved by column times
    /// `dx` and row times `dy`, with copy number column times `up` plus row. An empty block has no
    /// copies, whatever the counts.
    ///
    /// `TooManyPieces` comes exactly where `across` times `up` times the block's pieces exceeds the
    /// room; `TooManyEdges` exactly where it does not, and the same product of edges does. Both take
    /// no memory. `OutOfRange` comes exactly where neither does, and a moved end or corner is over
    /// 1 m from 0 in x or y.
    #[tactic(auto, unfolding(crate::specs::Copies::copies_by))]
    pub fn copies<F: Figure + Drop>(
        &self,
        alloc: Global,
        block: &[Placed<F>],
        room: Room,
    ) -> Result<Vec<Placed<F>>, CopyFault>
        requires lawful { IsLawful self.now }
        ensures ok { IfOk result (λ copies. copies_by F.handling self.now room (pieces_by F.plain block.now) ≡ Ok (pieces_by F.plain copies.items)) }
        ensures few { IfOk result (λ copies. length copies.items ≤ room.pieces) }
        ensures fault { IfErr result (IsCopyFault (copies_by F.handling self.now room (pieces_by F.plain block.now))) }

        // What takes no memory.
        ensures by_room { IfSome (room_fault F.handling self.now room (pieces_by F.plain block.now)) (λ why. result ≡ Err (refused_as why)) }
        ensures empty { length block.now ≡ 0 → IsOk result }
    {
        let mut copies = Vec::new(alloc);
        if block.is_empty() {
            return Ok(copies);
        }
        if let Some(fault) = self.room_fault(block, room) {
            return Err(fault);
        }
        let grid = Grid {
            repeat: *self,
            block,
        };
        grid.push_all(&mut copies)?;
        Ok(copies)
    }

    // What the room has no place for.
    #[tactic(auto, unfolding(crate::specs::Copies::room_fault))]
    fn room_fault<F: Figure>(&self, block: &[Placed<F>], room: Room) -> Option<CopyFault>
        requires lawful { IsLawful self.now }
        ensures value { result ≡ option_map refused_as (room_fault F.handling self.now room (pieces_by F.plain block.now)) }
        ensures few { result ≡ None → 0 < length block.now → self.now.across * self.now.up < 2 ^ 32 }
    {
        let times = u128::from(self.across) * u128::from(self.up);
        if times * block.len() as u128 > u128::from(room.pieces) {
            return Some(CopyFault::TooManyPieces);
        }
        if times * u128::from(edges_of(block)) > u128::from(room.edges) {
            return Some(CopyFault::TooManyEdges);
        }
        None
    }
}

impl<F: Figure + Drop> Grid<'_, F> {
    #[tactic(auto, unfolding(crate::specs::Copies::copies_of))]
    fn push_all(&self, copies: &mut Vec<Placed<F>>) -> Result<(), CopyFault>
        ensures { Adds F.handling (pieces_by F.plain copies.old.items) result (pieces_by F.plain copies.new.items) (copies_of F.handling self.now.repeat (pieces_by F.plain self.now.block.now)) }
    {
        for column in 0..self.repeat.across {
            self.push_column(column, copies)?;
        }
        Ok(())
    }

    fn push_column(&self, column: u32, copies: &mut Vec<Placed<F>>) -> Result<(), CopyFault>
        requires within { column < self.now.repeat.across }
        ensures { Adds F.handling (pieces_by F.plain copies.old.items) result (pieces_by F.plain copies.new.items) (column_of F.handling self.now.repeat (pieces_by F.plain self.now.block.now) column) }
    {
        for row in 0..self.repeat.up {
            self.push_block(column, row, copies)?;
        }
        Ok(())
    }

    fn push_block(
        &self,
        column: u32,
        row: u32,
        copies: &mut Vec<Placed<F>>,
    ) -> Result<(), CopyFault>
        requires within_across { column < self.now.repeat.across }
        requires within_up { row < self.now.repeat.up }
        ensures { Adds F.handling (pieces_by F.plain copies.old.items) result (pieces_by F.plain copies.new.items) (block_at F.handling self.now.repeat (pieces_by F.plain self.now.block.now) column row) }
    {
        match self.shift(column, row) {
            None => Err(CopyFault::OutOfRange),
            Some(by) => push_pieces(self.block, by, copies),
        }
    }

    // How far the copy in this column and row stands from the block, where that is at most 2 m: a
    // piece within 1 m that is moved farther is not within 1 m.
    fn shift(&self, column: u32, row: u32) -> Option<Shift>
        requires within_across { column < self.now.repeat.across }
        requires within_up { row < self.now.repeat.up }
        ensures { MatchOption result
            (¬ (IsShift (pos column *ℤ self.now.repeat.dx) × IsShift (pos row *ℤ self.now.repeat.dy)))
            (λ by. (by.x ≡ pos column *ℤ self.now.repeat.dx) × (by.y ≡ pos row *ℤ self.now.repeat.dy) × (by.copy ≡ column * self.now.repeat.up + row)) }
    {
        let x = way(column, self.repeat.dx)?;
        let y = way(row, self.repeat.dy)?;
        let copy = self.copy_number(column, row);
        Some(Shift { x, y, copy })
    }

    fn copy_number(&self, column: u32, row: u32) -> u32
        requires within_across { column < self.now.repeat.across }
        requires within_up { row < self.now.repeat.up }
        ensures { result ≡ column * self.now.repeat.up + row }
    {
        column * self.repeat.up + row
    }
}

// So many steps, where that is at most 2 m.
fn way(n: u32, step: i64) -> Option<i64>
    ensures { SomeIff result (IsShift (pos n *ℤ step)) (pos n *ℤ step) }
{
    let far = i64::from(n).checked_mul(step)?;
    if far.unsigned_abs() <= TWO_METRES {
        Some(far)
    } else {
        None
    }
}

// The block's pieces moved, at the end of the copies.
fn push_pieces<F: Figure + Drop>(
    block: &[Placed<F>],
    by: Shift,
    copies: &mut Vec<Placed<F>>,
) -> Result<(), CopyFault>
    ensures { Adds F.handling (pieces_by F.plain copies.old.items) result (pieces_by F.plain copies.new.items) (moved_block F.handling by.x by.y by.copy (pieces_by F.plain block.now)) }
{
    for piece in block {
        push_moved(piece, by, copies)?;
    }
    Ok(())
}

// The piece moved, at the end of the copies.
fn push_moved<F: Figure + Drop>(
    piece: &Placed<F>,
    by: Shift,
    copies: &mut Vec<Placed<F>>,
) -> Result<(), CopyFault>
    ensures { Adds F.handling (pieces_by F.plain copies.old.items) result (pieces_by F.plain copies.new.items) (shifted_piece F.handling by.x by.y by.copy (piece_by F.plain piece.now) ∷ []) }
{
    let alloc = *copies.allocator();
    let shape = match piece.shape.shifted(alloc, by.x, by.y) {
        Ok(shape) => shape,
        Err(MoveFault::OutOfRange) => return Err(CopyFault::OutOfRange),
        Err(MoveFault::NoMemory) => return Err(CopyFault::NoMemory),
    };
    let moved = Placed {
        shape,
        top: piece.top,
        bottom: piece.bottom,
        origin: Origin {
            file: piece.origin.file,
            command: piece.origin.command,
            copy: by.copy,
        },
    };
    let Ok(()) = copies.push(moved) else {
        return Err(CopyFault::NoMemory);
    };
    Ok(())
}

/// How many edges the pieces count for the room; there are fewer than 2^32 pieces.
pub fn edges_of<F: Figure>(pieces: &[Placed<F>]) -> u64
    requires few { length pieces.now < 2 ^ 32 }
    ensures { result ≡ edges_by F.handling (pieces_by F.plain pieces.now) }
{
    let mut edges = 0;
    for piece in pieces {
        edges += u64::from(piece.shape.edges());
    }
    edges
}
