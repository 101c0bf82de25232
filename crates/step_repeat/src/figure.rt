//! Figures of any kind, as the copies of a block want them.
ghost use Rattle.board_shapes.specs.Figures.{Figure as PlainFigure, figure_of};
ghost use Rattle.board_shapes.specs.Moved.{IsShift};
ghost use Rattle.step_repeat.specs.Figures.{Handling, shape_handling};
ghost use Rattle.step_repeat.specs.Shifting.{shape_few, shape_leaves};
ghost use Rattle.std.specs.Prelude.{ℤ, true, false, ◌≡◌, ◌≤◌, IfErr, IfOk};

use board_shapes::{MoveFault, Shape};
use std::alloc::Global;

/// What pieces of copper are made of.
pub trait Figure: Sized {
    /// The figure as plain data, and what is done with such.
    ghost Plain: { Type 0 };

    ghost plain: { Self → Plain };

    ghost handling: { Handling Plain };

    /// How many edges it counts for the room.
    fn edges(&self) -> u32
        ensures { result ≡ handling.edges (plain self.now) };

    /// The same figure shifted by `dx` and `dy`, each at most 2 m in u.
    ///
    /// `OutOfRange` where a shifted end or corner is over 1 m from 0 in x or y; `NoMemory` where memory is wanted.
    fn shifted(&self, alloc: Global, dx: i64, dy: i64) -> Result<Self, MoveFault>
        requires across { IsShift dx }
        requires up { IsShift dy }
        ensures ok { IfOk result (λ f. plain f ≡ handling.shifted dx dy (plain self.now)) }
        ensures within { IfOk result (λ f. handling.within (handling.shifted dx dy (plain self.now)) ≡ true) }
        ensures fault { IfErr result (λ why. why ≡ MoveFault.OutOfRange → handling.within (handling.shifted dx dy (plain self.now)) ≡ false) };

    /// No figure stays within 1 m that is moved farther than 2 m.
    ghost leaves: { (f : Self) (dx dy : ℤ) → ¬ (IsShift dx × IsShift dy) → handling.within (handling.shifted dx dy (plain f)) ≡ false };

    /// No figure counts 2^32 edges or more.
    ghost few: { (f : Self) → handling.edges (plain f) ≤ 4294967295 };
}

impl Figure for Shape {
    ghost Plain = { PlainFigure };

    ghost plain = { figure_of };

    ghost handling = { shape_handling };

    fn edges(&self) -> u32 {
        self.edges()
    }

    fn shifted(&self, alloc: Global, dx: i64, dy: i64) -> Result<Shape, MoveFault> {
        self.moved(alloc, dx, dy)
    }

    ghost leaves = { shape_leaves };

    ghost few = { shape_few };
}
