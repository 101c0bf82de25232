//! Boards of any copper, and what holds of one that lies between two others.
//!
//! No type of ours holds an arc or a turned shape, so a piece is here a number, and a trait without
//! calls says which rational points lie in it. Nothing here does anything when a program runs.
//!
//! - `laws`: a board that covers another keeps its joins, and what two verdicts say of a board between theirs.
//! - `worked`: a board of half discs of radius the square root of 2, between two boards.
#![tactic(auto)]

ghost use Rattle.planar.specs.Plane.{Point};
ghost use Rattle.std.specs.Prelude.{ℕ};

pub mod laws;
pub mod worked;

/// The copper of a board: any set of points for each of its pieces. A caller of a law picks it.
pub trait Copper {
    /// Which points lie in the piece of that number.
    ghost holds: { ℕ → Point → Type 0 };
}
