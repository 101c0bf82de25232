//! A box as a solid.
ghost use Rattle.cell_index.specs.PlateLaws.{corner_in};
ghost use Rattle.contact.specs.Solid.{InBox};
ghost use Rattle.std.specs.Prelude.{◌≤ℤ◌};

use contact::{Bounds, Closed};
use planar::{Frame, Spot};

/// The points of a closed box that holds some.
#[derive(Drop)]
pub struct Plate {
    pub bounds: Bounds,
    ghost ordered: { (bounds.left ≤ℤ bounds.right) × (bounds.low ≤ℤ bounds.high) },
}

impl Closed for Plate {
    ghost holds = { λ s. InBox s.bounds };

    ghost extent = { λ s. s.bounds };

    ghost is_lawful = { λ s. (s.bounds.left ≤ℤ s.bounds.right) × (s.bounds.low ≤ℤ s.bounds.high) };

    fn bounds(&self) -> Bounds {
        self.bounds
    }

    fn has(&self, p: Spot, _frame: Frame) -> bool {
        self.bounds.holds(p)
    }

    ghost not_empty = { λ s h. corner_in s.bounds h };

    ghost boxed = { λ s p h k. k };
}
