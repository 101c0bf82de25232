//! How the reader goes on behind a command.
ghost use Rattle.std.specs.Prelude.{None, Some, ◌≡◌};

use planar::Spot;
use step_repeat::Repeat;

/// Where a command leads, if it is an operation, and the block that it opens.
#[derive(Clone, Copy)]
pub struct Leads {
    pub to: Option<Spot>,
    pub next: Option<Repeat>,
}

/// It leads nowhere.
pub fn nowhere() -> Leads
    ensures { result ≡ record { to = None; next = None } }
{
    Leads {
        to: None,
        next: None,
    }
}

/// An operation leads to a spot.
pub fn leading_to(to: Spot) -> Leads
    ensures { result ≡ record { to = Some to; next = None } }
{
    Leads {
        to: Some(to),
        next: None,
    }
}

/// A step and repeat word opens a block, or none.
pub fn opening(next: Option<Repeat>) -> Leads
    ensures { result ≡ record { to = None; next = next } }
{
    Leads { to: None, next }
}
