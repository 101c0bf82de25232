//! How far a primitive is turned by degrees.
ghost use Rattle.std.specs.Prelude.{◌≡◌, ◌<◌, IfOk};
ghost use Rattle.aperture_macros.specs.Degrees as spec;

use crate::fault::MacroFault;
use crate::primitive::Rotation;
use crate::values::coordinate;
use lengths::decimal::{Decimal, Unit};

// In 10^-7 degrees.
const QUARTER_TURN: u64 = 900_000_000;

const THREE_TURNS: i64 = 10_800_000_000;

/// A turn counterclockwise: so many quarter turns, and then `rest`, in 10^-7 degrees, which is less than one.
#[derive(Clone, Copy)]
pub struct Turn {
    pub quarters: Rotation,
    pub rest: u32,
}

/// The turn that a rotation says, in degrees: each term a whole number of 10^-7 degrees, and at most 1,000 degrees from 0, as
/// is the sum.
#[tactic(auto, unfolding(crate::specs::Degrees::turn_at))]
pub fn read_turn(text: &[u8], parameters: &[Decimal]) -> Result<Turn, MacroFault>
    ensures value { result ≡ spec.turn_at text.now parameters.now }
    ensures below { IfOk result (λ turn. turn.rest < 900000000) }
{
    let angle = coordinate(text, parameters, Unit::Mm)?;
    let turns = (angle + THREE_TURNS).unsigned_abs();
    Ok(Turn {
        quarters: quarter_turns(turns / QUARTER_TURN % 4),
        rest: (turns % QUARTER_TURN) as u32,
    })
}

fn quarter_turns(n: u64) -> Rotation
    ensures { result ≡ spec.quarter_turns n }
{
    if n == 0 {
        Rotation::Unturned
    } else if n == 1 {
        Rotation::Quarter
    } else if n == 2 {
        Rotation::Half
    } else {
        Rotation::ThreeQuarters
    }
}
