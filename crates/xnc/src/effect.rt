//! What a line does.
use contact::Capsule;
use planar::Spot;

/// Besides its settings a line may define a tool by its diameter in u, go to a place, or go to a
/// place and make a barrel.
pub enum Effect {
    Stays,
    Makes(u32, u64),
    Moves(Spot),
    Drills(Spot, Capsule),
}
