//! What a line does.
use lengths::decimal::Unit;
use planar::Spot;

/// A line may set the unit, end the records, or test a net at a place by an access code.
#[derive(Clone, Copy)]
pub enum Effect<'a> {
    Stays,
    Sets(Unit),
    Closes,
    Adds(&'a [u8], u32, Spot),
}
