//! What stands in the aperture dictionary.
use lengths::decimal::{Decimal, Unit};

/// An aperture: a standard one, or the macro of a name with its parameters and their unit, and with a
/// mark for each of its primitives, in order, whether it has no image with these.
#[derive(Drop)]
pub enum Tool<'a, A> {
    Standard(A),
    Composed(&'a [u8], Vec<Decimal>, Unit, Vec<bool>),
}
