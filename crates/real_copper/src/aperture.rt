//! Apertures of real copper.
use apertures::Aperture;

/// A form whose sizes along x and along y are whole numbers of u, even or odd: each over 0 and at most 1 m, and the lesser one of what is
/// round at most 50 mm (Gerber Layer Format Specification, 4.4.2 to 4.4.4).
#[derive(Clone, Copy, Debug)]
pub enum OddForm {
    Circle(u64),
    Rectangle(u64, u64),
    Obround(u64, u64),
}

/// A round hole in the middle, by its diameter in u, at most 50 mm and less than both sizes (4.4.6).
#[derive(Clone, Copy, Debug)]
pub struct Hole {
    pub diameter: u64,
}

/// A standard aperture of real copper (4.4).
#[derive(Clone, Copy, Debug)]
pub enum RealAperture {
    /// One that is taken exactly.
    Exact(Aperture),
    /// A circle by its even diameter, with an even hole: a quarter of the sum of both diameters is whole (4.4.2, 4.4.6).
    Ring(u64, Hole),
    /// A rectangle by its even sides, with an even hole (4.4.3, 4.4.6).
    Frame(u64, u64, Hole),
    /// One of an odd size.
    Odd(OddForm),
    /// Any other one with a hole (4.4.6).
    Pierced(OddForm, Hole),
}
