//! A grid of copies.

/// How often a block is repeated, and how far apart the copies stand (Gerber Layer Format
/// Specification, step and repeat): `across` columns `dx` apart, each of `up` rows `dy` apart, in u.
#[derive(Clone, Copy)]
pub struct Repeat {
    /// The number of columns, from 1 to 999,999,999.
    pub across: u32,
    /// The number of rows, from 1 to 999,999,999.
    pub up: u32,
    /// How far one column stands to the right of the one before it, in u, at most 1 m.
    pub dx: i64,
    /// How far one row stands above the one before it, in u, at most 1 m.
    pub dy: i64,
}
