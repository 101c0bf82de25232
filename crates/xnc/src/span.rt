//! The layers that a drill file joins.
ghost use Rattle.std.specs.Prelude.{◌≤◌};
ghost use Rattle.board_shapes.specs.declared.TheConstants.{MOST_LAYERS};

/// The layers that each barrel of a drill file joins, 1 <= from <= to <= `MOST_LAYERS`.
#[derive(Clone, Copy)]
pub struct Span {
    /// The first layer, from 1.
    pub from: u8,
    /// The last layer.
    pub to: u8,
    pub ghost from_first: { 1 ≤ from },
    pub ghost ordered: { from ≤ to },
    pub ghost to_last: { to ≤ MOST_LAYERS },
}
