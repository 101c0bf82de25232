//! Whether pieces lie below a layer, and figures above it.
ghost use Rattle.clear_polarity.specs.Faults.{IsLayerFault};
ghost use Rattle.clear_polarity.specs.Taken.{AreHeld, IsLeft};
ghost use Rattle.std.specs.Prelude.{All, IfErr, IfOk};

use crate::above::are_held;
use crate::below::are_left;
use crate::{LayerObject, LowerPiece};
use board_shapes::Shape;
use planar::Frame;

/// Why pieces are no bounds of a layer.
#[derive(Clone, Copy, Debug, PartialEq, Eq)]
pub enum LayerFault {
    /// Some piece below is not taken.
    Lower,
    /// All are, and the figures above are not.
    Upper,
}

/// Whether the pieces below lie in dark objects of the layer and are spared by all later objects, and the figures above are
/// those of the dark objects whole. Where it says so, they bound the copper by each reading of the layer (`bounds_lie_between`); others that do are refused.
pub fn check_layer(
    objects: &[LayerObject],
    lower: &[LowerPiece],
    upper: &[Shape],
    frame: Frame,
) -> Result<(), LayerFault>
    ensures below { IfOk result (λ _. All (IsLeft frame objects.now) lower.now) }
    ensures above { IfOk result (λ _. AreHeld objects.now upper.now) }
    ensures fault { IfErr result (IsLayerFault frame objects.now lower.now upper.now) }
{
    if !are_left(objects, lower, frame) {
        return Err(LayerFault::Lower);
    }
    if !are_held(objects, upper) {
        return Err(LayerFault::Upper);
    }
    Ok(())
}
