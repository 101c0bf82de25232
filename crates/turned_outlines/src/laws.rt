//! Laws over the definitions. Their calls do nothing.
ghost use Rattle.turned_outlines.specs.Laws.{OutlineHolds, OutlineLies};

use slants::laws::discs_are_between;

/// The polygon of corners that are taken, together with the capsules along it, holds all that lies in the
/// figure at one turn by about the angle.
pub fn outline_holds()
    ensures { OutlineHolds }
{
    discs_are_between();
}

/// An area that is taken below lies in the figure at each turn by about the angle.
pub fn outline_lies()
    ensures { OutlineLies }
{
    discs_are_between();
    arc_regions::laws::taken_lies();
}
