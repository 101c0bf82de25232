//! Laws on the files of made boards: what their own readers make of them.
//!
//! `board_maker` writes the files of a board of so many cells, and `boardnet trial` judges it. Here it is proved what the drill
//! file, the netlist and both copper files of each such board are read as, and that their package fits. Their calls do nothing.
#![tactic(auto)]

ghost use Rattle.made_files.specs.MadeFiles.{MadeCopperIsRead, MadeHolesAreRead, MadePointsAreRead};
ghost use Rattle.made_files.specs.MadePackages.{MadePackagesFit};

/// The drill file of every made board of at most 10,000 cells is read where there is room, as a hole of 0.4 mm in each cell.
pub fn made_holes_are_read()
    ensures { MadeHolesAreRead }
{}

/// The netlist of every made board of at most 10,000 cells is read, as the three points and the name of each cell.
pub fn made_points_are_read()
    ensures { MadePointsAreRead }
{}

/// Both copper files of every made board of at most 10,000 cells are read where there is room for three pieces and four edges a
/// cell, as the pads and the tracks of each cell.
pub fn made_copper_is_read()
    ensures { MadeCopperIsRead }
{}

/// The package of every made board of at most 10,000 cells has a board: its manifest and its files are read, and its pieces fit in
/// a frame.
pub fn made_packages_fit()
    ensures { MadePackagesFit }
{
    board_maker::laws::made_files_are_short();
}
