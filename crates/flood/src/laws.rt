//! Laws of nets and homes.
ghost use Rattle.board_shapes.specs.Plain.{PlainBoard};
ghost use Rattle.board_shapes.specs.declared.placed.Placed.{Placed};
ghost use Rattle.board_shapes.specs.declared.shape.Shape.{Shape};
ghost use Rattle.flood.specs.Laws.{HomesAreOfTheBoard, NetsAreOfTheBoard};
ghost use Rattle.std.specs.Prelude.{List, Option, ℕ};
ghost use Rattle.verdict.specs.declared.verdict.Twig.{Twig};

/// Nets that are lawful over a list of placed shapes are lawful for each board that has these pieces.
pub fn nets_are_of_the_board()
    ensures { (b : PlainBoard) (items : List (Placed Shape)) (nets : List (List Twig)) → NetsAreOfTheBoard b items nets }
{}

/// Homes over a list of placed shapes are homes on each board that has these pieces.
pub fn homes_are_of_the_board()
    ensures { (b : PlainBoard) (items : List (Placed Shape)) (homes : List (Option ℕ)) → HomesAreOfTheBoard b items homes }
{}
