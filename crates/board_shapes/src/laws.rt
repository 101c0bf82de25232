//! Laws over the definitions. Their calls do nothing.
ghost use Rattle.board_shapes.specs.Laws.{BoardsAreLawful, PiecesUnderOneProbeTouch, TablesAreConsistent, TablesAreUnique, TablesJoinProbes};

/// Every board has lawful shapes with boxes inside its frame, on spans of its layers, and probes
/// with its names and layers within 1 m.
pub fn boards_are_lawful()
    ensures { BoardsAreLawful }
{}

/// Every board has exactly one set of tables, and two pieces under one probe are the same or touch.
pub fn tables_are_unique()
    ensures unique { TablesAreUnique }
    ensures close { PiecesUnderOneProbeTouch }
{}

/// The tables of a board list pieces of the board, and each pair that touches both ways; and they
/// join two test points exactly where a chain of touching pieces joins the probes.
pub fn tables_tell_joins()
    ensures consistent { TablesAreConsistent }
    ensures joins { TablesJoinProbes }
{}
