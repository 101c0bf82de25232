//! Laws over the definitions. Their calls do nothing.
ghost use Rattle.board_maker.specs.Laws.{MadeFilesAreShort, TestRecordsFillTheirColumns};

/// Each file of a made package of at most 10,000 cells has at most 1,160,100 bytes: so none is too long to be read.
pub fn made_files_are_short()
    ensures { MadeFilesAreShort }
{}

/// A test record of a made package has the 57 columns of a netlist's line, and a line feed.
pub fn test_records_fill_their_columns()
    ensures { TestRecordsFillTheirColumns }
{}
