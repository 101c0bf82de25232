// The loop over words, by the least dialect.
use crate::{Blank, Place, read_by};
use board_shapes::Room;
use file_reading::FileFault;
use std::test::Fail;

#[test]
fn a_file_of_blank_words_has_no_end(rt: HostRuntime) -> Result<(), Fail> {
    let room = Room {
        pieces: 1,
        edges: 0,
    };
    let place = Place {
        layer: 1,
        file: 0,
        room,
    };
    let answer = match read_by::<Blank>(rt.alloc(), b"G04*G04*", place) {
        Ok(_) => 0,
        Err(FileFault::NoMemory) => 1,
        Err(FileFault::Refused { command, .. }) => command,
    };
    assert_eq!(rt; answer, 3);
    Ok(())
}
