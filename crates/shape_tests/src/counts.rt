//! Files of counts.
use arc_covers::{CountsFault, read_counts};
use std::test::Fail;

fn sum(counts: &[u32]) -> u64 {
    let mut all = 0u64;
    for count in counts {
        all = all.saturating_add(u64::from(*count));
    }
    all
}

/// A file, and the sums of its counts or why it is none.
type File = (&'static [u8], Result<(u64, u64), CountsFault>);

static FILES: [File; 14] = [
    (b"boardnet-bounds 1\n", Ok((0, 0))),
    (b"boardnet-bounds 1\n1 1\n6 17\n", Ok((7, 18))),
    (b"boardnet-bounds 1\n0 4294967295\n", Ok((0, 4_294_967_295))),
    (
        b"boardnet-bounds 1\n1 4294967296\n",
        Err(CountsFault::Line(2)),
    ),
    (b"boardnet-bounds 1\n1 1\n01 6\n", Err(CountsFault::Line(3))),
    (b"boardnet-bounds 1\n1 1\n1 +6\n", Err(CountsFault::Line(3))),
    (b"boardnet-bounds 1\n1 1\n1  6\n", Err(CountsFault::Line(3))),
    (b"boardnet-bounds 1\n1 1\n1 6 \n", Err(CountsFault::Line(3))),
    (
        b"boardnet-bounds 1\n1 1\n1 6\r\n",
        Err(CountsFault::Line(3)),
    ),
    (b"boardnet-bounds 1\n1 1\n\n", Err(CountsFault::Line(3))),
    (b"boardnet-bounds 1\n1 1\n1 6", Err(CountsFault::Line(3))),
    (b"boardnet-bounds 1\r\n1 1\n", Err(CountsFault::Line(1))),
    (b"boardnet-bounds 2\n1 1\n", Err(CountsFault::Line(1))),
    (b"", Err(CountsFault::Line(1))),
];

/// The file's forms, and the first line of another.
#[test]
fn files_of_counts(rt: HostRuntime) -> Result<(), Fail> {
    let alloc = rt.alloc();
    for row in &FILES {
        let (file, told) = *row;
        let found = match read_counts(alloc, file) {
            Ok(counts) => Ok((sum(counts.lower.as_slice()), sum(counts.upper.as_slice()))),
            Err(fault) => Err(fault),
        };
        assert!(rt; found == told);
    }
    Ok(())
}
