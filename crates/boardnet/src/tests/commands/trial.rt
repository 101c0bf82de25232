// The command `trial`: made boards.
use crate::tests::wants;
use board_io::MemoryPackage;
use std::test::Fail;

// The words, the status, the line, and the text.
static ROWS: [(&'static [&'static str], u8, &'static str, &'static str); 5] = [
    (
        &["trial", "1", "9"],
        1,
        "boardnet: trial done\n",
        "trial 1 9\npieces 45\nnets 9\npoints 27\nopens 1\nshorts 1\nmissing 0\n",
    ),
    (
        &["trial", "18446744073709551615", "0"],
        0,
        "boardnet: trial done\n",
        "trial 18446744073709551615 0\npieces 0\nnets 0\npoints 0\nopens 0\nshorts 0\nmissing 0\n",
    ),
    (
        &["trial", "1", "10001"],
        3,
        "boardnet: trial size too large\n",
        "",
    ),
    (
        &["trial", "1", "4294967296"],
        2,
        "boardnet: words not understood\n",
        "",
    ),
    (
        &["trial", "18446744073709551616", "5"],
        2,
        "boardnet: words not understood\n",
        "",
    ),
];

#[test]
fn trials(rt: HostRuntime) -> Result<(), Fail> {
    let alloc = rt.alloc();
    for row in &ROWS {
        let (given, status, line, text) = *row;
        let mut package = MemoryPackage::new(alloc);
        package.fail_at(0)?;
        wants(alloc, given, &mut package, status, line, text)?;
        assert_eq!(rt; package.calls(), 0);
    }
    Ok(())
}
