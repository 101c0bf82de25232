// Reports that are read back and written again, and bytes that are no report.
use std::alloc::Global;
use std::test::*;
use verdict::{ReadFault, Verdict, read_report, write_report};

const THREE_NAMES: &[u8] =
    b"boardnet 1\npieces 5\nnets 1\nnet 0 0 1:0 2:1 3:1 4:2\nnames 3\nname 0 A\nname 1 B\nname 2 C\npoints 3\npoint 0 1 1 0 0\npoint 1 2 1 1 0\npoint 2 3 1 2 0\nopens 0\nshorts 1\nshort 0 3\nbranch 0 0 0\nbranch 1 1 2 1 0\nbranch 2 2 4 2\nmissing 0\ndiffers\n";

// The verdict that was read, or nothing.
fn verdict_of(alloc: Global, text: &[u8]) -> Result<Option<Verdict>, Fail> {
    match read_report(alloc, text) {
        Ok(verdict) => Ok(Some(verdict)),
        Err(ReadFault::NotAReport) => Ok(None),
        Err(ReadFault::NoMemory) => Err("memory is wanted".into()),
    }
}

// What is written of what was read.
fn again(alloc: Global, text: &[u8]) -> Result<Vec<u8>, Fail> {
    let verdict = verdict_of(alloc, text)?.ok_or("the text is a report")?;
    match write_report(alloc, &verdict) {
        Ok(written) => Ok(written),
        Err(_) => Err("memory is wanted".into()),
    }
}

fn is_no_report(alloc: Global, text: &[u8]) -> Result<bool, Fail> {
    Ok(verdict_of(alloc, text)?.is_none())
}

static REPORTS: [&'static [u8]; 10] = [
    THREE_NAMES,
    // nothing at all
    b"boardnet 1\npieces 0\nnets 0\nnames 0\npoints 0\nopens 0\nshorts 0\nmissing 0\nagrees\n",
    // the largest numbers
    b"boardnet 1\npieces 4294967295\nnets 1\nnet 0 4294967295:4294967295\nnames 0\npoints 1\npoint 0 4294967295 255 4294967295 4294967295\nopens 0\nshorts 0\nmissing 0\nagrees\n",
    // a net without pieces, a short without branches, a branch without pieces
    b"boardnet 1\npieces 0\nnets 1\nnet 0\nnames 0\npoints 0\nopens 0\nshorts 2\nshort 0 0\nshort 1 1\nbranch 0 0\nmissing 0\ndiffers\n",
    // blanks in names, and names like lines
    b"boardnet 1\npieces 0\nnets 0\nnames 4\nname 0  \nname 1  a  b \nname 2 name 2 -\nname 3 differs\npoints 0\nopens 0\nshorts 0\nmissing 0\nagrees\n",
    // an open alone, and a point without a net alone
    b"boardnet 1\npieces 0\nnets 0\nnames 0\npoints 0\nopens 1\nopen 1 2 3 4\nshorts 0\nmissing 0\ndiffers\n",
    b"boardnet 1\npieces 0\nnets 0\nnames 0\npoints 2\npoint 0 0 0 0 -\npoint 1 0 0 0 0\nopens 0\nshorts 0\nmissing 1\nbare 0\ndiffers\n",
    // a supplement without lines
    b"boardnet 2\npieces 0\nnets 0\nnames 0\npoints 0\nopens 0\nshorts 0\nmissing 0\nspots 0\nsources 0\nagrees\n",
    // places on either side of 0, the least and the greatest, and the largest numbers of a source
    b"boardnet 2\npieces 0\nnets 0\nnames 0\npoints 0\nopens 0\nshorts 0\nmissing 1\nbare 7\nspots 3\nspot 0 0 -1\nspot 1 -9223372036854775808 9223372036854775807\nspot 2 -10 10\nsources 2\nsource 0 0 0 0 0 0\nsource 1 4294967295 4294967295 4294967295 255 255\ndiffers\n",
    // numbers of two digits
    b"boardnet 1\npieces 10\nnets 11\nnet 0 0\nnet 1 1\nnet 2 2\nnet 3 3\nnet 4 4\nnet 5 5\nnet 6 6\nnet 7 7\nnet 8 8\nnet 9 9\nnet 10 10\nnames 0\npoints 0\nopens 0\nshorts 0\nmissing 0\nagrees\n",
];

// Ends, counts and last lines.
static WRONG_FRAMES: [&'static [u8]; 18] = [
    b"",
    b"boardnet 1\n",
    b"boardnet 2\npieces 0\nnets 0\nnames 0\npoints 0\nopens 0\nshorts 0\nmissing 0\nagrees\n",
    b"boardnet 1\npieces 0\nnets 0\nnames 0\npoints 0\nopens 0\nshorts 0\nmissing 0\nagrees",
    b"boardnet 1\npieces 0\nnets 0\nnames 0\npoints 0\nopens 0\nshorts 0\nmissing 0\nagrees\n\n",
    b"boardnet 1\npieces 0\nnets 0\nnames 0\npoints 0\nopens 0\nshorts 0\nmissing 0\nagrees\nx",
    b"boardnet 1\r\npieces 0\nnets 0\nnames 0\npoints 0\nopens 0\nshorts 0\nmissing 0\nagrees\n",
    b"boardnet 1\n\npieces 0\nnets 0\nnames 0\npoints 0\nopens 0\nshorts 0\nmissing 0\nagrees\n",
    b"boardnet 1\npieces 0\nnets 0\nnames 0\npoints 0\nopens 0\nshorts 0\nmissing 0\ndiffers\n",
    b"boardnet 1\npieces 0\nnets 0\nnames 0\npoints 0\nopens 0\nshorts 0\nmissing 0\n",
    b"boardnet 1\npieces 0\nnames 0\nnets 0\npoints 0\nopens 0\nshorts 0\nmissing 0\nagrees\n",
    b"boardnet 1\npieces 0\nnets 1\nnames 0\npoints 0\nopens 0\nshorts 0\nmissing 0\nagrees\n",
    b"boardnet 1\npieces 0\nnets 0\nnet 0 0\nnames 0\npoints 0\nopens 0\nshorts 0\nmissing 0\nagrees\n",
    b"boardnet 1\npieces 0\nnets 0\nnames 0\npoints 0\nopens 1\nopen 1 2 3 4\nshorts 0\nmissing 0\nagrees\n",
    b"boardnet 1\npieces 0\nnets 0\nnames 0\npoints 0\nopens 0\nshorts 1\nshort 0 0\nmissing 0\nagrees\n",
    b"boardnet 1\npieces 0\nnets 0\nnames 0\npoints 0\nopens 0\nshorts 0\nmissing 1\nbare 0\nagrees\n",
    // no memory is taken for lines that are not there
    b"boardnet 1\npieces 0\nnets 4294967295\nnames 0\npoints 0\nopens 0\nshorts 0\nmissing 0\nagrees\n",
    b"boardnet 1\npieces 0\nnets 18446744073709551615\n",
];

// Numbers.
static WRONG_NUMBERS: [&'static [u8]; 16] = [
    b"boardnet 1\npieces 00\nnets 0\nnames 0\npoints 0\nopens 0\nshorts 0\nmissing 0\nagrees\n",
    b"boardnet 1\npieces 01\nnets 0\nnames 0\npoints 0\nopens 0\nshorts 0\nmissing 0\nagrees\n",
    b"boardnet 1\npieces +1\nnets 0\nnames 0\npoints 0\nopens 0\nshorts 0\nmissing 0\nagrees\n",
    b"boardnet 1\npieces -1\nnets 0\nnames 0\npoints 0\nopens 0\nshorts 0\nmissing 0\nagrees\n",
    b"boardnet 1\npieces \nnets 0\nnames 0\npoints 0\nopens 0\nshorts 0\nmissing 0\nagrees\n",
    b"boardnet 1\npieces  1\nnets 0\nnames 0\npoints 0\nopens 0\nshorts 0\nmissing 0\nagrees\n",
    b"boardnet 1\npieces 1 \nnets 0\nnames 0\npoints 0\nopens 0\nshorts 0\nmissing 0\nagrees\n",
    b"boardnet 1\npieces 1x\nnets 0\nnames 0\npoints 0\nopens 0\nshorts 0\nmissing 0\nagrees\n",
    b"boardnet 1\npieces 4294967296\nnets 0\nnames 0\npoints 0\nopens 0\nshorts 0\nmissing 0\nagrees\n",
    b"boardnet 1\npieces 18446744073709551616\nnets 0\nnames 0\npoints 0\nopens 0\nshorts 0\nmissing 0\nagrees\n",
    b"boardnet 1\npieces 0\nnets 00\nnames 0\npoints 0\nopens 0\nshorts 0\nmissing 0\nagrees\n",
    b"boardnet 1\npieces 0\nnets 18446744073709551616\nnames 0\npoints 0\nopens 0\nshorts 0\nmissing 0\nagrees\n",
    b"boardnet 1\npieces 0\nnets 0\nnames 0\npoints 1\npoint 0 1 256 0 -\nopens 0\nshorts 0\nmissing 0\nagrees\n",
    b"boardnet 1\npieces 0\nnets 0\nnames 0\npoints 1\npoint 0 1 1 0 -1\nopens 0\nshorts 0\nmissing 0\nagrees\n",
    b"boardnet 1\npieces 0\nnets 0\nnames 0\npoints 1\npoint 0 1 1 0 01\nopens 0\nshorts 0\nmissing 0\nagrees\n",
    b"boardnet 1\npieces 0\nnets 0\nnames 0\npoints 1\npoint 0 1 1 0\nopens 0\nshorts 0\nmissing 0\nagrees\n",
];

// Lines of nets, names and points.
static WRONG_LINES: [&'static [u8]; 16] = [
    b"boardnet 1\npieces 0\nnets 1\nnet 1 0\nnames 0\npoints 0\nopens 0\nshorts 0\nmissing 0\nagrees\n",
    b"boardnet 1\npieces 0\nnets 1\nnet 00 0\nnames 0\npoints 0\nopens 0\nshorts 0\nmissing 0\nagrees\n",
    b"boardnet 1\npieces 0\nnets 1\nnet 0 1:\nnames 0\npoints 0\nopens 0\nshorts 0\nmissing 0\nagrees\n",
    b"boardnet 1\npieces 0\nnets 1\nnet 0 :1\nnames 0\npoints 0\nopens 0\nshorts 0\nmissing 0\nagrees\n",
    b"boardnet 1\npieces 0\nnets 1\nnet 0 1:0:0\nnames 0\npoints 0\nopens 0\nshorts 0\nmissing 0\nagrees\n",
    b"boardnet 1\npieces 0\nnets 1\nnet 0 1: 0\nnames 0\npoints 0\nopens 0\nshorts 0\nmissing 0\nagrees\n",
    b"boardnet 1\npieces 0\nnets 1\nnet 0 0 \nnames 0\npoints 0\nopens 0\nshorts 0\nmissing 0\nagrees\n",
    b"boardnet 1\npieces 0\nnets 1\nnet 0 0\tnames 0\npoints 0\nopens 0\nshorts 0\nmissing 0\nagrees\n",
    b"boardnet 1\npieces 0\nnets 0\nnames 1\nname 1 A\npoints 0\nopens 0\nshorts 0\nmissing 0\nagrees\n",
    b"boardnet 1\npieces 0\nnets 0\nnames 1\nname 0 \npoints 0\nopens 0\nshorts 0\nmissing 0\nagrees\n",
    b"boardnet 1\npieces 0\nnets 0\nnames 1\nname 0\npoints 0\nopens 0\nshorts 0\nmissing 0\nagrees\n",
    b"boardnet 1\npieces 0\nnets 0\nnames 1\nname 0 A\x7f\npoints 0\nopens 0\nshorts 0\nmissing 0\nagrees\n",
    b"boardnet 1\npieces 0\nnets 0\nnames 1\nname 0 \tA\npoints 0\nopens 0\nshorts 0\nmissing 0\nagrees\n",
    b"boardnet 1\npieces 0\nnets 0\nnames 1\nname 0 A\r\npoints 0\nopens 0\nshorts 0\nmissing 0\nagrees\n",
    b"boardnet 1\npieces 0\nnets 0\nnames 1\nname 0 A",
    b"boardnet 1\npieces 0\nnets 0\nnames 0\npoints 1\npoint 1 1 1 0 0\nopens 0\nshorts 0\nmissing 0\nagrees\n",
];

// Findings.
static WRONG_FINDINGS: [&'static [u8]; 9] = [
    b"boardnet 1\npieces 0\nnets 0\nnames 0\npoints 0\nopens 1\nopen 0 1 2\nshorts 0\nmissing 0\ndiffers\n",
    b"boardnet 1\npieces 0\nnets 0\nnames 0\npoints 0\nopens 1\nopen 0 1 2 3 4\nshorts 0\nmissing 0\ndiffers\n",
    b"boardnet 1\npieces 0\nnets 0\nnames 0\npoints 0\nopens 0\nshorts 1\nshort 0 2\nbranch 0 0 0\nmissing 0\ndiffers\n",
    b"boardnet 1\npieces 0\nnets 0\nnames 0\npoints 0\nopens 0\nshorts 1\nshort 0 0\nbranch 0 0 0\nmissing 0\ndiffers\n",
    b"boardnet 1\npieces 0\nnets 0\nnames 0\npoints 0\nopens 0\nshorts 1\nshort 0 4294967295\nmissing 0\ndiffers\n",
    b"boardnet 1\npieces 0\nnets 0\nnames 0\npoints 0\nopens 0\nshorts 1\nshort 0 1\nbranch 0 0 0 \nmissing 0\ndiffers\n",
    b"boardnet 1\npieces 0\nnets 0\nnames 0\npoints 0\nopens 0\nshorts 1\nshort 0 1\nbranch 0 0 1:0\nmissing 0\ndiffers\n",
    b"boardnet 1\npieces 0\nnets 0\nnames 0\npoints 0\nopens 0\nshorts 0\nmissing 2\nbare 0\ndiffers\n",
    b"boardnet 1\npieces 0\nnets 0\nnames 0\npoints 0\nopens 0\nshorts 0\nmissing 1\nbare\ndiffers\n",
];

// First lines, spots and sources.
static WRONG_SUPPLEMENTS: [&'static [u8]; 24] = [
    b"boardnet 1\npieces 0\nnets 0\nnames 0\npoints 0\nopens 0\nshorts 0\nmissing 0\nspots 0\nsources 0\nagrees\n",
    b"boardnet 3\npieces 0\nnets 0\nnames 0\npoints 0\nopens 0\nshorts 0\nmissing 0\nspots 0\nsources 0\nagrees\n",
    b"boardnet 02\npieces 0\nnets 0\nnames 0\npoints 0\nopens 0\nshorts 0\nmissing 0\nspots 0\nsources 0\nagrees\n",
    b"boardnet 2 \npieces 0\nnets 0\nnames 0\npoints 0\nopens 0\nshorts 0\nmissing 0\nspots 0\nsources 0\nagrees\n",
    b"boardnet 2\npieces 0\nnets 0\nnames 0\npoints 0\nopens 0\nshorts 0\nmissing 0\nspots 0\nagrees\n",
    b"boardnet 2\npieces 0\nnets 0\nnames 0\npoints 0\nopens 0\nshorts 0\nmissing 0\nsources 0\nagrees\n",
    b"boardnet 2\npieces 0\nnets 0\nnames 0\npoints 0\nopens 0\nshorts 0\nmissing 0\nsources 0\nspots 0\nagrees\n",
    b"boardnet 2\npieces 0\nnets 0\nnames 0\npoints 0\nopens 0\nshorts 0\nmissing 0\nspots 0\nsources 0\ndiffers\n",
    b"boardnet 2\npieces 0\nnets 0\nnames 0\npoints 0\nopens 0\nshorts 0\nmissing 0\nspots 0\nsources 0\n",
    b"boardnet 2\npieces 0\nnets 0\nnames 0\npoints 0\nopens 0\nshorts 0\nmissing 0\nagrees\nspots 0\nsources 0\n",
    b"boardnet 2\npieces 0\nnets 0\nnames 0\npoints 0\nopens 0\nshorts 0\nmissing 0\nspots 1\nspot 1 0 0\nsources 0\nagrees\n",
    b"boardnet 2\npieces 0\nnets 0\nnames 0\npoints 0\nopens 0\nshorts 0\nmissing 0\nspots 1\nspot 0 -0 0\nsources 0\nagrees\n",
    b"boardnet 2\npieces 0\nnets 0\nnames 0\npoints 0\nopens 0\nshorts 0\nmissing 0\nspots 1\nspot 0 0 -0\nsources 0\nagrees\n",
    b"boardnet 2\npieces 0\nnets 0\nnames 0\npoints 0\nopens 0\nshorts 0\nmissing 0\nspots 1\nspot 0 +1 0\nsources 0\nagrees\n",
    b"boardnet 2\npieces 0\nnets 0\nnames 0\npoints 0\nopens 0\nshorts 0\nmissing 0\nspots 1\nspot 0 -01 0\nsources 0\nagrees\n",
    b"boardnet 2\npieces 0\nnets 0\nnames 0\npoints 0\nopens 0\nshorts 0\nmissing 0\nspots 1\nspot 0 --1 0\nsources 0\nagrees\n",
    b"boardnet 2\npieces 0\nnets 0\nnames 0\npoints 0\nopens 0\nshorts 0\nmissing 0\nspots 1\nspot 0 - 1 0\nsources 0\nagrees\n",
    b"boardnet 2\npieces 0\nnets 0\nnames 0\npoints 0\nopens 0\nshorts 0\nmissing 0\nspots 1\nspot 0 9223372036854775808 0\nsources 0\nagrees\n",
    b"boardnet 2\npieces 0\nnets 0\nnames 0\npoints 0\nopens 0\nshorts 0\nmissing 0\nspots 1\nspot 0 -9223372036854775809 0\nsources 0\nagrees\n",
    b"boardnet 2\npieces 0\nnets 0\nnames 0\npoints 0\nopens 0\nshorts 0\nmissing 0\nspots 1\nspot 0 0\nsources 0\nagrees\n",
    b"boardnet 2\npieces 0\nnets 0\nnames 0\npoints 0\nopens 0\nshorts 0\nmissing 0\nspots 0\nsources 1\nsource 1 0 1 0 1 1\nagrees\n",
    b"boardnet 2\npieces 0\nnets 0\nnames 0\npoints 0\nopens 0\nshorts 0\nmissing 0\nspots 0\nsources 1\nsource 0 0 1 -1 1 1\nagrees\n",
    b"boardnet 2\npieces 0\nnets 0\nnames 0\npoints 0\nopens 0\nshorts 0\nmissing 0\nspots 0\nsources 1\nsource 0 0 1 0 1 256\nagrees\n",
    b"boardnet 2\npieces 0\nnets 0\nnames 0\npoints 0\nopens 0\nshorts 0\nmissing 0\nspots 0\nsources 1\nsource 0 0 1 0 1\nagrees\n",
];

#[test]
fn reports_are_read_and_written_again(rt: HostRuntime) -> Result<(), Fail> {
    let alloc = rt.alloc();
    for text in &REPORTS {
        assert_eq!(rt; again(alloc, *text)?.as_slice(), *text);
    }
    Ok(())
}

#[test]
fn near_misses(rt: HostRuntime) -> Result<(), Fail> {
    let alloc = rt.alloc();
    for text in &WRONG_FRAMES {
        assert!(rt; is_no_report(alloc, *text)?);
    }
    for text in &WRONG_NUMBERS {
        assert!(rt; is_no_report(alloc, *text)?);
    }
    for text in &WRONG_LINES {
        assert!(rt; is_no_report(alloc, *text)?);
    }
    for text in &WRONG_FINDINGS {
        assert!(rt; is_no_report(alloc, *text)?);
    }
    for text in &WRONG_SUPPLEMENTS {
        assert!(rt; is_no_report(alloc, *text)?);
    }
    Ok(())
}

// The report of three names without its short, and without its last line feed.
#[test]
fn changed_reports(rt: HostRuntime) -> Result<(), Fail> {
    let alloc = rt.alloc();
    let short =
        b"boardnet 1\npieces 5\nnets 1\nnet 0 0 1:0 2:1 3:1 4:2\nnames 3\nname 0 A\nname 1 B\nname 2 C\npoints 3\npoint 0 1 1 0 0\npoint 1 2 1 1 0\npoint 2 3 1 2 0\nopens 0\nshorts 0\nmissing 0\ndiffers\n";
    assert!(rt; is_no_report(alloc, short)?);
    let (_, without_feed) = THREE_NAMES.split_last().ok_or("the report has bytes")?;
    assert!(rt; is_no_report(alloc, without_feed)?);
    Ok(())
}

// Names of 200 bytes and of 201.
#[test]
fn long_names(rt: HostRuntime) -> Result<(), Fail> {
    let alloc = rt.alloc();
    let front = b"boardnet 1\npieces 0\nnets 0\nnames 1\nname 0 ";
    let back = b"\npoints 0\nopens 0\nshorts 0\nmissing 0\nagrees\n";
    let mut longest = Vec::from_slice(alloc, front)?;
    longest.extend_from_slice(&[b'x'; 200])?;
    longest.extend_from_slice(back)?;
    assert_eq!(rt; again(alloc, &longest)?.as_slice(), longest.as_slice());
    let mut longer = Vec::from_slice(alloc, front)?;
    longer.extend_from_slice(&[b'x'; 201])?;
    longer.extend_from_slice(back)?;
    assert!(rt; is_no_report(alloc, &longer)?);
    Ok(())
}
