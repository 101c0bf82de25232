//! Files, and their lines.
use texts::{Line, Lines, trimmed};

fn parts<'a>(line: Option<Line<'a>>) -> Option<(u32, usize, &'a [u8])> {
    match line {
        None => None,
        Some(line) => Some((line.number, line.at, line.text)),
    }
}

#[test]
fn lines_are_cut(rt: HostRuntime) {
    let mut lines = Lines::new(b"a\r\n\n \tb\r\r\nlast\r");
    assert_eq!(rt; parts(lines.next_line()), Some((1, 0, b"a".as_slice())));
    assert_eq!(rt; parts(lines.next_line()), Some((2, 3, b"".as_slice())));
    assert_eq!(rt;
        parts(lines.next_line()),
        Some((3, 4, b" \tb\r".as_slice()))
    );
    assert_eq!(rt;
        parts(lines.next_line()),
        Some((4, 10, b"last\r".as_slice()))
    );
    assert_eq!(rt; parts(lines.next_line()), None);
    assert_eq!(rt; lines.number(), 5);
    let mut none = Lines::new(b"");
    assert_eq!(rt; parts(none.next_line()), None);
    assert_eq!(rt; none.number(), 1);
    assert_eq!(rt; trimmed(b"\t a \r \t"), b"a \r".as_slice());
    assert_eq!(rt; trimmed(b" \t "), b"".as_slice());
}
