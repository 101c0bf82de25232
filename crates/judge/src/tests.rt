// Opens and points without a net, from lines written out.
ghost use Rattle.std.specs.Prelude.{◌<◌, ◌↔◌, All, IsTrue};

use crate::opens::opens_of;
use crate::points::bare_of;
use crate::seats::seats_of;
use lengths::rows::Rows;
use lengths::text::{Text, TextFault};
use std::alloc::Global;
use std::test::Fail;
use verdict::{Open, PointLine};

fn names_of(alloc: Global, names: &[&[u8]]) -> Result<Rows<Text>, TextFault> {
    let mut rows = Rows::new(alloc);
    for name in names {
        let text = Text::new(alloc, name)?;
        if rows.push(text).is_err() {
            return Err(TextFault::NoMemory);
        }
    }
    Ok(rows)
}

fn are_known(lines: &[PointLine], names: usize) -> bool
    ensures { IsTrue result ↔ All (λ line. line.name < names) lines.now }
{
    lines.iter().all(|line| (line.name as usize) < names)
}

fn line(name: u32, net: Option<u32>) -> PointLine {
    PointLine {
        number: 1,
        layer: 1,
        name,
        net,
    }
}

fn open(name: u32, home: u32, other: u32, probe: u32) -> Open {
    Open {
        name,
        home,
        other,
        probe,
    }
}

// The home is the net of the first point that has one; each further net has one open, with its first point; points
// that are to be joined to nothing have none.
#[test]
fn opens_and_bare_points(rt: HostRuntime) -> Result<(), Fail> {
    let names = names_of(rt.alloc(), &[b"A", b"N/C", b"B"])?;
    let table: [(&[PointLine], &[Open], &[u32]); 4] = [
        (&[], &[], &[]),
        (
            &[line(0, Some(0)), line(0, Some(1))],
            &[open(0, 0, 1, 1)],
            &[],
        ),
        (
            &[
                line(0, None),
                line(2, Some(4)),
                line(0, Some(2)),
                line(1, Some(0)),
                line(0, Some(1)),
                line(0, Some(2)),
                line(1, Some(1)),
                line(0, Some(0)),
                line(2, Some(3)),
                line(2, None),
            ],
            &[open(0, 2, 1, 4), open(0, 2, 0, 7), open(2, 4, 3, 8)],
            &[0, 9],
        ),
        (&[line(0, Some(0)), line(1, Some(0))], &[], &[]),
    ];
    for (lines, opens, bare) in table {
        assert!(rt; lines.len() < 100 && names.as_slice().len() == 3);
        assert!(rt; are_known(lines, 3));
        let seats = seats_of(rt.alloc(), 3, lines)?;
        let found = opens_of(rt.alloc(), names.as_slice(), seats.as_slice())?;
        assert!(rt; found.as_slice() == opens);
        assert!(rt; bare_of(rt.alloc(), lines)?.as_slice() == bare);
    }
    Ok(())
}
