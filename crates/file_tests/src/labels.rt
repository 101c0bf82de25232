// Files with their labels, and the name in force at each command.
use lengths::rows::Rows;
use lengths::text::Text;
use std::alloc::{AllocError, Global};
use std::fmt::Write;
use std::test::Fail;
use texts::MOST_BYTES;
use x2_nets::{Label, LabelFault, label_among, label_at, labels};

// The labels of a file, if it is short enough to be read.
fn read(alloc: Global, file: &[u8]) -> Result<Rows<Label>, LabelFault> {
    if file.len() > MOST_BYTES {
        return Err(LabelFault::NoMemory);
    }
    labels(alloc, file)
}

// The labels of a file, each with its command and its name or a minus; or where its first bad name stands.
fn listed(alloc: Global, file: &[u8]) -> Result<String, Fail> {
    let mut text = String::new(alloc);
    match read(alloc, file) {
        Ok(found) => {
            for label in found.as_slice() {
                match label.name.as_ref() {
                    Some(name) => write!(text, "{}:{} ", label.command, name.as_str())?,
                    None => write!(text, "{}:- ", label.command)?,
                }
            }
        },
        Err(fault) => write!(text, "{fault:?}")?,
    }
    Ok(text)
}

/// Files, each with its labels.
static FILES: [(&'static [u8], &'static str); 29] = [
    (b"", ""),
    (b"%TO.N,A*%", "1:A "),
    (b"TO.N,A*", ""),
    (b"%TO.N*%", "1:N/C "),
    (b"%TO.N,*%", "1:N/C "),
    (b"%TO.N,,B*%", "1:N/C "),
    (b"%TO.N,A,B*%", "1:A "),
    (b"%TO.N,A B*%", "1:A B "),
    (b"%TO.NA,B*%", ""),
    (b"%TO,.N,A*%", ""),
    (b"%TO.P,U1,2*%", ""),
    (b"%TA.N,A*%", ""),
    (b"%TF.N,A*%", ""),
    (b"%TD*%", "1:- "),
    (b"%TD.N*%", "1:- "),
    (b"%TD.N,A*%", "1:- "),
    (b"%TD,A*%", "1:- "),
    (b"%TD.P*%", ""),
    (b"%TD.NA*%", ""),
    (b"TD*", ""),
    (b"%TO.N,A*TD*TO.N,B*%", "1:A 2:- 3:B "),
    (b"D10*\nG36*%TO.N,A*%G37*\n%TD*%", "3:A 5:- "),
    (b"%TO.N,A*%\n%%%TO.N,B*%", "1:A "),
    (b"%TO.N,A*%TO.N,B", "1:A "),
    (b"M02*%TO.N,A*%", "2:A "),
    (b"%TO.N,A\tB*%", "Bad { command: 1, at: 1 }"),
    (b"%TO.N,\x7f*%", "Bad { command: 1, at: 1 }"),
    (
        b"%TO.N,A*TO.N,\x80*TO.N,\x81*%",
        "Bad { command: 2, at: 8 }",
    ),
    (
        b"D10*\n%TO.P,\x80*%%TO.N,\x80*%",
        "Bad { command: 3, at: 15 }",
    ),
];

#[test]
fn files(rt: HostRuntime) -> Result<(), Fail> {
    let alloc = rt.alloc();
    for (i, (file, want)) in FILES.iter().enumerate() {
        assert_eq!(rt; listed(alloc, *file)?.as_str(), *want, "row {i}");
    }
    Ok(())
}

// A file that gives a name of so many bytes.
fn named(alloc: Global, len: usize) -> Result<Vec<u8>, AllocError> {
    let mut file = Vec::from_slice(alloc, b"%TO.N,")?;
    file.append(&mut vec![in alloc; b'A'; len]?)?;
    file.extend_from_slice(b"*%")?;
    Ok(file)
}

#[test]
fn long_names(rt: HostRuntime) -> Result<(), Fail> {
    let alloc = rt.alloc();
    let found = read(alloc, named(alloc, 200)?.as_slice())?;
    let name = label_at(&found, 2);
    assert_eq!(rt; name.map(|text| text.as_bytes().len()), Some(200));
    let fault = read(alloc, named(alloc, 201)?.as_slice()).err();
    assert_eq!(rt; fault, Some(LabelFault::Bad { command: 1, at: 1 }));
    Ok(())
}

#[test]
fn names_in_force(rt: HostRuntime) -> Result<(), Fail> {
    let alloc = rt.alloc();
    let found = labels(alloc, b"%TO.N,A*%D10*%TD.P*TD*%D10*%TO.N,B*TO.N,C*TO.P,U*%")?;
    let want = ["-", "-", "A", "A", "A", "-", "-", "B", "C", "C"];
    for (command, name) in want.iter().enumerate() {
        for given in [
            label_at(&found, command as u32),
            label_among(&found, command as u32),
        ] {
            assert_eq!(rt;
                given.map_or("-", |text| text.as_str()),
                *name,
                "command {command}"
            );
        }
    }
    Ok(())
}

// Labels in another order than their commands have: the last of the list counts.
#[test]
fn any_order(rt: HostRuntime) -> Result<(), Fail> {
    let alloc = rt.alloc();
    let mut found = Rows::new(alloc);
    for (command, name) in [(5, "A"), (2, "B"), (7, "C")] {
        let name = Some(Text::new(alloc, name.as_bytes())?);
        found.push(Label { command, name })?;
    }
    for (command, want) in [(2, "-"), (3, "B"), (6, "B"), (8, "C")] {
        assert_eq!(rt;
            label_at(&found, command).map_or("-", |text| text.as_str()),
            want
        );
    }
    Ok(())
}
