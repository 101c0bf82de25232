//! Lengths from worked rows, and each call once.
use lengths::decimal::{GridFault, LenFault, Unit, read_decimal, scaled};
use lengths::rows::Rows;
use lengths::text::{Text, TextFault};
use std::alloc::Global;
use std::hash::{DefaultHasher, Hash, Hasher};
use std::test::Fail;

fn position(text: &[u8], unit: Unit) -> Option<Result<i64, GridFault>> {
    Some(read_decimal(text)?.position(unit).map(|len| len.u()))
}

fn size(text: &[u8], unit: Unit) -> Option<Result<i64, GridFault>> {
    Some(read_decimal(text)?.size(unit).map(|len| len.u()))
}

static SIZES: [(&[u8], Unit, Option<Result<i64, GridFault>>); 5] = [
    (b"0.066929", Unit::Inch, Some(Ok(16_999_966))),
    (b"1.0000001", Unit::Mm, Some(Err(GridFault::OffGrid))),
    (b"-0.2", Unit::Mm, Some(Err(GridFault::OutOfRange))),
    (b"-0", Unit::Mm, Some(Ok(0))),
    (b"1.2.3", Unit::Mm, None),
];

static POSITIONS: [(&[u8], Unit, Option<Result<i64, GridFault>>); 6] = [
    (b"1.0000001", Unit::Mm, Some(Ok(10_000_001))),
    (b"1000.0000001", Unit::Mm, Some(Err(GridFault::OutOfRange))),
    (b"+.5", Unit::Inch, Some(Ok(127_000_000))),
    (b"-5.", Unit::Mm, Some(Ok(-50_000_000))),
    (b"0000000000000000001", Unit::Mm, None),
    (b"", Unit::Mm, None),
];

static SCALED_SIZES: [(&[u8], u8, Result<i64, LenFault>); 4] = [
    (b"1000001", 6, Ok(10_000_010)),
    (b"-1", 7, Ok(-1)),
    (b"1.0", 6, Err(LenFault::NotANumber)),
    (b"1000000001", 6, Err(LenFault::OutOfRange)),
];

#[test]
fn lengths_are_on_the_grid(rt: HostRuntime) -> Result<(), Fail> {
    for (text, unit, want) in &SIZES {
        assert_eq!(rt; size(*text, *unit), *want);
    }
    for (text, unit, want) in &POSITIONS {
        assert_eq!(rt; position(*text, *unit), *want);
    }
    for (text, decimals, want) in &SCALED_SIZES {
        assert_eq!(rt;
            scaled(*text, *decimals, Unit::Mm).map(|len| len.u()),
            *want
        );
    }
    let Some(whole) = read_decimal(b"10.00") else {
        return Err(Fail::new("no decimal"));
    };
    assert!(rt; whole.pointed() && whole.equals(10) && !whole.equals(1));
    Ok(())
}

fn text_of_len(alloc: Global, len: usize) -> Result<Text, TextFault> {
    let bytes = vec![in alloc; b'~'; len].map_err(|_| TextFault::NoMemory)?;
    Text::new(alloc, bytes.as_slice())
}

fn hash_of(text: &Text) -> u64 {
    let mut state = DefaultHasher::new();
    text.hash(&mut state);
    state.finish()
}

/// Texts in their order: 22 bytes are the most that stand in place.
static ORDERED: [&[u8]; 6] = [
    b"0123456789abcdefghijk",
    b"0123456789abcdefghijkl",
    b"0123456789abcdefghijklm",
    b"0123456789abcdefghijkln",
    b"0123456789abcdefghijkm",
    b"0123456789abcdefghijn",
];

#[test]
fn short_and_long_texts_are_in_one_order(rt: HostRuntime) -> Result<(), Fail> {
    let alloc = rt.alloc();
    for (i, low) in ORDERED.iter().enumerate() {
        let text = Text::new(alloc, *low)?;
        assert_eq!(rt; text.as_bytes(), *low);
        assert_eq!(rt; text.as_str().as_bytes(), *low);
        for (j, high) in ORDERED.iter().enumerate() {
            let other = Text::new(alloc, *high)?.clone()?;
            assert_eq!(rt; text.cmp(&other), i.cmp(&j));
            assert_eq!(rt; text == other, i == j);
        }
    }
    assert_eq!(rt; text_of_len(alloc, 200)?.as_bytes().len(), 200);
    Ok(())
}

#[test]
fn texts_and_rows_are_their_items(rt: HostRuntime) -> Result<(), Fail> {
    let alloc = rt.alloc();
    assert_eq!(rt; text_of_len(alloc, 201).err(), Some(TextFault::BadText));
    assert_eq!(rt; Text::new(alloc, b"a\x7f").err(), Some(TextFault::BadText));
    let low = Text::new(alloc, b"GND")?;
    let high = Text::new(alloc, b"VCC")?;
    assert!(rt; low < high && low != high && hash_of(&low) != hash_of(&high));
    assert_eq!(rt; low.as_str().len(), low.as_bytes().len());

    let mut rows: Rows<Rows<u32>> = Rows::new(alloc);
    let mut row = Rows::new(alloc);
    row.push(7)?;
    rows.push(row)?;
    assert_eq!(rt; rows.as_slice()[0].as_slice(), [7].as_slice());
    Ok(())
}
