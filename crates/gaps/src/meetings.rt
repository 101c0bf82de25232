//! Of the lines of all pieces of different nets that come close, the least of each layer and two nets, in order.
ghost use Rattle.cell_index.specs.Among.{TouchAmong, bottom_in, extent_in, top_in};
ghost use Rattle.cell_index.specs.Field.{is_rival, rivals_of, sum_below};
ghost use Rattle.gaps.specs.Firsts.{AreFirsts};
ghost use Rattle.gaps.specs.Meetings.{CoversLines, IsFieldLine, IsNearLine, IsTouchLine, pair_in};
ghost use Rattle.std.specs.List.Sorted.{IsStrictlyIncreasing};
ghost use Rattle.std.specs.Prelude.{All, IfOk, OnOk, if◌then◌else◌, length, max, min, ◌+◌, ◌<◌, ◌≡◌, ◌≤◌};

use super::found::{Found, Pair};
use super::gap::Gap;
use super::over::Over;
use cell_index::{Cells, Field};
use contact::Meets;
use lengths::rows::NoMemory;
use std::alloc::Global;
use std::sync::ledger::Ledger;
use steps::Steps;

/// A span of layers, from `top` to `bottom`.
#[derive(Clone, Copy)]
pub struct Span {
    pub top: u8,
    pub bottom: u8,
}

/// Pieces `i` and `j`, with their nets and the layers of both spans.
fn pair_of(i: u32, j: u32, numbers: &[u32], spans: &[Span]) -> Pair
    requires first { i < length spans.now }
    requires second { j < length spans.now }
    requires numbered { length numbers.now ≡ length spans.now }
    ensures { result ≡ pair_in numbers.now spans.now i j }
{
    let span = spans[i as usize];
    let other = spans[j as usize];
    Pair {
        low: numbers[i as usize],
        high: numbers[j as usize],
        first: i,
        second: j,
        top: span.top.max(other.top),
        bottom: span.bottom.min(other.bottom),
    }
}

/// Adds the lines of the pair where its pieces touch and the second stands in the higher net. Nothing is
/// tested where lines that stand already speak for them.
fn add_pair<'a, S: Meets<S>, L: Ledger>(
    field: &Cells<'a, S>,
    pair: &Pair,
    found: &mut Found,
    tests: &mut Steps<L>,
) -> Result<(), NoMemory>
    requires first { pair.now.first < length field.now.items.now }
    requires second { pair.now.second < length field.now.items.now }
    ensures lines { OnOk result (CoversLines (IsTouchLine (length field.now.items.now) (TouchAmong S.holds field.now.items.now) pair.now) found.old.lines.items found.new.lines.items) }
    ensures ticks { tests.new ≤ tests.old + (if is_rival (extent_in S.extent field.now.items.now) (top_in field.now.items.now) (bottom_in field.now.items.now) pair.now.first pair.now.second then 1 else 0) }
{
    if pair.low >= pair.high || found.covers_all(pair) {
        return Ok(());
    }
    if !field.touches(pair.first as usize, pair.second as usize, tests) {
        return Ok(());
    }
    found.add(pair)?;
    Ok(())
}

/// Adds the lines of piece `i` and those of the list that touch it and stand in higher nets, but
/// for those that lines which stand already speak for.
fn add_piece<'a, S: Meets<S>, L: Ledger>(
    field: &Cells<'a, S>,
    i: u32,
    near: &[u32],
    numbers: &[u32],
    spans: &[Span],
    found: &mut Found,
    tests: &mut Steps<L>,
) -> Result<(), NoMemory>
    requires first { i < length field.now.items.now }
    requires known { All (λ j. j < length field.now.items.now) near.now }
    requires rising { IsStrictlyIncreasing near.now }
    requires numbered { length numbers.now ≡ length field.now.items.now }
    requires spanned { length spans.now ≡ length field.now.items.now }
    ensures lines { OnOk result (CoversLines (IsNearLine (length field.now.items.now) (TouchAmong S.holds field.now.items.now) numbers.now spans.now i near.now) found.old.lines.items found.new.lines.items) }
    ensures ticks { tests.new ≤ tests.old + rivals_of (length field.now.items.now) (extent_in S.extent field.now.items.now) (top_in field.now.items.now) (bottom_in field.now.items.now) i }
{
    for j in near {
        let pair = pair_of(i, *j, numbers, spans);
        add_pair(field, &pair, found, tests)?;
    }
    Ok(())
}

/// Of all lines of pieces of a field that touch and stand in different nets, the lower first, on each
/// layer of both spans, the least of each layer and two nets, in order. Pieces are not tested where a
/// line that was found speaks for theirs. Memory is taken for twice the lines that are given, four a piece or
/// 65,536, for those of one piece, and for two to four places a piece.
pub fn meetings<'a, S: Meets<S>, L: Ledger>(
    alloc: Global,
    field: &Cells<'a, S>,
    numbers: &[u32],
    spans: &[Span],
    tests: &mut Steps<L>,
) -> Result<Vec<Gap>, NoMemory>
    requires numbered { length numbers.now ≡ length field.now.items.now }
    requires spanned { length spans.now ≡ length field.now.items.now }
    ensures gaps { IfOk result (λ gaps. AreFirsts (IsFieldLine (length field.now.items.now) (TouchAmong S.holds field.now.items.now) numbers.now spans.now) gaps.items) }
    ensures ticks { tests.new ≤ tests.old + sum_below (rivals_of (length field.now.items.now) (extent_in S.extent field.now.items.now) (top_in field.now.items.now) (bottom_in field.now.items.now)) (length field.now.items.now) }
{
    let mut found = Found::new(alloc, field.count())?;
    let mut near = Vec::new(alloc);
    let mut most = field.count().saturating_mul(4);
    for i in 0..field.count() {
        let over = Over {
            numbers,
            spans,
            net: numbers[i],
            span: spans[i],
        };
        field.candidates(i, &over, &mut near)?;
        add_piece(field, i as u32, &near, numbers, spans, &mut found, tests)?;
        most = found.thin(most);
    }
    Ok(found.firsts())
}
