//! Chains as `tools/show_board/arcs.py` makes them, with the least allowance that it reckons, in u.
use arcs::{Arc, Spot, is_above, is_below};

fn spot(p: (i64, i64)) -> Spot {
    Spot { x: p.0, y: p.1 }
}

fn arc(centre: (i64, i64), start: (i64, i64), end: (i64, i64)) -> Arc {
    Arc {
        centre: spot(centre),
        start: spot(start),
        end: spot(end),
        width: 2000,
    }
}

static QUARTER: [Spot; 7] = [
    Spot { x: 3000, y: 4000 },
    Spot { x: 1581, y: 4743 },
    Spot { x: 0, y: 5000 },
    Spot { x: -1149, y: 4866 },
    Spot { x: -2236, y: 4472 },
    Spot { x: -3204, y: 3839 },
    Spot { x: -4000, y: 3000 },
];

static ROUND: [Spot; 17] = [
    Spot { x: 5000, y: 0 },
    Spot { x: 4619, y: 1914 },
    Spot { x: 3536, y: 3536 },
    Spot { x: 1914, y: 4619 },
    Spot { x: 0, y: 5000 },
    Spot { x: -1914, y: 4619 },
    Spot { x: -3536, y: 3536 },
    Spot { x: -4619, y: 1914 },
    Spot { x: -5000, y: 0 },
    Spot { x: -4619, y: -1914 },
    Spot { x: -3536, y: -3536 },
    Spot { x: -1914, y: -4619 },
    Spot { x: 0, y: -5000 },
    Spot { x: 1914, y: -4619 },
    Spot { x: 3536, y: -3536 },
    Spot { x: 4619, y: -1914 },
    Spot { x: 5000, y: 0 },
];

/// Whether the chain is taken below with the radius `low` and no greater one, and above with `high` and no lesser one.
fn lies_between(a: &Arc, chain: &[Spot], low: u64, high: u64) -> bool {
    let below = is_below(a, chain, low) && !is_below(a, chain, low.saturating_add(1));
    let above = is_above(a, chain, high) && !is_above(a, chain, high.saturating_sub(1));
    below && above
}

/// Less than a half turn, with a pen of an even and of an odd width.
#[test]
fn a_quarter(rt: HostRuntime) {
    let mut a = arc((0, 0), (3000, 4000), (-4000, 3000));
    assert!(rt; lies_between(&a, &QUARTER, 935, 1065));
    a.width = 2001;
    assert!(rt; lies_between(&a, &QUARTER, 935, 1066));
}

#[test]
fn a_half_turn_and_more(rt: HostRuntime) {
    let half = arc((0, 0), (5000, 0), (-5000, 0));
    assert!(rt; lies_between(&half, &ROUND[..9], 903, 1097));
    let more = arc((0, 0), (5000, 0), (0, -5000));
    assert!(rt; lies_between(&more, &ROUND[..13], 903, 1097));
}

#[test]
fn nearly_a_whole_turn(rt: HostRuntime) {
    let mut chain = ROUND;
    chain[16] = spot((4800, -1400));
    let a = arc((0, 0), (5000, 0), (4800, -1400));
    assert!(rt; lies_between(&a, &chain, 903, 1097));
}

/// Ends that differ by a rounding: the nearer they are to each other, the further away is the circle
/// through both from the distances of the ends. Where it is further than half the pen, nothing is sure.
#[test]
fn nearly_a_whole_turn_with_unlike_ends(rt: HostRuntime) {
    let mut chain = ROUND;
    chain[16] = spot((4999, -100));
    let one_off = arc((0, 0), (5000, 0), (4999, -100));
    assert!(rt; lies_between(&one_off, &chain, 902, 1098));
    chain[16] = spot((5003, -100));
    let more_off = arc((0, 0), (5000, 0), (5003, -100));
    assert!(rt; lies_between(&more_off, &chain, 702, 1298));
    chain[16] = spot((5001, -2));
    let near = arc((0, 0), (5000, 0), (5001, -2));
    assert!(rt;
        !is_below(&near, &chain, 0)
            && is_above(&near, &chain, 3771)
            && !is_above(&near, &chain, 3770)
    );
}

/// Some 338 degrees.
#[test]
fn unlike_ends_further_apart(rt: HostRuntime) {
    let mut chain = ROUND;
    chain[15] = spot((4619, -1920));
    let a = arc((0, 0), (5000, 0), (4619, -1920));
    assert!(rt; lies_between(&a, &chain[..16], 894, 1106));
}

/// A whole turn, also where no spot is opposite to the start, and the other way round.
#[test]
fn a_whole_turn(rt: HostRuntime) {
    let a = arc((0, 0), (5000, 0), (5000, 0));
    assert!(rt; lies_between(&a, &ROUND, 903, 1097));
    let mut other = ROUND;
    other[8] = spot((-4900, 100));
    assert!(rt; lies_between(&a, &other, 839, 1161));
    let back = arc((0, 0), (0, 5000), (5000, 0));
    assert!(rt; !is_below(&back, &ROUND[..5], 0) && !is_above(&back, &ROUND[..5], 9000));
}

/// Ends at two distances: the allowance is reckoned from both. In one direction they may be a whole turn
/// apart or none.
#[test]
fn two_distances(rt: HostRuntime) {
    let mut chain = ROUND;
    chain[4] = spot((0, 5010));
    let a = arc((0, 0), (5000, 0), (0, 5010));
    assert!(rt; lies_between(&a, &chain[..5], 893, 1107));
    let mut loops = ROUND;
    loops[16] = spot((5010, 0));
    let b = arc((0, 0), (5000, 0), (5010, 0));
    assert!(rt; !is_below(&b, &loops, 0) && is_above(&b, &loops, 1107));
}

/// Past a half turn a curve may leave both distances.
#[test]
fn two_distances_past_a_half_turn(rt: HostRuntime) {
    let mut chain = ROUND;
    chain[12] = spot((0, -5010));
    let a = arc((0, 0), (5000, 0), (0, -5010));
    assert!(rt; lies_between(&a, &chain[..13], 883, 1117));
}

/// Ends that differ too much for their turn: the circle through both goes past the centre.
#[test]
fn ends_too_unlike(rt: HostRuntime) {
    let steep = [spot((10, 0)), spot((20, 1))];
    let short = arc((0, 0), (10, 0), (20, 1));
    assert!(rt; !is_below(&short, &steep, 0) && !is_above(&short, &steep, 9000));
}

/// A chain that goes past an end, one that stops before it, one that leaves a spot out, and one spot alone.
#[test]
fn too_long_and_too_short(rt: HostRuntime) {
    let a = arc((0, 0), (5000, 0), (0, 5000));
    assert!(rt; lies_between(&a, &ROUND[..5], 903, 1097));
    assert!(rt; !is_below(&a, &ROUND[..6], 0) && !is_above(&a, &ROUND[..4], 9000));
    let mut gap = ROUND;
    gap[1] = ROUND[2];
    gap[2] = ROUND[3];
    gap[3] = ROUND[4];
    assert!(rt; lies_between(&a, &gap[..4], 619, 1381) && !is_below(&a, &gap[..4], 903));
    assert!(rt; is_below(&a, &ROUND[..1], 1000) && !is_above(&a, &ROUND[..1], 9000));
}
