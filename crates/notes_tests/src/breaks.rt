// Where a note breaks.
use crate::tables::*;
use cost::badness;
use samples::{bx, glue, kern, penalty};
use std::test::Fail;

#[test]
fn badness_by_hand(rt: HostRuntime) {
    assert_eq!(rt; badness(50, 100), 12);
    assert_eq!(rt; badness(100, 100), 100);
    assert_eq!(rt; badness(1_291, 297), 10_000);
}

// Boxes of 10 with glue of 2 between: 22 is met exactly before the second glue.
#[test]
fn the_exact_height(rt: HostRuntime) -> Result<(), Fail> {
    let items = [
        bx(10, 0),
        glue(2, 0, 0, 0),
        bx(10, 0),
        glue(2, 0, 0, 0),
        bx(10, 0),
    ];
    check_break(&rt, &items, 22, 0, (3, 22, 0))
}

// Both penalties stand after 10 and cost 5, so the later one is the break.
#[test]
fn the_last_of_equal_costs(rt: HostRuntime) -> Result<(), Fail> {
    check_break(
        &rt,
        &[bx(10, 0), penalty(5), penalty(5), bx(100, 0)],
        10,
        0,
        (2, 10, 5),
    )
}

// Glue at the start is no candidate, so the end is the only one, though it costs the most.
#[test]
fn glue_at_the_start(rt: HostRuntime) -> Result<(), Fail> {
    check_break(
        &rt,
        &[glue(0, 0, 0, 0), bx(10, 0)],
        0,
        0,
        (2, 10, 1_073_741_823),
    )
}

// The kern before a box is no candidate, the one before glue is.
#[test]
fn kerns(rt: HostRuntime) -> Result<(), Fail> {
    let items = [
        bx(10, 0),
        kern(0),
        bx(5, 0),
        kern(0),
        glue(0, 0, 0, 0),
        bx(50, 0),
    ];
    check_break(&rt, &items, 15, 0, (3, 15, 0))
}

// A depth of 4 above the split depth of 1 leaves 3 in the total; the height has the 1 that is left.
#[test]
fn depth_goes_over(rt: HostRuntime) -> Result<(), Fail> {
    check_break(&rt, &[bx(10, 4), penalty(0), bx(50, 0)], 13, 1, (1, 14, 0))
}

// 16 is three above 13: with shrink 3 the badness is 100, with shrink 2 it is too much, and the break before stays.
#[test]
fn shrink_to_the_last_point(rt: HostRuntime) -> Result<(), Fail> {
    let tight = [bx(6, 0), glue(2, 0, 0, 3), bx(8, 0), penalty(0), bx(50, 0)];
    check_break(&rt, &tight, 13, 0, (3, 16, 100))?;
    let looser = [bx(6, 0), glue(2, 0, 0, 2), bx(8, 0), penalty(0), bx(50, 0)];
    check_break(&rt, &looser, 13, 0, (1, 6, 100_000))
}

// Stretch of a higher order fills any gap.
#[test]
fn endless_stretch(rt: HostRuntime) -> Result<(), Fail> {
    check_break(
        &rt,
        &[bx(6, 0), glue(2, 1, 1, 0), bx(8, 0), penalty(7), bx(500, 0)],
        100,
        0,
        (3, 16, 7),
    )
}

// A penalty of 10,000 forbids a break, one of -10,000 orders it.
#[test]
fn forbidden_and_ordered(rt: HostRuntime) -> Result<(), Fail> {
    check_break(
        &rt,
        &[
            bx(10, 0),
            penalty(10_000),
            bx(1, 0),
            penalty(-10_000),
            bx(1, 0),
        ],
        10,
        0,
        (3, 11, 1_073_741_823),
    )?;
    check_break(
        &rt,
        &[
            bx(10, 0),
            penalty(10_000),
            bx(1, 0),
            penalty(-10_000),
            bx(1, 0),
        ],
        11,
        0,
        (3, 11, -10_000),
    )
}
