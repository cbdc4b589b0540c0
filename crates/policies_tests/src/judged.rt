// What each policy under the limiter makes of lists of firings: how many are fired and lie on each shelf, then how
// many ship, how many are held, and whether every class ships or none does.
use crate::firings::*;
use policies::footnoted::Footnoted;
use policies::limited::Limited;
use policies::paired::Paired;
use policies::plain::Plain;
use std::test::Fail;

// No class ships until the limiter acts, and a settling that ships body text starts the count again.
#[test]
fn plain() -> Result<(), Fail> {
    drive(
        Limited::new(Plain, 2)?,
        &[
            fire(3, 1, 3, 0, false),
            fire(0, 1, 0, 0, false),
            fire(1, 1, 1, 0, false),
            fire(0, 1, 0, 0, false),
            fire(0, 1, 0, 0, false),
            fire(2, 1, 2, 0, true),
            fire(2, 1, 2, 0, false),
        ],
    )
}

#[test]
fn footnoted() -> Result<(), Fail> {
    drive(
        Limited::new(Footnoted, 1)?,
        &[
            fire(3, 1, 3, 0, true),
            fire(0, 0, 0, 0, true),
            fire(2, 0, 2, 0, true),
            fire(0, 1, 0, 0, true),
        ],
    )
}

// 512 items become a column, 513 do not; where nothing ships below, the classes still ship; a column ships though
// nothing follows it. In the second list the shelves' content counts: without it the limiter would act at the third.
#[test]
fn paired() -> Result<(), Fail> {
    drive(
        Limited::new(Paired::new(Footnoted), 100)?,
        &[
            fire(512, 1, 0, 512, false),
            fire(1, 1, 513, 0, true),
            fire(513, 1, 513, 0, true),
            fire(0, 1, 0, 0, true),
            fire(1, 1, 0, 1, false),
            fire(0, 1, 1, 0, true),
        ],
    )?;
    drive(
        Limited::new(Paired::new(Footnoted), 2)?,
        &[
            fire(0, 0, 0, 0, true),
            fire(0, 1, 0, 0, true),
            fire(3, 1, 0, 3, false),
            fire(2, 1, 5, 0, true),
        ],
    )
}

// Four columns a page. With bound 100 the limiter never acts; with 1 and 2 it ships what the pairs would hold, and
// counts from 0 again; a shelf whose class is not named does not count.
#[test]
fn pairs_of_pairs() -> Result<(), Fail> {
    drive(
        Limited::new(Paired::new(Paired::new(Footnoted)), 100)?,
        &[
            fire(3, 1, 0, 3, false),
            fire(2, 1, 0, 5, false),
            fire(4, 1, 5, 4, false),
            fire(1, 1, 0, 5, false),
            fire(2, 1, 5, 2, false),
        ],
    )?;
    drive(
        Limited::new(Paired::new(Paired::new(Footnoted)), 1)?,
        &[
            fire(3, 1, 0, 3, false),
            fire(2, 1, 5, 0, true),
            fire(1, 1, 0, 1, false),
            fire(1, 1, 2, 0, true),
        ],
    )?;
    drive(
        Limited::new(Paired::new(Paired::new(Footnoted)), 2)?,
        &[
            fire(3, 1, 0, 3, false),
            fire(2, 1, 0, 5, false),
            fire(4, 1, 9, 0, true),
            fire(1, 1, 0, 1, false),
            fire(0, 0, 0, 1, false),
            fire(0, 0, 1, 0, true),
            fire(0, 0, 0, 0, true),
            fire(0, 1, 0, 0, true),
        ],
    )
}

// The number and the offset of the refusal of a bound, if it is refused.
fn refusal_of(bound: u32) -> Option<(u32, usize)> {
    let refusal = Limited::new(Plain, bound).err()?;
    Some((u32::from(refusal.cause), refusal.offset))
}

#[test]
fn bounds(rt: HostRuntime) {
    assert_eq!(&rt; refusal_of(0), Some((1, 0)));
    assert_eq!(&rt; refusal_of(1), None);
    assert_eq!(&rt; refusal_of(100), None);
    assert_eq!(&rt; refusal_of(101), Some((1, 0)));
}
