// Where a page may break.
use crate::tables::*;
use items::Item;
use page::breaks::{Ahead, PageBreak};
use samples::{bx, kern, penalty};
use std::ops::ControlFlow;
use std::test::Fail;

fn ahead(next: Item, after: Option<Item>) -> Ahead {
    Ahead::Items { next, after }
}

// The best break that a look leaves.
fn best_of(looked: ControlFlow<PageBreak, Option<PageBreak>>) -> Option<PageBreak> {
    match looked {
        ControlFlow::Continue(best) => best,
        ControlFlow::Break(best) => Some(best),
    }
}

// What the place after a page costs, if it is a candidate.
fn cost_of(numbers: &[u32], ahead: Ahead) -> Result<Option<i64>, Fail> {
    let looked = look(&ground(100, 0), numbers, ahead, None)?;
    Ok(best_of(looked).map(|best| best.cost))
}

// Glue after a note is a candidate; it remembers the goal and the last note.
#[test]
fn glue_after_a_note(rt: HostRuntime) -> Result<(), Fail> {
    let looked = look(&ground(100, 0), &[1, 2], ahead(shrinking(), None), None)?;
    let best = PageBreak {
        place: 2,
        cost: 100_000,
        goal: 75,
        last: [Some(2), None, None, None, None, None, None, None],
    };
    assert!(rt; looked.is_continue());
    assert_eq!(rt; best_of(looked), Some(best));
    Ok(())
}

#[test]
fn glue_after_a_box_and_after_glue(rt: HostRuntime) -> Result<(), Fail> {
    assert_eq!(rt; cost_of(&[1], ahead(shrinking(), None))?, Some(100_000));
    assert_eq!(rt; cost_of(&[1, 5], ahead(shrinking(), None))?, None);
    Ok(())
}

// A page of notes alone may break before its first box.
#[test]
fn before_the_first_box(rt: HostRuntime) -> Result<(), Fail> {
    assert_eq!(rt; cost_of(&[2], ahead(bx(8, 2), None))?, Some(100_000));
    assert_eq!(rt; cost_of(&[], ahead(bx(8, 2), None))?, None);
    assert_eq!(rt; cost_of(&[1, 2], ahead(bx(8, 2), None))?, None);
    Ok(())
}

// A kern is a candidate before glue only, and a penalty below 10,000.
#[test]
fn kerns_and_penalties(rt: HostRuntime) -> Result<(), Fail> {
    assert_eq!(rt;
        cost_of(&[1], ahead(kern(3), Some(shrinking())))?,
        Some(100_000)
    );
    assert_eq!(rt; cost_of(&[1], ahead(kern(3), Some(bx(8, 2))))?, None);
    assert_eq!(rt; cost_of(&[1], ahead(kern(3), None))?, None);
    assert_eq!(rt; cost_of(&[1], ahead(penalty(10_000), None))?, None);
    assert_eq!(rt; cost_of(&[2], ahead(penalty(50), None))?, None);
    Ok(())
}

// A penalty of -10,000 fires the page, and so does a closed book's end.
#[test]
fn what_fires(rt: HostRuntime) -> Result<(), Fail> {
    let ordered = look(&ground(100, 0), &[1], ahead(penalty(-10_000), None), None)?;
    assert!(rt; ordered.is_break());
    assert!(rt; look(&ground(100, 0), &[1], Ahead::End, None)?.is_break());
    assert!(rt; look(&ground(100, 0), &[], Ahead::End, None)?.is_continue());
    assert!(rt; look(&ground(100, 0), &[1], Ahead::Waiting, None)?.is_continue());
    Ok(())
}

// Both places cost 100,000: the later one is the best.
#[test]
fn the_last_of_equal_costs(rt: HostRuntime) -> Result<(), Fail> {
    let first = look(&ground(100, 0), &[1], ahead(shrinking(), None), None)?;
    let second = look(
        &ground(100, 0),
        &[1, 2],
        ahead(shrinking(), None),
        best_of(first),
    )?;
    assert_eq!(rt; best_of(second).map(|best| best.place), Some(2));
    Ok(())
}
