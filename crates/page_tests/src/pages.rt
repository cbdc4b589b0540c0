// What items and notes come to on a page.
use crate::tables::*;
use page::{ClassSoFar, PageSoFar};
use std::test::Fail;

// The class of a page, with a note of a number on it.
fn class(height: i64, last: u32, broken: Option<usize>) -> Option<ClassSoFar> {
    Some(ClassSoFar {
        height,
        last,
        broken,
    })
}

// The first box stands 10 below the edge; the note's 20 and the skip of 5 leave 75.
#[test]
fn a_note_that_stays_whole(rt: HostRuntime) -> Result<(), Fail> {
    let page = page_of(&ground(100, 0), &[1, 2])?;
    assert_eq!(rt; page.goal, 75, "the goal");
    assert_eq!(rt; page.sums.total, 10, "the total");
    assert_eq!(rt; page.sums.depth, 2, "the depth");
    assert_eq!(rt; page.classes[0], class(20, 2, None), "the class");
    assert_eq!(rt; page.notes, 0);
    Ok(())
}

// What lies on the shelf goes off the goal with the first note.
#[test]
fn a_shelf_of_30(rt: HostRuntime) -> Result<(), Fail> {
    let page = page_of(&ground(100, 30), &[1, 2])?;
    assert_eq!(rt; page.goal, 45);
    assert_eq!(rt; page.classes[0], class(50, 2, None));
    Ok(())
}

// With 50 on the shelf the limit of 60 leaves 10: the only break is the end, though it costs the most.
#[test]
fn a_note_broken_at_its_end(rt: HostRuntime) -> Result<(), Fail> {
    let page = page_of(&ground(100, 50), &[1, 2])?;
    assert_eq!(rt; page.goal, 25);
    assert_eq!(rt; page.classes[0], class(70, 2, Some(2)));
    assert_eq!(rt; page.notes, -10_000);
    Ok(())
}

// Whether the page splits the last note of class 0.
fn is_broken(page: &PageSoFar) -> bool {
    page.classes[0].is_some_and(|class| class.broken.is_some())
}

// Room for 18 and 4 to shrink hold a note of 20; with nothing to shrink it is broken.
#[test]
fn shrink_counts_as_room(rt: HostRuntime) -> Result<(), Fail> {
    let shrunk = page_of(&ground(87, 0), &[1, 5, 6, 2])?;
    assert_eq!(rt; shrunk.goal, 62);
    assert!(rt; !is_broken(&shrunk));
    let tight = page_of(&ground(77, 0), &[1, 6, 2])?;
    assert_eq!(rt; tight.goal, 52);
    assert!(rt; is_broken(&tight));
    Ok(())
}

// 27 is above the limit of 20, so the note breaks at its penalty of 7 after 12; the next of its class floats.
#[test]
fn a_note_that_floats(rt: HostRuntime) -> Result<(), Fail> {
    let page = page_of(&ground(100, 0), &[1, 9, 13])?;
    assert_eq!(rt; page.goal, 85);
    assert_eq!(rt; page.classes[1], class(12, 9, Some(1)));
    assert_eq!(rt; page.notes, 37);
    Ok(())
}

// Only the first box is moved down; glue takes the depth of 2 over.
#[test]
fn boxes_glue_and_kerns(rt: HostRuntime) -> Result<(), Fail> {
    let page = page_of(&ground(100, 0), &[1, 5, 1, 7])?;
    assert_eq!(rt; page.sums.total, 35);
    assert_eq!(rt; page.sums.depth, 0);
    assert_eq!(rt; page.sums.shrink, 4);
    Ok(())
}
