// Tables to lend: the rows of up to eight items, and parts not yet written.
use items::{Item, Row};
use notes::NoteBreak;
use notes::split::{Part, split_note};
use std::array;
use std::process::Abort;
use std::test::Fail;

// The items' rows, and rows of nothing after them.
pub(crate) fn rows_of(items: &[Item]) -> [Row; 8] {
    array::from_fn(|i| Row::fed(
        items.get(i).copied().unwrap_or(samples::penalty(0)),
        Some(1),
    ))
}

pub(crate) fn unwritten() -> Part {
    let cut = NoteBreak {
        place: 77,
        height: 77,
        penalty: 77,
        cost: 77,
    };
    Part {
        first: 77,
        cut,
        dropped: 77,
    }
}

// The one part of a note that is split to one height. Each test hands its own items, height and depth.
pub(crate) fn first_part(
    rt: &impl Abort,
    items: &[Item],
    height: i32,
    depth: u32,
) -> Result<Part, Fail> {
    assert!(rt; items.len() <= 8);
    let rows = rows_of(items);
    let mut parts = [unwritten(); 1];
    split_note(&rows[..items.len()], &[height], depth, &mut parts).map_err(|_| Fail::new(
        "the note is refused",
    ))?;
    Ok(parts[0])
}

// A break's place, height and cost.
pub(crate) fn check_break(
    rt: &impl Abort,
    items: &[Item],
    height: i32,
    depth: u32,
    want: (usize, i64, i64),
) -> Result<(), Fail> {
    let cut = first_part(rt, items, height, depth)?.cut;
    assert_eq!(rt; (cut.place, cut.height, cut.cost), want);
    Ok(())
}
