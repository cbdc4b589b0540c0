// How a note is split, and what is refused.
use crate::tables::*;
use items::Item;
use items::refusals::Refusal;
use notes::split::{Split, split_note};
use samples::{bx, glue, kern, penalty};
use std::process::Abort;
use std::test::Fail;

// To a negative height the penalty at the start is the break: an empty piece, and the penalty is dropped.
#[test]
fn an_empty_piece(rt: HostRuntime) -> Result<(), Fail> {
    let part = first_part(&rt, &[penalty(3), kern(1), bx(10, 0)], -5, 0)?;
    assert_eq!(rt; part.cut.place, 0);
    assert_eq!(rt; part.dropped, 2);
    Ok(())
}

// Two columns of 10 are filled by a box each; the glue, the kern and the penalty between are dropped.
#[test]
fn two_columns_and_a_rest(rt: HostRuntime) -> Result<(), Fail> {
    let items = [
        bx(10, 0),
        glue(2, 0, 0, 0),
        kern(1),
        penalty(0),
        bx(10, 0),
        glue(2, 0, 0, 0),
        bx(10, 0),
    ];
    let rows = rows_of(&items);
    let mut parts = [unwritten(); 3];
    let split = split_note(&rows[0..7], &[10, 10], 0, &mut parts).map_err(|_| Fail::new(
        "the note is refused",
    ))?;
    assert_eq!(rt; split, Split { count: 2, rest: 6 });
    assert_eq!(rt;
        (parts[0].first, parts[0].cut.place, parts[0].dropped),
        (0, 1, 3)
    );
    assert_eq!(rt;
        (parts[1].first, parts[1].cut.place, parts[1].dropped),
        (4, 1, 1)
    );
    assert_eq!(rt;
        parts[2],
        unwritten(),
        "the table behind the parts is as it was"
    );
    Ok(())
}

fn refusal(rt: &impl Abort, items: &[Item], heights: &[i32], depth: u32) -> Result<Refusal, Fail> {
    assert!(rt; items.len() <= 8);
    let rows = rows_of(items);
    let mut parts = [unwritten(); 2];
    match split_note(&rows[..items.len()], heights, depth, &mut parts) {
        Ok(_) => Err(Fail::new("the note is not refused")),
        Err(refusal) => {
            assert_eq!(rt;
                parts,
                [unwritten(); 2],
                "a refusal leaves the table as it was"
            );
            Ok(refusal)
        }
    }
}

fn check_refusal(
    rt: &impl Abort,
    items: &[Item],
    heights: &[i32],
    depth: u32,
    want: (u32, usize),
    what: &str,
) -> Result<(), Fail> {
    let refusal = refusal(rt, items, heights, depth)?;
    assert_eq!(rt; (u32::from(refusal.cause), refusal.offset), want, "{what}");
    Ok(())
}

#[test]
fn refusals(rt: HostRuntime) -> Result<(), Fail> {
    let note = Item::Note { class: 0, count: 1 };
    let outside = bx(1_073_741_824, 0);
    check_refusal(&rt, &[], &[10], 0, (3, 0), "no content")?;
    check_refusal(
        &rt,
        &[bx(1, 0)],
        &[10, 10, 10],
        0,
        (1, 0),
        "three heights and two places",
    )?;
    check_refusal(
        &rt,
        &[bx(1, 0)],
        &[10],
        1_073_741_824,
        (1, 0),
        "a depth too large",
    )?;
    check_refusal(
        &rt,
        &[outside, bx(1, 0), note],
        &[10],
        0,
        (5, 3),
        "a note before a value",
    )?;
    check_refusal(
        &rt,
        &[bx(1, 0), outside, outside],
        &[10],
        0,
        (6, 2),
        "a value outside its limits",
    )
}
