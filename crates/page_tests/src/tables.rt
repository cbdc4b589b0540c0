// The galley of the tests, and pages of it.
ghost use Rattle.std.specs.Prelude.{◌≡◌, ◌^◌, ◌≤◌, pos, IfOk, unsigned_abs};
ghost use Rattle.items.specs.declared.Item.TheVariants.{Glue};
ghost use Rattle.items.specs.Items.{most};
ghost use Rattle.page.specs.Standing.{Grounded, Standing};
ghost use Rattle.page_tests.specs.Galley.{galley};

use items::{Class, Item, Row, Settings};
use page::breaks::{Ahead, PageBreak};
use page::{Ground, PageSoFar};
use samples::{bx, check, glue, kern, penalty};
use std::ops::ControlFlow;
use std::test::Fail;

// Glue of width 10, with 4 to shrink.
pub(crate) fn shrinking() -> Item
    ensures { result ≡ Glue (pos 10) 0 0 4 }
{
    glue(10, 0, 0, 4)
}

// Numbers 2, 9 and 13 are notes, each before its content.
pub(crate) fn galley() -> [Row; 14]
    ensures { result ≡ galley }
{
    [
        Row::fed(bx(8, 2), None),
        Row::fed(Item::Note { class: 0, count: 2 }, None),
        Row::fed(bx(8, 2), Some(2)),
        Row::fed(bx(8, 2), Some(2)),
        Row::fed(shrinking(), None),
        Row::fed(bx(40, 2), None),
        Row::fed(kern(3), None),
        Row::fed(penalty(50), None),
        Row::fed(Item::Note { class: 1, count: 3 }, None),
        Row::fed(bx(12, 0), Some(9)),
        Row::fed(penalty(7), Some(9)),
        Row::fed(bx(15, 0), Some(9)),
        Row::fed(Item::Note { class: 1, count: 1 }, None),
        Row::fed(bx(5, 0), Some(13)),
    ]
}

// Pages of a size, on a shelf of class 0 with something on it. Class 0 has limit 60 and skip 5, class 1 limit 20, skip 3 and
// floating cost 30.
pub(crate) fn ground(size: u32, shelved: i64) -> Ground
    requires first { 1 ≤ size }
    requires last { size ≤ most }
    requires shelved { unsigned_abs shelved ≤ 2 ^ 45 }
    ensures { Grounded result }
{
    let mut classes = [None; 8];
    classes[0] = Some(Class {
        floating: 100,
        limit: 60,
        skip: 5,
        depth: 5,
    });
    classes[1] = Some(Class {
        floating: 30,
        limit: 20,
        skip: 3,
        depth: 2,
    });
    Ground {
        settings: Settings {
            size,
            depth: 5,
            top: 10,
        },
        classes,
        shelved: [shelved, 0, 0, 0, 0, 0, 0, 0],
    }
}

// The page of some numbers of the galley.
pub(crate) fn page_of(basis: &Ground, numbers: &[u32]) -> Result<PageSoFar, Fail>
    requires { Grounded basis.now }
    ensures { IfOk result (λ m. Standing basis.now galley numbers.now m) }
{
    check(numbers.len() <= 8, "no more than eight numbers")?;
    let rows = galley();
    let mut page = PageSoFar::new(basis);
    for x in numbers {
        check(1 <= *x, "a number of the galley")?;
        check(*x <= 14, "a number of the galley")?;
        page.add(basis, &rows, *x);
    }
    Ok(page)
}

// A look after the page of some numbers.
pub(crate) fn look(
    basis: &Ground,
    numbers: &[u32],
    ahead: Ahead,
    best: Option<PageBreak>,
) -> Result<ControlFlow<PageBreak, Option<PageBreak>>, Fail>
    requires { Grounded basis.now }
{
    let page = page_of(basis, numbers)?;
    Ok(page.look(numbers, &galley(), ahead, best))
}
