// What the tests of several crates make their galleys of, and how they say what does not hold.
#![tactic(auto)]

ghost use Rattle.std.specs.Prelude.{◌≡◌, ◌↔◌, IsTrue, IsOk};
ghost use Rattle.items.specs.declared.Item.TheVariants.{Box, Glue, Kern, Penalty};

use items::Item;
use std::test::Fail;

pub fn bx(height: u32, depth: u32) -> Item
    ensures { result ≡ Box height depth }
{
    Item::Box { height, depth }
}

pub fn glue(width: i32, stretch: u32, order: u8, shrink: u32) -> Item
    ensures { result ≡ Glue width stretch order shrink }
{
    Item::Glue {
        width,
        stretch,
        order,
        shrink,
    }
}

pub fn kern(width: i32) -> Item
    ensures { result ≡ Kern width }
{
    Item::Kern { width }
}

pub fn penalty(value: i32) -> Item
    ensures { result ≡ Penalty value }
{
    Item::Penalty { value }
}

// An error where something does not hold. A test helper that promises something cannot abort, and so uses this.
pub fn check(holds: bool, what: &str) -> Result<(), Fail>
    ensures { IsOk result ↔ IsTrue holds }
{
    if holds { Ok(()) } else { Err(Fail::new(what)) }
}
