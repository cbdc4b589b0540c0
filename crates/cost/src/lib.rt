// What a break costs: badness, the cost of a candidate, and when the search for a break ends.
#![tactic(auto)]

ghost use Rattle.std.specs.Prelude.{◌≡◌, ◌<◌};
ghost use Rattle.cost.specs.Cost.{ratio, badness, Charted, break_cost, stops};

use items::{FORBIDDEN, MOST};

pub mod least;
pub mod sums;

// The badness that no greater one has.
pub const WORST: u32 = 10_000;

// How many 297ths of `give` the gap is, or 1,291 and more where that is far too many.
fn ratio(gap: u64, give: u64) -> u64
    requires { 0 < give }
    ensures { result ≡ ratio gap give }
{
    if gap <= 7_230_584 {
        gap * 297 / give
    } else if give >= 1_663_497 {
        gap / (give / 297)
    } else {
        gap
    }
}

// How bad it is to stretch or shrink by `gap` where `give` is there to do it.
pub fn badness(gap: u64, give: u64) -> u32
    ensures value { result ≡ badness gap give }
    ensures charted { Charted }
{
    if gap == 0 {
        return 0;
    }
    if give == 0 {
        return WORST;
    }
    let r = ratio(gap, give);
    if r > 1_290 {
        WORST
    } else {
        ((r * r * r + 131_072) / 262_144) as u32
    }
}

// The cost of a candidate from its fit, its penalty and what the page's notes add.
pub fn break_cost(fit: u32, penalty: i32, notes: i32) -> i64
    ensures { result ≡ break_cost fit penalty notes }
{
    if fit == MOST || notes >= 10_000 {
        MOST as i64
    } else if penalty <= -FORBIDDEN {
        penalty as i64
    } else if fit < WORST {
        fit as i64 + penalty as i64 + notes as i64
    } else {
        100_000
    }
}

// Whether no candidate is looked at after one of this cost and penalty.
pub fn stops(cost: i64, penalty: i32) -> bool
    ensures { result ≡ stops cost penalty }
{
    cost >= MOST as i64 || penalty <= -FORBIDDEN
}
