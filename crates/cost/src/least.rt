// The least-cost rule, written once for whatever has a cost.
ghost use Rattle.std.specs.Prelude.{◌≡◌, ℤ, pos, ◌≤ℤ◌, Some};
ghost use Rattle.items.specs.Items.{most};
ghost use Rattle.cost.specs.Cost.{stops};
ghost use Rattle.cost.specs.Least.{least, best_of, is_over};

use crate::stops;
use std::ops::ControlFlow;

pub trait Costed {
    ghost price: { Self → ℤ };

    fn cost(&self) -> i64
        ensures { result ≡ price self.now };
}

// The best of the candidates so far and one more. No cost is above the most, so the first candidate is
// always the best; of equal costs the last stays.
pub fn least<C: Costed + Drop>(best: Option<C>, here: C) -> C
    requires { C.Costed.price here ≤ℤ pos most }
    ensures last_of_the_least { Some result ≡ least C.Costed.price best here }
{
    match best {
        Some(before) => {
            if here.cost() <= before.cost() {
                here
            } else {
                before
            }
        }
        None => here,
    }
}

// The best of the candidates so far and one more, with its penalty: `Break` where no candidate is looked at after it.
pub fn weigh<C: Costed + Drop>(best: Option<C>, here: C, penalty: i32) -> ControlFlow<C, Option<C>>
    requires { C.Costed.price here ≤ℤ pos most }
    ensures best { best_of result ≡ least C.Costed.price best here }
    ensures over { is_over result ≡ stops (C.Costed.price here) penalty }
{
    if stops(here.cost(), penalty) {
        ControlFlow::Break(least(best, here))
    } else {
        ControlFlow::Continue(Some(least(best, here)))
    }
}
