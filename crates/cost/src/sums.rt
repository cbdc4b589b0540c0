// What a list of items comes to, kept as items arrive.
ghost use Rattle.std.specs.Prelude.{◌≡◌, ◌+◌, ◌^◌, ◌<◌, true, unsigned_abs};
ghost use Rattle.items.specs.Items.{within_limits};
ghost use Rattle.cost.specs.Sums.{Roomy, none, below, capped, weighed, endless, fit_of};

use crate::badness;
use items::{Item, MOST};

// `total` is the height without the last depth; the stretch is by order.
#[derive(Clone, Copy, PartialEq, Eq, Debug)]
pub struct Sums {
    pub total: i64,
    pub depth: u32,
    pub stretch: [u64; 4],
    pub shrink: u64,
}

impl Sums {
    pub fn new() -> Sums
        ensures { result ≡ none }
    {
        Sums {
            total: 0,
            depth: 0,
            stretch: [0; 4],
            shrink: 0,
        }
    }

    // The last depth goes over to the total, with the height of what comes below it.
    fn lower(&mut self, height: i64, depth: u32)
        requires total { unsigned_abs self.old.total < 2 ^ 62 }
        requires height { unsigned_abs height < 2 ^ 32 }
        ensures after { self.new ≡ below self.old height depth }
        ensures bound { unsigned_abs self.new.total < 2 ^ 62 + 2 ^ 33 }
    {
        self.total += self.depth as i64 + height;
        self.depth = depth;
    }

    // Depth above `most_depth` goes over to the total.
    fn cap(&mut self, most_depth: u32)
        requires { unsigned_abs self.old.total < 2 ^ 62 + 2 ^ 33 }
        ensures { self.new ≡ capped most_depth self.old }
    {
        if self.depth > most_depth {
            self.total += (self.depth - most_depth) as i64;
            self.depth = most_depth;
        }
    }

    // One more item below the others, where depths are at most `most_depth`.
    pub fn add(&mut self, item: Item, most_depth: u32)
        requires within { within_limits item ≡ true }
        requires roomy { Roomy self.old }
        ensures { self.new ≡ weighed most_depth self.old item }
    {
        match item {
            Item::Box { height, depth } => self.lower(height as i64, depth),
            Item::Glue {
                width,
                stretch,
                order,
                shrink,
            } => {
                self.lower(width as i64, 0);
                self.stretch[order as usize] += stretch as u64;
                self.shrink += shrink as u64;
            }
            Item::Kern { width } => self.lower(width as i64, 0),
            Item::Penalty { .. } | Item::Note { .. } => {}
        }
        self.cap(most_depth);
    }

    // Whether there is stretch of a higher order than the lowest, so that any gap can be filled.
    fn endless(&self) -> bool
        ensures { result ≡ endless self.now.stretch }
    {
        self.stretch[1] != 0 || self.stretch[2] != 0 || self.stretch[3] != 0
    }

    // How well the sums fit a goal: the badness of the stretching or shrinking that is left, or the most
    // where there is too little to shrink.
    pub fn fit(&self, goal: i64) -> u32
        requires goal { unsigned_abs goal < 2 ^ 62 }
        requires total { unsigned_abs self.now.total < 2 ^ 62 }
        ensures { result ≡ fit_of goal self.now }
    {
        let gap = (goal - self.total).unsigned_abs();
        if self.total < goal {
            if self.endless() {
                0
            } else {
                badness(gap, self.stretch[0])
            }
        } else if gap > self.shrink {
            MOST
        } else {
            badness(gap, self.shrink)
        }
    }
}
