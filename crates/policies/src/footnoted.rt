// Ships the body and every class; holds nothing.
ghost use Rattle.std.specs.Prelude.{[]};
ghost use Rattle.policies.specs.Policies.{FootnotedRule};

use crate::{FiredPage, Policy, Verdict};

#[derive(Clone, Copy)]
pub struct Footnoted;

impl Policy for Footnoted {
    ghost held = { λ _. [] };

    ghost rule = { FootnotedRule };

    fn judge(&mut self, page: FiredPage<'_>) -> Verdict {
        Verdict::all(page.body.len(), [true; 8])
    }

    fn release(&mut self) -> usize {
        self.held_count()
    }

    fn held_count(&self) -> usize {
        0
    }

    fn held_at(&self, _k: usize) -> Option<u32> {
        None
    }
}
