// Ships the body and no class; holds nothing.
ghost use Rattle.std.specs.Prelude.{[]};
ghost use Rattle.policies.specs.Policies.{PlainRule};

use crate::{FiredPage, Policy, Verdict};

// Footnoted differs in the classes alone: each of the four policies is a type with its own rule. Both say that they
// hold nothing, which no default body of the trait could know.
#[derive(Clone, Copy)]
pub struct Plain;

impl Policy for Plain {
    ghost held = { λ _. [] };

    ghost rule = { PlainRule };

    fn judge(&mut self, page: FiredPage<'_>) -> Verdict {
        Verdict::all(page.body.len(), [false; 8])
    }

    fn release(&mut self) -> usize {
        self.held_count()
    }

    fn held_count(&self) -> usize {
        0
    }

    fn held_at(&self, _k: usize) -> Option<u32> {
        None
    }
}
