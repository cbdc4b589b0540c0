// What the statements on a book speak of, and the law over lists of calls.
#![tactic(auto)]

pub mod laws;

// A shipped page: where in the shipping order it begins, and the output penalty of its firing.
#[derive(Clone, Copy, PartialEq, Eq, Debug, Default)]
pub struct Page {
    pub from: usize,
    pub penalty: i32,
}
