// A book between its calls. Its tables and shelves are lent at each call, always the same ones.
#![tactic(auto)]

pub mod feeding;
pub mod making;

use calls::Page;
use items::{Class, Row, Settings};
use page::breaks::PageBreak;
use queue::Queue;

// The tables that a book is over, as a feed is lent them; a making takes each by itself, as `&`. The shelves are lent
// beside them: a call that lends an array of slices together with another field is not covered by the borrow checker.
#[derive(Drop)]
pub struct Tables<'a> {
    pub rows: &'a mut [Row],
    pub contributions: &'a mut [u32],
    pub page: &'a mut [u32],
    pub waiting: &'a mut [u32],
    pub shipped: &'a mut [u32],
    pub pages: &'a mut [Page],
}

// How far a book is: it can be fed, it is closed, or its last firing is settled.
#[derive(Clone, Copy, PartialEq, Eq, Debug)]
pub enum Phase {
    Feeding,
    Closed,
    Done,
}

// An open book: how much of each table is in use, and what no table has. What is declared of the classes and their
// shelves' queues are arrays of their own, as the one is given and never changes.
#[derive(Drop)]
pub struct Open {
    settings: Settings,
    classes: [Option<Class>; 8],
    rows: usize,
    contributions: Queue,
    page: usize,
    best: Option<PageBreak>,
    shelves: [Queue; 8],
    shipped: usize,
    pages: usize,
    firings: u32,
    phase: Phase,
}

// What is fired: a page, whose body stands in the page's table, or the last firing, of an empty page on a closed book.
#[derive(Clone, Copy, PartialEq, Eq, Debug)]
pub enum Firing {
    Page {
        body: usize,
        waiting: usize,
        penalty: i32,
    },
    Last,
}

// A book whose page is fired: it can only be settled, and must be, so it is no `Drop`.
pub struct Fired {
    book: Open,
    firing: Firing,
}
