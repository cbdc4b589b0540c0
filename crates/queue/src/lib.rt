// A ring queue over lent cells, for any plain element.
#![tactic(auto)]

ghost use Rattle.std.specs.Prelude.{◌≡◌, ◌+◌, ◌<◌, [], ◌∷◌, ◌++◌, length, drop, MatchOption, slice_index_or};
ghost use Rattle.queue.specs.Queues.{none, Within, list_of, place_of, next, previous};

// `len` entries from `head` on, going round at the end of the cells. The cells are lent at each call and not kept
// here, so each call asks that the entries lie within them.
#[derive(Clone, Copy, PartialEq, Eq, Debug)]
pub struct Queue {
    pub head: usize,
    pub len: usize,
}

// The cell of the k-th entry from `head` on, among `n` cells. These three take plain numbers: a struct of them would be
// made for each call.
fn cell(n: usize, head: usize, k: usize) -> usize
    requires head { head < n }
    requires k { k < n }
    ensures place { result ≡ place_of n head k }
    ensures within { result < n }
{
    let above = n - head;
    if k < above { head + k } else { k - above }
}

fn cell_before(n: usize, head: usize) -> usize
    requires { head < n }
    ensures place { result ≡ previous n head }
    ensures within { result < n }
{
    if head == 0 { n - 1 } else { head - 1 }
}

fn cell_after(n: usize, head: usize) -> usize
    requires { head < n }
    ensures place { result ≡ next n head }
    ensures within { result < n }
{
    if head + 1 < n { head + 1 } else { 0 }
}

// Writes the cell behind the last entry.
fn write_behind<T: Copy>(queue: Queue, cells: &mut [T], x: T)
    requires within { Within queue cells.old }
    requires room { queue.len < length cells.old }
    ensures { list_of (record { head = queue.head; len = queue.len + 1 }) cells.new ≡ list_of queue cells.old ++ x ∷ [] }
{
    let at = cell(cells.len(), queue.head, queue.len);
    cells[at] = x;
}

// Writes the cell before the first entry, and answers which it is.
fn write_before<T: Copy>(queue: Queue, cells: &mut [T], x: T) -> usize
    requires within { Within queue cells.old }
    requires room { queue.len < length cells.old }
    ensures list { list_of (record { head = result; len = queue.len + 1 }) cells.new ≡ x ∷ list_of queue cells.old }
    ensures within { result < length cells.old }
{
    let at = cell_before(cells.len(), queue.head);
    cells[at] = x;
    at
}

// The queue without its first entry.
#[tactic(auto, using(crate::proofs::Rings::rest_at))]
fn rest<T: Copy>(queue: Queue, cells: &[T]) -> Queue
    requires within { Within queue cells.now }
    requires some { 0 < queue.len }
    ensures list { list_of result cells.now ≡ drop 1 (list_of queue cells.now) }
    ensures within { Within result cells.now }
{
    Queue {
        head: cell_after(cells.len(), queue.head),
        len: queue.len - 1,
    }
}

impl Queue {
    pub fn new() -> Queue
        ensures zeros { (result.head ≡ 0) × (result.len ≡ 0) }
        ensures empty { result ≡ none }
    {
        Queue { head: 0, len: 0 }
    }

    // The k-th entry, counted from 0.
    #[tactic(auto, using(crate::proofs::Rings::read_at))]
    pub fn get<T: Copy>(&self, cells: &[T], k: usize) -> T
        requires within { Within self.now cells.now }
        requires k { k < self.now.len }
        ensures { (d : T) → result ≡ slice_index_or (list_of self.now cells.now) k d }
    {
        cells[cell(cells.len(), self.head, k)]
    }

    // One entry more at the back.
    pub fn push_back<T: Copy>(&mut self, cells: &mut [T], x: T)
        requires within { Within self.old cells.old }
        requires room { self.old.len < length cells.old }
        ensures list { list_of self.new cells.new ≡ list_of self.old cells.old ++ x ∷ [] }
        ensures within { Within self.new cells.new }
    {
        write_behind(*self, cells, x);
        self.len += 1;
    }

    // One entry more at the front.
    pub fn push_front<T: Copy>(&mut self, cells: &mut [T], x: T)
        requires within { Within self.old cells.old }
        requires room { self.old.len < length cells.old }
        ensures list { list_of self.new cells.new ≡ x ∷ list_of self.old cells.old }
        ensures within { Within self.new cells.new }
    {
        self.head = write_before(*self, cells, x);
        self.len += 1;
    }

    // Takes the first entry out, if there is one.
    pub fn pop_front<T: Copy>(&mut self, cells: &[T]) -> Option<T>
        requires within { Within self.old cells.now }
        ensures first { MatchOption result (self.old.len ≡ 0) (λ x. (0 < self.old.len) × ((d : T) → x ≡ slice_index_or (list_of self.old cells.now) 0 d)) }
        ensures list { list_of self.new cells.now ≡ drop 1 (list_of self.old cells.now) }
        ensures within { Within self.new cells.now }
    {
        if self.len == 0 {
            return None;
        }
        let first = self.get(cells, 0);
        *self = rest(*self, cells);
        Some(first)
    }
}
