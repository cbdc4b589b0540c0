// Two columns a page: what ships below is set aside as the left column, and ships with what follows.
pub mod judging;

use arrayvec::ArrayVec;

#[derive(Drop)]
pub struct Paired<P> {
    below: P,
    column: ArrayVec<u32, 512>,
}
