// A reader of box lists, the text in which a galley arrives.
#![tactic(auto)]

mod cursor;
pub mod faults;
pub mod list;
mod marks;
pub mod order;
pub mod reader;
pub mod records;
