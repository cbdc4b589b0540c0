// What is printed.
use crate::MOST;
use items::{Class, Item, Row};
use notes::split::{Part, split_note};
use std::{fmt, io};

// Some items in a row, counted from 1.
#[derive(Clone, Copy, PartialEq, Eq, Debug)]
struct Run {
    first: usize,
    count: usize,
}

impl fmt::Display for Run {
    fn fmt<W: fmt::Write>(&self, f: &mut fmt::Formatter<W>) -> fmt::Result {
        let first = self.first.saturating_add(1);
        let last = self.first.saturating_add(self.count);
        match self.count {
            0 => write!(f, "no items"),
            1 => write!(f, "item {first}"),
            _ => write!(f, "items {first} to {last}"),
        }
    }
}

fn part(rt: &impl Print, column: usize, part: Part) -> io::Result<()> {
    let piece = Run {
        first: part.first,
        count: part.cut.place,
    };
    let height = part.cut.height;
    let cost = part.cut.cost;
    println!(rt; "column {column}: {piece}, height {height}, cost {cost}")?;
    let dropped = Run {
        first: part.first.saturating_add(part.cut.place),
        count: part.dropped,
    };
    println!(rt; "dropped: {dropped}")
}

// The columns of one note.
fn columns(rt: &impl Print, parts: &[Part]) -> io::Result<()> {
    for (i, one) in parts.iter().enumerate() {
        part(rt, i + 1, *one)?;
    }
    Ok(())
}

// A note, by its rules and the rows of its content.
fn note(
    rt: &impl Print,
    number: usize,
    class: u32,
    rules: Class,
    content: &[Row],
) -> io::Result<()> {
    let mut parts = [Part::default(); MOST];
    let height = rules.limit.min(items::MOST) as i32;
    let split = split_note(content, &[height; MOST], rules.depth, &mut parts).map_err(|_| unfed())?;
    println!(rt; "note {number} of class {class}")?;
    columns(rt, &parts[..split.count])
}

// What no feed leaves in the table.
fn unfed() -> io::Error {
    io::Error::other("a note in the table that no feed takes")
}

// Each note of the table.
pub(crate) fn notes(rt: &impl Print, classes: &[Option<Class>; 8], rows: &[Row]) -> io::Result<()> {
    for (i, row) in rows.iter().enumerate() {
        if let Item::Note { class, count } = row.item {
            let rules = classes.get(class as usize).copied().flatten();
            let content = rows[i + 1..].get(..count as usize);
            let (Some(rules), Some(content)) = (rules, content) else {
                return Err(unfed());
            };
            note(rt, i + 1, class, rules, content)?;
        }
    }
    Ok(())
}
