// A box list as it is read: each record in its place, and a note with its content.
ghost use Rattle.std.specs.Prelude.{◌≡◌, ◌<◌, ◌≤◌, length, Ok, Err, Some};
ghost use Rattle.boxlist.specs.declared.order.Stage.TheVariants.{Start};
ghost use Rattle.boxlist.specs.declared.records.Record.{Record};
ghost use Rattle.boxlist.specs.Faults.{text_fault};
ghost use Rattle.boxlist.specs.Order.{owing};
ghost use Rattle.boxlist.specs.Reading.{after_end, outcome_of, ReadOne, Onward, InContent, ReadItem, ReadContent, ReadEntry};

use crate::faults::{Fault, TextCause};
use crate::order::Stage;
use crate::reader::{NoRecord, Reader};
use crate::records::Record;
use items::Item;

// A text, where its reading is, and which records may come next.
#[derive(Drop)]
pub struct BoxList<'a> {
    pub reader: Reader<'a>,
    pub stage: Stage,
}

// A record in its place, with the stage after it.
#[derive(Clone, Copy, PartialEq, Eq, Debug)]
pub struct Placed {
    pub read: Record,
    pub stage: Stage,
}

// What is told of a line: no record is tested first, then its place, then the limits of settings and classes.
fn outcome(
    stage: Stage,
    reading: Result<Option<Record>, NoRecord>,
) -> Result<Option<Placed>, TextCause>
    ensures { result ≡ outcome_of stage reading }
{
    let Some(read) = reading? else {
        return ended(stage);
    };
    let stage = stage.after(read).ok_or(TextCause::OutOfPlace)?;
    if !read.within_limits() {
        return Err(TextCause::Limits);
    }
    Ok(Some(Placed { read, stage }))
}

// The text may end only after the end's record.
fn ended(stage: Stage) -> Result<Option<Placed>, TextCause>
    ensures { result ≡ after_end stage }
{
    match stage {
        Stage::Ended => Ok(None),
        _ => Err(TextCause::OutOfPlace),
    }
}

impl<'a> BoxList<'a> {
    pub fn new(text: &'a [u8]) -> BoxList<'a>
        ensures text { result.reader.text.now ≡ text.now }
        ensures start { (result.reader.pos ≡ 0) × (result.reader.line ≡ 1) × (result.stage ≡ Start) }
    {
        BoxList {
            reader: Reader::new(text),
            stage: Stage::Start,
        }
    }

    // The next record, in its place, or none after the end.
    pub fn record(&mut self) -> Result<Option<Record>, Fault>
        ensures read { ReadOne self.old self.new result }
        ensures onward { (r : Record) → result ≡ Ok (Some r) → Onward self.old self.new }
    {
        let line = self.reader.line();
        let reading = self.reader.next();
        let told = outcome(self.stage, reading).map_err(|cause| Fault::of_text(line, cause))?;
        let Some(placed) = told else {
            return Ok(None);
        };
        self.stage = placed.stage;
        Ok(Some(placed.read))
    }

    // The next item of a note's content.
    fn content_item(&mut self) -> Result<Item, Fault>
        requires { InContent self.old.stage }
        ensures { ReadItem self.old self.new result }
    {
        let read = self.record()?.unwrap();
        Ok(read.item().unwrap())
    }

    // A note's content, all of it, to the front of a table.
    fn gather(&mut self, count: u32, table: &mut [Item]) -> Result<(), Fault>
        requires stage { 0 < count → self.old.stage ≡ owing count }
        requires room { length self.old.reader.text.now ≤ length table.old }
        ensures { ReadContent self.old self.new table.old table.new count result }
    {
        // By index: a count may be above the table's length, and then the text ends first.
        for i in 0..count as usize {
            table[i] = self.content_item()?;
        }
        Ok(())
    }

    // The next record with all its content, where there is room for it.
    fn whole_entry(&mut self, table: &mut [Item]) -> Result<Option<Record>, Fault>
        requires room { length self.old.reader.text.now ≤ length table.old }
        ensures read { ReadEntry self.old self.new table.old table.new result }
        ensures onward { (r : Record) → result ≡ Ok (Some r) → Onward self.old self.new }
    {
        let first = self.record()?;
        self.gather(self.stage.to_come(), table)?;
        Ok(first)
    }

    // The next settings, class, item, note or end, or none after the end. A note's content goes to the front of the
    // table, which is refused by 1 if it is shorter than the text, so that any content fits.
    pub fn entry(&mut self, table: &mut [Item]) -> Result<Option<Record>, Fault>
        ensures read { length self.old.reader.text.now ≤ length table.old → ReadEntry self.old self.new table.old table.new result }
        ensures onward { (r : Record) → result ≡ Ok (Some r) → Onward self.old self.new }
        ensures short { length table.old < length self.old.reader.text.now → (result ≡ Err (text_fault self.old.reader.line TextCause.Limits)) × (self.new ≡ self.old) × (table.new ≡ table.old) }
    {
        if table.len() < self.reader.text_len() {
            return Err(Fault::of_text(self.reader.line(), TextCause::Limits));
        }
        self.whole_entry(table)
    }
}
