// Hands out the records of a text, line by line.
ghost use Rattle.std.specs.Prelude.{◌≡◌, ◌+◌, ◌*◌, ◌<◌, ◌≤◌, [], ◌∷◌, ◌++◌, length, Ok, Some, Decides, codes};
ghost use Rattle.boxlist.specs.declared.records.Record.{Record};
ghost use Rattle.boxlist.specs.Lines.{line_at, lines_passed, Answers};
ghost use Rattle.boxlist.specs.Texts.{text_of, Fits};

use crate::cursor::Cursor;
use crate::records::Record;
use std::error::Error;
use std::fmt;

// The text, where its next line begins, and that line's number, from 1. A position beside the text, which is lent whole.
#[derive(Drop)]
pub struct Reader<'a> {
    text: &'a [u8],
    pos: usize,
    line: usize,
    // no line is empty
    ghost lines: { line ≤ pos + 1 },
}

// The line that is read next is no record.
#[derive(Clone, Copy, PartialEq, Eq, Debug)]
pub struct NoRecord;

impl fmt::Display for NoRecord {
    ghost output = { λ _. Some (codes "the line is no record") };

    fn fmt<W: fmt::Write>(&self, f: &mut fmt::Formatter<W>) -> fmt::Result {
        write!(f, "the line is no record")
    }
}

impl Error for NoRecord {}

impl<'a> Reader<'a> {
    pub fn new(text: &'a [u8]) -> Reader<'a>
        ensures text { result.text.now ≡ text.now }
        ensures start { (result.pos ≡ 0) × (result.line ≡ 1) }
    {
        Reader {
            text,
            pos: 0,
            line: 1,
        }
    }

    // The number of the line that is read next.
    pub fn line(&self) -> usize
        ensures { result ≡ self.now.line }
    {
        self.line
    }

    pub fn text_len(&self) -> usize
        ensures { result ≡ length self.now.text.now }
    {
        self.text.len()
    }

    // Reads a line, or none where the text has ended. A line that is no record is not passed.
    pub fn next(&mut self) -> Result<Option<Record>, NoRecord>
        ensures answers { Answers (line_at self.old.pos self.old.text.now) result }
        ensures only { (q : Record) → Fits q → text_of q ++ 10 ∷ [] ≡ line_at self.old.pos self.old.text.now → result ≡ Ok (Some q) }
        ensures pos { self.new.pos ≡ self.old.pos + lines_passed result * length (line_at self.old.pos self.old.text.now) }
        ensures onward { 0 < lines_passed result → (self.old.pos < self.new.pos) × (self.new.pos ≤ length self.old.text.now) }
        ensures line { self.new.line ≡ self.old.line + lines_passed result }
        ensures text { self.new.text ≡ self.old.text }
    {
        if self.ended() {
            return Ok(None);
        }
        let mut cursor = Cursor {
            rest: &self.text[self.pos..],
        };
        let record = cursor.line().ok_or(NoRecord)?;
        self.pass(self.text.len() - cursor.rest.len());
        Ok(Some(record))
    }

    fn ended(&self) -> bool
        ensures { Decides result (length self.now.text.now ≤ self.now.pos) }
    {
        self.pos >= self.text.len()
    }

    // The next line begins at `to`.
    fn pass(&mut self, to: usize)
        requires forward { self.old.pos < to }
        requires within { to ≤ length self.old.text.now }
        ensures pos { self.new.pos ≡ to }
        ensures line { self.new.line ≡ self.old.line + 1 }
        ensures text { self.new.text ≡ self.old.text }
    {
        (self.pos, self.line) = (to, self.line + 1);
    }
}
