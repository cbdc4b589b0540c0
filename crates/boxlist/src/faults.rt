// What a text is refused for, and where.
ghost use Rattle.std.specs.Prelude.{◌≡◌, Some};
ghost use Rattle.boxlist.specs.declared.faults.Layer.TheVariants.{Galley};
ghost use Rattle.boxlist.specs.declared.faults.TextCause.TheVariants as cause;
ghost use Rattle.boxlist.specs.Faults.{text_fault, line_of_fault, text_number, cause_of, printed, length_fault};

use crate::reader::NoRecord;
use items::refusals::Refusal;
use std::fmt;

// What the text itself is refused for.
#[derive(Clone, Copy, PartialEq, Eq, Debug)]
pub enum TextCause {
    // a setting or a class value is outside its limits
    Limits = 1,
    // the text is too long
    TooLong = 7,
    // the line is no record
    NoRecord = 8,
    // the record is out of its place, or the text ends early
    OutOfPlace = 9,
}

// A cause's number in the table of refusals.
impl From<TextCause> for u32 {
    ghost from_gives = { λ cause n. n ≡ text_number cause };

    fn from(cause: TextCause) -> u32 {
        cause as u32
    }
}

impl From<NoRecord> for TextCause {
    ghost from_gives = { λ _ given. given ≡ cause.NoRecord };

    fn from(_none: NoRecord) -> TextCause {
        TextCause::NoRecord
    }
}

// A fault is of the text, or a refusal of the galley, carried whole.
#[derive(Clone, Copy, PartialEq, Eq, Debug)]
pub enum Layer {
    Text(TextCause),
    Galley(Refusal),
}

// `line` is that of the record, or of the item or note that the galley refused.
#[derive(Clone, Copy, PartialEq, Eq, Debug)]
pub struct Fault {
    pub line: usize,
    pub layer: Layer,
}

// A refusal of the galley, met at the line of an item or of a note.
#[derive(Clone, Copy, PartialEq, Eq, Debug)]
pub struct Met {
    pub line: usize,
    pub refusal: Refusal,
}

impl From<Met> for Fault {
    ghost from_gives = { λ m f. (f.line ≡ m.line) × (f.layer ≡ Galley m.refusal) };

    fn from(met: Met) -> Fault {
        Fault {
            line: met.line,
            layer: Layer::Galley(met.refusal),
        }
    }
}

impl Fault {
    pub(crate) fn of_text(line: usize, cause: TextCause) -> Fault
        ensures { result ≡ text_fault line cause }
    {
        Fault {
            line,
            layer: Layer::Text(cause),
        }
    }

    // The faulty record's line: in a note's content it is as many below the note's as the offset. A sum that does not fit
    // stays at the largest number.
    pub fn faulty_line(self) -> usize
        ensures { result ≡ line_of_fault self }
    {
        match self.layer {
            Layer::Text(_) => self.line,
            Layer::Galley(refusal) => self.line.saturating_add(refusal.offset),
        }
    }

    // The cause's number in the table of refusals.
    pub fn cause(self) -> u32
        ensures { result ≡ cause_of self }
    {
        match self.layer {
            Layer::Text(cause) => u32::from(cause),
            Layer::Galley(refusal) => u32::from(refusal.cause),
        }
    }
}

// The faulty line, then T for the text or G for the galley, and the cause.
impl fmt::Display for Fault {
    ghost output = { λ fault. Some (printed fault) };

    fn fmt<W: fmt::Write>(&self, f: &mut fmt::Formatter<W>) -> fmt::Result {
        let line = self.faulty_line();
        let cause = self.cause();
        match self.layer {
            Layer::Text(_) => write!(f, "FA {line} T {cause}"),
            Layer::Galley(_) => write!(f, "FA {line} G {cause}"),
        }
    }
}

// The longest text that is read.
pub const LONGEST: usize = 8_192;

// What is told of a text by its length alone, before any line is read.
pub fn length_fault(len: usize) -> Option<Fault>
    ensures { result ≡ length_fault len }
{
    (len > LONGEST).then_some(Fault::of_text(0, TextCause::TooLong))
}
