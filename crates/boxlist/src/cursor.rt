// What of a text is still to be read, and how the parts of a record are read there.
ghost use Rattle.std.specs.Prelude.{◌≡◌, ℕ, ◌+◌, ◌<◌, List, [], ◌∷◌, ◌++◌, length, pos, ◌-ℤ◌, decimal, Decides, IfSome, IsSome, OnSome, MatchOption, Some, slice_index};
ghost use Rattle.std.specs.List.{AllByRecursion};
ghost use Rattle.boxlist.specs.declared.records.Record.{Record};
ghost use Rattle.boxlist.specs.Lines.{line_of};
ghost use Rattle.boxlist.specs.Marks.{letters_of};
ghost use Rattle.boxlist.specs.Parts.{ahead, Behind, fields, MadeOf, LeadingZero, NoDigit, Passed, Exactly, small};
ghost use Rattle.boxlist.specs.Texts.{field, text_of, Small, Fits};

use crate::marks::Mark;
use crate::records::Record;
use items::MOST;

#[derive(Drop)]
pub(crate) struct Cursor<'a> {
    pub(crate) rest: &'a [u8],
}

impl<'a> Cursor<'a> {
    // Passes the byte `b`, if it is next.
    fn skip(&mut self, b: u8) -> Option<()>
        ensures cases { MatchOption result (self.new ≡ self.old) (λ _. Passed (b ∷ []) self.old self.new) }
        ensures finds { (ys : List ℕ) → ahead self.old ≡ b ∷ ys → IsSome result }
    {
        let (next, rest) = self.rest.split_first()?;
        if *next != b {
            return None;
        }
        self.rest = rest;
        Some(())
    }

    fn digit(&mut self) -> Option<u32>
        ensures { MatchOption result (NoDigit (ahead self.old) × (self.new ≡ self.old)) (λ d. (d < 10) × Passed ((48 + d) ∷ []) self.old self.new) }
    {
        let (next, rest) = self.rest.split_first()?;
        let digit = char::from(*next).to_digit(10)?;
        self.rest = rest;
        Some(digit)
    }

    // A number as it is written, at most the largest length.
    fn number(&mut self) -> Option<u32>
        ensures { Exactly decimal small self.old self.new result }
    {
        let start = self.rest;
        let mut n: u64 = 0;
        while let Some(digit) = self.digit() {
            n = n * 10 + u64::from(digit);
            if !is_small(n) {
                return None;
            }
        }
        let len = start.len() - self.rest.len();
        if len == 0 || has_leading_zero(&start[..len]) {
            return None;
        }
        Some(n as u32)
    }

    fn field(&mut self) -> Option<u32>
        ensures { Exactly (λ n. field (pos n)) small self.old self.new result }
    {
        self.skip(b' ')?;
        self.number()
    }

    // As many fields as are asked for.
    fn fields<const N: usize>(&mut self) -> Option<[u32; N]>
        ensures { Exactly fields (λ ns. (length ns ≡ N) × AllByRecursion small ns) self.old self.new result }
    {
        let mut numbers = [0; N];
        for number in &mut numbers {
            *number = self.field()?;
        }
        Some(numbers)
    }

    // A field that may be negative.
    fn signed_field(&mut self) -> Option<i32>
        ensures { Exactly field Small self.old self.new result }
    {
        self.skip(b' ')?;
        match self.skip(b'-') {
            Some(()) => negative(self.number()?),
            None => Some(self.number()? as i32),
        }
    }

    fn mark(&mut self) -> Option<Mark>
        ensures { Exactly letters_of (λ _. Unit {0}) self.old self.new result }
    {
        let (letters, rest) = self.rest.split_at_checked(2)?;
        self.rest = rest;
        Mark::of(letters)
    }

    // What stands behind each mark, in the order in which the text has it. They differ in what they make of the numbers.
    fn settings(&mut self) -> Option<Record>
        ensures { MadeOf 5 (λ ns. Record.Settings (slice_index ns 0) (slice_index ns 1) (slice_index ns 2) (slice_index ns 3) (slice_index ns 4)) self.old self.new result }
    {
        let [size, depth, top, bound, policy] = self.fields::<5>()?;
        Some(Record::Settings {
            size,
            depth,
            top,
            bound,
            policy,
        })
    }

    fn class(&mut self) -> Option<Record>
        ensures { MadeOf 5 (λ ns. Record.Class (slice_index ns 0) (slice_index ns 1) (slice_index ns 2) (slice_index ns 3) (slice_index ns 4)) self.old self.new result }
    {
        let [class, limit, skip, floating, depth] = self.fields::<5>()?;
        Some(Record::Class {
            class,
            limit,
            skip,
            floating,
            depth,
        })
    }

    fn plain_box(&mut self) -> Option<Record>
        ensures { MadeOf 2 (λ ns. Record.Box (slice_index ns 0) (slice_index ns 1)) self.old self.new result }
    {
        let [height, depth] = self.fields::<2>()?;
        Some(Record::Box { height, depth })
    }

    fn glue(&mut self) -> Option<Record>
        ensures { Behind Mark.Gl self.old self.new result }
    {
        let width = self.signed_field()?;
        let [stretch, order, shrink] = self.fields::<3>()?;
        Some(Record::Glue {
            width,
            stretch,
            order,
            shrink,
        })
    }

    fn kern(&mut self) -> Option<Record>
        ensures { Behind Mark.Kn self.old self.new result }
    {
        let width = self.signed_field()?;
        Some(Record::Kern { width })
    }

    fn penalty(&mut self) -> Option<Record>
        ensures { Behind Mark.Pn self.old self.new result }
    {
        let value = self.signed_field()?;
        Some(Record::Penalty { value })
    }

    fn note(&mut self) -> Option<Record>
        ensures { MadeOf 2 (λ ns. Record.Note (slice_index ns 0) (slice_index ns 1)) self.old self.new result }
    {
        let [class, count] = self.fields::<2>()?;
        Some(Record::Note { class, count })
    }

    // A record up to the end of its line.
    fn body(&mut self) -> Option<Record>
        ensures { Exactly text_of Fits self.old self.new result }
    {
        match self.mark()? {
            Mark::St => self.settings(),
            Mark::Cl => self.class(),
            Mark::Bx => self.plain_box(),
            Mark::Gl => self.glue(),
            Mark::Kn => self.kern(),
            Mark::Pn => self.penalty(),
            Mark::Nt => self.note(),
            Mark::En => Some(Record::End),
        }
    }

    // Passes the byte 10 that ends a line.
    fn end(&mut self) -> Option<()>
        ensures reads { OnSome result (Passed (10 ∷ []) self.old self.new) }
        ensures finds { (ys : List ℕ) → ahead self.old ≡ 10 ∷ ys → IsSome result }
    {
        self.skip(b'\n')
    }

    // A record and the byte 10 that ends its line.
    pub(crate) fn line(&mut self) -> Option<Record>
        ensures reads { IfSome result (λ r. Fits r × Passed (text_of r ++ 10 ∷ []) self.old self.new) }
        ensures finds { (r : Record) → Fits r → text_of r ++ 10 ∷ [] ≡ line_of (ahead self.old) → result ≡ Some r }
    {
        let record = self.body()?;
        self.end()?;
        Some(record)
    }
}

fn is_small(n: u64) -> bool
    ensures { Decides result (small n) }
{
    n <= u64::from(MOST)
}

fn has_leading_zero(digits: &[u8]) -> bool
    ensures { Decides result (LeadingZero digits.now) }
{
    matches!(digits, [b'0', _, ..])
}

// What a minus makes of a number. None stands before 0.
fn negative(n: u32) -> Option<i32>
    requires { small n }
    ensures { MatchOption result (n ≡ 0) (λ z. (0 < n) × (z ≡ pos 0 -ℤ pos n)) }
{
    if n == 0 { None } else { Some(-(n as i32)) }
}
