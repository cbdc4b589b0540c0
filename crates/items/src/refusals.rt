// What the library refuses, by the numbers of one table.
ghost use Rattle.std.specs.Prelude.{◌≡◌};
ghost use Rattle.items.specs.Refusals.{number_of, of_the_whole};

#[derive(Clone, Copy, PartialEq, Eq, Debug)]
pub enum Cause {
    // a setting, a class value or a table's length is outside its limits
    Limits = 1,
    // feed or close on a closed book
    Closed = 2,
    // a note has no content
    NoContent = 3,
    // a note's class is not declared
    Undeclared = 4,
    // a note's content holds a note
    Nested = 5,
    // an item's value is outside its limits
    Value = 6,
    // more items and notes than rows
    Full = 7,
}

// `offset` is 0 for the item or the note as a whole, and k for the k-th item of its content.
#[derive(Clone, Copy, PartialEq, Eq, Debug)]
pub struct Refusal {
    pub cause: Cause,
    pub offset: usize,
}

// A cause's number in the table of refusals.
impl From<Cause> for u32 {
    ghost from_gives = { λ cause n. n ≡ number_of cause };

    fn from(cause: Cause) -> u32 {
        cause as u32
    }
}

// The refusal of an item, a note or a call as a whole.
impl From<Cause> for Refusal {
    ghost from_gives = { λ cause refusal. refusal ≡ of_the_whole cause };

    fn from(cause: Cause) -> Refusal {
        Refusal { cause, offset: 0 }
    }
}
