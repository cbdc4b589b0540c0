// What a galley is made of, and the table that keeps it. Lengths are whole scaled points.
#![tactic(auto)]

ghost use Rattle.std.specs.Prelude.{◌≡◌};
ghost use Rattle.items.specs.Items.{is_box, is_glue, is_note, is_discardable, within_limits, size_of, fed_row};
ghost use Rattle.items.specs.Limits.{settings_within, class_within};

pub mod refusals;
pub mod runs;

// The largest length. As a cost it is one that no break may have.
pub const MOST: u32 = 1_073_741_823;
// The penalty that forbids a break; its negative orders one.
pub const FORBIDDEN: i32 = 10_000;
// The most rows that an item table may have.
pub const MOST_ROWS: usize = 16_384;

// One item of a galley. A note's content is fed with it and follows it in the item table.
#[derive(Clone, Copy, PartialEq, Eq, Debug)]
pub enum Item {
    Box {
        height: u32,
        depth: u32,
    },
    Glue {
        width: i32,
        stretch: u32,
        // a number, since one above 3 may be handed over, and is then refused
        order: u8,
        shrink: u32,
    },
    Kern {
        width: i32,
    },
    Penalty {
        value: i32,
    },
    Note {
        class: u32,
        count: u32,
    },
}

// Where an item of text lies.
#[derive(Clone, Copy, PartialEq, Eq, Debug)]
pub enum Place {
    Owed,
    Shelved,
    Held,
    Shipped { page: u32 },
    Dropped,
}

// The number and the goal of a firing.
#[derive(Clone, Copy, PartialEq, Eq, Debug)]
pub struct Stamp {
    pub firing: u32,
    pub goal: i64,
}

// A row of the item table. `note` is the number of the note whose content the item is; body text and a note itself
// have none. `spent` is how many items of a note's content are shelved or dropped already, and `stamp` is that of
// the firing that last took the item as body text.
#[derive(Clone, Copy, PartialEq, Eq, Debug)]
pub struct Row {
    pub item: Item,
    pub note: Option<u32>,
    pub spent: u32,
    pub place: Place,
    pub stamp: Option<Stamp>,
}

// A run of one note's content on a shelf: the note's number, the first item's, and how many there are.
#[derive(Clone, Copy, PartialEq, Eq, Debug, Default)]
pub struct Piece {
    pub note: u32,
    pub first: u32,
    pub count: u32,
}

#[derive(Clone, Copy, PartialEq, Eq, Debug)]
pub struct Settings {
    pub size: u32,
    pub depth: u32,
    pub top: u32,
}

// What is declared of a class of notes. Where there is none, the class takes no note.
#[derive(Clone, Copy, PartialEq, Eq, Debug, Default)]
pub struct Class {
    pub floating: u32,
    pub limit: u32,
    pub skip: u32,
    pub depth: u32,
}

impl Item {
    pub fn is_box(self) -> bool
        ensures { result ≡ is_box self }
    {
        matches!(self, Item::Box { .. })
    }

    pub fn is_glue(self) -> bool
        ensures { result ≡ is_glue self }
    {
        matches!(self, Item::Glue { .. })
    }

    pub fn is_note(self) -> bool
        ensures { result ≡ is_note self }
    {
        matches!(self, Item::Note { .. })
    }

    // Glue, a kern or a penalty: what a break may drop.
    pub fn is_discardable(self) -> bool
        ensures { result ≡ is_discardable self }
    {
        !self.is_box() && !self.is_note()
    }

    pub fn within_limits(self) -> bool
        ensures { result ≡ within_limits self }
    {
        match self {
            Item::Box { height, depth } => height <= MOST && depth <= MOST,
            Item::Glue {
                width,
                stretch,
                order,
                shrink,
            } => { width.unsigned_abs() <= MOST && stretch <= MOST && order <= 3 && shrink <= MOST }
            Item::Kern { width } => width.unsigned_abs() <= MOST,
            Item::Penalty { value } => -FORBIDDEN <= value && value <= FORBIDDEN,
            Item::Note { .. } => true,
        }
    }

    // How far the item reaches along the page; a note takes no room of its own.
    pub fn size(self) -> i64
        ensures { result ≡ size_of self }
    {
        match self {
            Item::Box { height, depth } => height as i64 + depth as i64,
            Item::Glue { width, .. } => width as i64,
            Item::Kern { width } => width as i64,
            Item::Penalty { .. } | Item::Note { .. } => 0,
        }
    }
}

impl Row {
    // The row of an item that is fed, with the number of the note whose content it is.
    pub fn fed(item: Item, note: Option<u32>) -> Row
        ensures { result ≡ fed_row item note }
    {
        Row {
            item,
            note,
            spent: 0,
            place: Place::Owed,
            stamp: None,
        }
    }
}

impl Settings {
    pub fn within_limits(self) -> bool
        ensures { result ≡ settings_within self }
    {
        1 <= self.size && self.size <= MOST && self.depth <= MOST && self.top <= MOST
    }
}

impl Class {
    pub fn within_limits(self) -> bool
        ensures { result ≡ class_within self }
    {
        self.floating <= 10_000 && self.limit <= MOST && self.skip <= MOST && self.depth <= MOST
    }
}
