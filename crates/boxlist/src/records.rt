// The records of a box list.

#[derive(Clone, Copy, PartialEq, Eq, Debug)]
pub enum Record {
    Settings {
        size: u32,
        depth: u32,
        top: u32,
        bound: u32,
        // A number and no enum: whether there is such a policy is told only after the record's place.
        policy: u32,
    },
    Class {
        class: u32,
        limit: u32,
        skip: u32,
        floating: u32,
        depth: u32,
    },
    Box {
        height: u32,
        depth: u32,
    },
    Glue {
        width: i32,
        stretch: u32,
        // A number and no enum: the galley refuses one above 3.
        order: u32,
        shrink: u32,
    },
    Kern {
        width: i32,
    },
    Penalty {
        value: i32,
    },
    Note {
        class: u32,
        count: u32,
    },
    End,
}
