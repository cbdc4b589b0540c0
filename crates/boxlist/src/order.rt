// The order of a box list's records: settings, classes rising, entries, and the end.
ghost use Rattle.std.specs.Prelude.{◌≡◌};
ghost use Rattle.boxlist.specs.Order.{after_start, after_classes, after_entries, after_content, stage_after, owing, to_come, head_within, item_of};

use crate::records::Record;
use items::{Class, Item, Settings};

// Where the reading of a box list is. `above` is the lowest class that may come next, and `left` how many items of a
// note's content are still to come.
#[derive(Clone, Copy, PartialEq, Eq, Debug)]
pub enum Stage {
    Start,
    Classes { above: u64 },
    Entries,
    Content { left: u32 },
    Ended,
}

impl Stage {
    fn owing(left: u32) -> Stage
        ensures { result ≡ owing left }
    {
        if left == 0 {
            Stage::Entries
        } else {
            Stage::Content { left }
        }
    }

    fn after_start(next: Record) -> Option<Stage>
        ensures { result ≡ after_start next }
    {
        match next {
            Record::Settings { .. } => Some(Stage::Classes { above: 0 }),
            _ => None,
        }
    }

    fn after_entries(next: Record) -> Option<Stage>
        ensures { result ≡ after_entries next }
    {
        match next {
            Record::Settings { .. } | Record::Class { .. } => None,
            Record::Note { count, .. } => Some(Stage::owing(count)),
            Record::End => Some(Stage::Ended),
            _ => Some(Stage::Entries),
        }
    }

    fn after_classes(above: u64, next: Record) -> Option<Stage>
        ensures { result ≡ after_classes above next }
    {
        match next {
            Record::Class { class, .. } => {
                let class = u64::from(class);
                (above <= class).then_some(Stage::Classes { above: class + 1 })
            }
            _ => Stage::after_entries(next),
        }
    }

    fn after_content(left: u32, next: Record) -> Option<Stage>
        ensures { result ≡ after_content left next }
    {
        match next {
            Record::Settings { .. } | Record::Class { .. } | Record::End => None,
            _ => Some(Stage::owing(left.saturating_sub(1))),
        }
    }

    // How many items of a note's content are to come.
    pub fn to_come(self) -> u32
        ensures { result ≡ to_come self }
    {
        match self {
            Stage::Content { left } => left,
            _ => 0,
        }
    }

    // The stage after one more record, or none where the record is out of its place.
    pub fn after(self, next: Record) -> Option<Stage>
        ensures { result ≡ stage_after self next }
    {
        match self {
            Stage::Start => Stage::after_start(next),
            Stage::Classes { above } => Stage::after_classes(above, next),
            Stage::Entries => Stage::after_entries(next),
            Stage::Content { left } => Stage::after_content(left, next),
            Stage::Ended => None,
        }
    }
}

impl Record {
    // Whether the values of settings or of a class are within their limits; other records are looked at later.
    pub fn within_limits(self) -> bool
        ensures { result ≡ head_within self }
    {
        match self {
            Record::Settings {
                size,
                depth,
                top,
                bound,
                policy,
            } => {
                let settings = Settings { size, depth, top };
                settings.within_limits() && (1..=100).contains(&bound) && policy <= 2
            }
            Record::Class {
                class,
                limit,
                skip,
                floating,
                depth,
            } => {
                let rules = Class {
                    floating,
                    limit,
                    skip,
                    depth,
                };
                class <= 7 && rules.within_limits()
            }
            _ => true,
        }
    }

    // The item that an entry stands for. An order too large for an item's is one that is outside its limits as well.
    // No TryFrom: a record that stands for no item is no error.
    pub fn item(self) -> Option<Item>
        ensures { result ≡ item_of self }
    {
        match self {
            Record::Box { height, depth } => Some(Item::Box { height, depth }),
            Record::Glue {
                width,
                stretch,
                order,
                shrink,
            } => {
                let order = u8::try_from(order).unwrap_or(u8::MAX);
                Some(Item::Glue {
                    width,
                    stretch,
                    order,
                    shrink,
                })
            }
            Record::Kern { width } => Some(Item::Kern { width }),
            Record::Penalty { value } => Some(Item::Penalty { value }),
            Record::Note { class, count } => Some(Item::Note { class, count }),
            Record::Settings { .. } | Record::Class { .. } | Record::End => None,
        }
    }
}
