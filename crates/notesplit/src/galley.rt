// A box list fed to a book.
ghost use Rattle.std.specs.Prelude.{◌≤◌, IfOk};
ghost use Rattle.book.specs.View.{contents_of, Kept};

use book::{Open, Tables};
use boxlist::faults::{Fault, Met};
use boxlist::list::BoxList;
use boxlist::records::Record;
use items::{Class, Item, Piece, Settings};

// What stands before the entries of a box list.
#[derive(Clone, Copy, PartialEq, Eq, Debug)]
pub struct Head {
    pub settings: Settings,
    pub classes: [Option<Class>; 8],
}

impl Default for Head {
    fn default() -> Head {
        Head {
            settings: Settings {
                size: 1,
                depth: 0,
                top: 0,
            },
            classes: [None; 8],
        }
    }
}

impl Head {
    // Takes settings or a class up; false at any other record.
    fn take(&mut self, read: Record) -> bool {
        match read {
            Record::Settings {
                size,
                depth,
                top,
                ..
            } => self.settings = Settings { size, depth, top },
            Record::Class {
                class,
                limit,
                skip,
                floating,
                depth,
            } => {
                if let Some(declared) = self.classes.get_mut(class as usize) {
                    *declared = Some(Class {
                        floating,
                        limit,
                        skip,
                        depth,
                    });
                }
            }
            _ => return false,
        }
        true
    }

    // The settings and classes of a text. A fault is passed over: it is met again where the entries are fed. Classes
    // rise, so the last one ends the head: what follows may be a long note, and is not read here.
    pub(crate) fn of(text: &[u8], content: &mut [Item]) -> Head {
        let mut list = BoxList::new(text);
        let mut head = Head::default();
        while let Ok(Some(read)) = list.entry(content) {
            if !head.take(read) || head.classes[7].is_some() {
                break;
            }
        }
        head
    }
}

// How many items of content an entry has.
fn content_of(read: Record, room: usize) -> usize
    ensures { result ≤ room }
{
    match read {
        Record::Note { count, .. } => (count as usize).min(room),
        _ => 0,
    }
}

fn feed_entry(
    book: &mut Open,
    line: usize,
    read: Record,
    content: &[Item],
    tables: &mut Tables<'_>,
    shelves: &[&mut [Piece]; 8],
) -> Result<(), Fault>
    requires kept { Kept book.old (contents_of tables.old shelves.now) }
    ensures kept { Kept book.new (contents_of tables.new shelves.now) }
{
    let Some(item) = read.item() else {
        return Ok(());
    };
    let count = content_of(read, content.len());
    book.feed(item, &content[..count], tables, shelves)
        .map_err(|refusal| Met { line, refusal })?;
    Ok(())
}

// Feeds all entries of a text, up to its first fault.
fn feed_text(
    text: &[u8],
    book: &mut Open,
    content: &mut [Item],
    tables: &mut Tables<'_>,
    shelves: &[&mut [Piece]; 8],
) -> Result<(), Fault>
    requires kept { Kept book.old (contents_of tables.old shelves.now) }
{
    let mut list = BoxList::new(text);
    loop {
        let line = list.reader.line();
        let Some(read) = list.entry(content)? else {
            return Ok(());
        };
        feed_entry(book, line, read, content, tables, shelves)?;
    }
}

// A book over the tables; a making is refused at the settings' line. By `&`, since a call that lends several fields of
// what lies behind a `&mut` is not covered by the borrow checker.
fn make_book(head: Head, tables: &Tables<'_>, shelves: &[&mut [Piece]; 8]) -> Result<Open, Met>
    ensures kept { IfOk result (λ book. Kept book (contents_of tables.now shelves.now)) }
{
    Open::make(
        head.settings,
        head.classes,
        tables.rows,
        tables.contributions,
        tables.page,
        tables.waiting,
        tables.shipped,
        tables.pages,
        shelves,
    )
    .map_err(|refusal| Met { line: 1, refusal })
}

// Feeds a text to a book that is made over the tables.
pub(crate) fn feed_all(
    text: &[u8],
    head: Head,
    content: &mut [Item],
    tables: &mut Tables<'_>,
    shelves: &[&mut [Piece]; 8],
) -> Result<(), Fault> {
    let mut book = make_book(head, tables, shelves)?;
    feed_text(text, &mut book, content, tables, shelves)
}
