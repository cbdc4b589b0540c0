// Feeding a book and closing it, and where an item lies.
ghost use Rattle.std.specs.Prelude.{◌≡◌, ℕ, ◌+◌, ◌<◌, ◌≤◌, false, not, List, ◌++◌, map, length, take, drop, is_ok, IfOk, MatchResult, if◌then◌else◌, Some, None, nat_lt, slice_index_or};
ghost use Rattle.std.specs.Option.{is_some};
ghost use Rattle.items.specs.declared.Piece.{Piece};
ghost use Rattle.items.specs.Items.{is_note, fed_row};
ghost use Rattle.items.specs.Refusals.{content_refusal};
ghost use Rattle.queue.specs.Queues.{Within};
ghost use Rattle.calls.specs.declared.Page.{Page};
ghost use Rattle.calls.specs.Feeding.{content_for, counted, refused_if, note_refusal, item_refusal, refusal_of, refusal, fed_rows, fed_book, place_in};
ghost use Rattle.book.specs.View.{lent, contents_of, StillLent, LengthsKept, OthersUntouched, is_closed, book_of, Kept};
ghost use Rattle.book.specs.Calls.{allowed, Fed, Closing};

use crate::{Open, Phase, Tables};
use items::refusals::{Cause, Refusal};
use items::runs::content_refusal;
use items::{Class, Item, Piece, Place, Row};

// What is content of what is handed over with an item: only a note has content.
fn content_of(item: Item, content: &[Item]) -> &[Item]
    ensures { result.now ≡ content_for item content.entry.now }
{
    if item.is_note() {
        content
    } else {
        &content[..0]
    }
}

// The item as its row has it: a note's says how much content it has.
fn with_count(item: Item, content: &[Item]) -> Item
    requires { length (content_for item content.now) ≤ 16384 }
    ensures { result ≡ counted item content.now }
{
    match item {
        Item::Note { class, .. } => Item::Note {
            class,
            count: content.len() as u32,
        },
        _ => item,
    }
}

fn is_declared(classes: &[Option<Class>; 8], class: u32) -> bool
    ensures { result ≡ is_some (slice_index_or classes.now class None) }
{
    matches!(classes.get(class as usize), Some(Some(_)))
}

// Where a test fails, the refusal of an item, a note or a call as a whole.
fn ensure(test: bool, cause: Cause) -> Result<(), Refusal>
    ensures { result ≡ allowed (refused_if (not test) cause) }
{
    if test { Ok(()) } else { Err(cause.into()) }
}

fn allow_content(content: &[Item]) -> Result<(), Refusal>
    ensures { result ≡ allowed (content_refusal content.now) }
{
    match content_refusal(content) {
        Some(refusal) => Err(refusal),
        None => Ok(()),
    }
}

fn allow_note(classes: &[Option<Class>; 8], class: u32, content: &[Item]) -> Result<(), Refusal>
    ensures { result ≡ allowed (note_refusal classes.now class content.now) }
{
    ensure(!content.is_empty(), Cause::NoContent)?;
    ensure(is_declared(classes, class), Cause::Undeclared)?;
    allow_content(content)
}

fn allow_item(classes: &[Option<Class>; 8], item: Item, content: &[Item]) -> Result<(), Refusal>
    ensures { result ≡ allowed (item_refusal classes.now item content.now) }
{
    match item {
        Item::Note { class, .. } => allow_note(classes, class, content),
        _ => ensure(item.within_limits(), Cause::Value),
    }
}

// Writes the rows of a note's content, from a row on.
// By index: of what is written through `iter_mut` a proof knows only the length.
fn write_content(rows: &mut [Row], at: usize, content: &[Item], note: u32)
    requires few { length rows.old ≤ 16384 }
    requires room { at + length content.now ≤ length rows.old }
    ensures written { take (at + length content.now) rows.new ≡ take at rows.old ++ map (λ y. fed_row y (Some note)) content.now }
    ensures rest { drop (at + length content.now) rows.new ≡ drop (at + length content.now) rows.old }
    ensures length { length rows.new ≡ length rows.old }
{
    for (i, item) in content.iter().enumerate() {
        rows[at + i] = Row::fed(*item, Some(note));
    }
}

// Writes the row of an item, or of a note and its content, from a row on.
fn write_fed(rows: &mut [Row], at: usize, item: Item, content: &[Item])
    requires few { length rows.old ≤ 16384 }
    requires room { at + 1 + length (content_for item content.now) ≤ length rows.old }
    ensures written { take (at + 1 + length (content_for item content.now)) rows.new ≡ take at rows.old ++ fed_rows (at + 1) item content.now }
    ensures rest { drop (at + 1 + length (content_for item content.now)) rows.new ≡ drop (at + 1 + length (content_for item content.now)) rows.old }
    ensures length { length rows.new ≡ length rows.old }
{
    rows[at] = Row::fed(with_count(item, content), None);
    write_content(rows, at + 1, content_of(item, content), at as u32 + 1);
}

// Whether there is room for an item and so much content in the rows that are left.
fn has_room(capacity: usize, used: usize, count: usize) -> bool
    requires { used ≤ capacity }
    ensures { result ≡ not (nat_lt capacity (used + 1 + count)) }
{
    capacity - used > count
}

// Where the item of a row lies; a note has no place of its own.
fn place_of(row: Row) -> Option<Place>
    ensures { result ≡ (if is_note row.item then None else Some row.place) }
{
    (!row.item.is_note()).then_some(row.place)
}

impl Open {
    // What is refused of a feed, by the first test that fails.
    fn allow_within(&self, capacity: usize, item: Item, content: &[Item]) -> Result<(), Refusal>
        requires { self.now.rows ≤ capacity }
        ensures { result ≡ allowed (refusal_of capacity (is_closed self.now.phase) self.now.classes self.now.rows item content.now) }
    {
        let room = has_room(capacity, self.rows, content_of(item, content).len());
        ensure(!self.is_closed(), Cause::Closed)?;
        allow_item(&self.classes, item, content)?;
        ensure(room, Cause::Full)
    }

    // The same over the rows in use; where nothing is refused, there is room.
    fn allow(&self, tables: &Tables<'_>, item: Item, content: &[Item]) -> Result<(), Refusal>
        requires { self.now.rows ≤ length tables.now.rows.now }
        ensures refusal { let refusal = refusal_of (length tables.now.rows.now) (is_closed self.now.phase) self.now.classes (length (take self.now.rows tables.now.rows.now)) item content.now in MatchResult result (λ _. refusal ≡ None) (λ e. refusal ≡ Some e) }
        ensures room { IfOk result (λ _. self.now.rows + 1 + length (content_for item content.now) ≤ length tables.now.rows.now) }
    {
        self.allow_within(tables.rows.len(), item, content)
    }

    // An item, or a note with its content, that is not refused: its rows, and its number at the end of the contributions.
    fn enter(
        &mut self,
        number: u32,
        rows: &mut [Row],
        contributions: &mut [u32],
        item: Item,
        content: &[Item],
    )
        requires number { number ≡ self.old.rows + 1 }
        requires few { length rows.old ≤ 16384 }
        requires room { self.old.rows + 1 + length (content_for item content.now) ≤ length rows.old }
        requires waits { Within self.old.contributions contributions.old }
        requires owed { self.old.contributions.len < length contributions.old }
        ensures number { number ≡ length (take self.old.rows rows.old) + 1 }
        ensures fed { (page waiting shipped : List ℕ) (pages : List Page) (shelves : List (List Piece)) → book_of self.new (lent rows.new contributions.new page waiting shipped pages shelves) ≡ fed_book (book_of self.old (lent rows.old contributions.old page waiting shipped pages shelves)) item content.now }
        ensures rest { drop self.new.rows rows.new ≡ drop self.new.rows rows.old }
        ensures kept { (page waiting shipped : List ℕ) (pages : List Page) (shelves : List (List Piece)) → refusal (length rows.old) (book_of self.old (lent rows.old contributions.old page waiting shipped pages shelves)) item content.now ≡ None → Kept self.old (lent rows.old contributions.old page waiting shipped pages shelves) → Kept self.new (lent rows.new contributions.new page waiting shipped pages shelves) }
    {
        write_fed(rows, self.rows, item, content);
        self.contributions.push_back(contributions, number);
        self.rows += 1 + content_of(item, content).len();
    }

    // Feeds an item, or a note with its content, and answers its number. The two stay apart: of an item that is no note
    // content is not looked at.
    pub fn feed(
        &mut self,
        item: Item,
        content: &[Item],
        tables: &mut Tables<'_>,
        shelves: &[&mut [Piece]; 8],
    ) -> Result<u32, Refusal>
        requires kept { Kept self.old (contents_of tables.old shelves.now) }
        ensures kept { Kept self.new (contents_of tables.new shelves.now) }
        ensures answered { Fed (length tables.old.rows.now) (book_of self.old (contents_of tables.old shelves.now)) item content.now result (book_of self.new (contents_of tables.new shelves.now)) }
        ensures refused_untouched { is_ok result ≡ false → (self.new ≡ self.old) × (tables.new.rows.now ≡ tables.old.rows.now) × (tables.new.contributions.now ≡ tables.old.contributions.now) }
        ensures rows_behind_untouched { drop self.new.rows tables.new.rows.now ≡ drop self.new.rows tables.old.rows.now }
        ensures others_untouched { OthersUntouched tables.old tables.new }
        ensures lengths_kept { LengthsKept tables.old tables.new }
        ensures still_lent { StillLent tables.old tables.new }
    {
        self.allow(tables, item, content)?;
        let number = self.rows as u32 + 1;
        self.enter(number, tables.rows, tables.contributions, item, content);
        Ok(number)
    }

    fn is_closed(&self) -> bool
        ensures { result ≡ is_closed self.now.phase }
    {
        self.phase != Phase::Feeding
    }

    // Closes the book: nothing is fed any more.
    #[tactic(auto, using(crate::proofs::Closing::closed_is, crate::proofs::Closing::closed_kept))]
    pub fn close(&mut self) -> Result<(), Refusal>
        ensures answered { Closing self.old result self.new }
    {
        if self.is_closed() {
            return Err(Cause::Closed.into());
        }
        self.phase = Phase::Closed;
        Ok(())
    }

    // Where an item lies; none where no item has that number, or where it is a note's own. Over the rows alone: it asks
    // for no other table.
    pub fn place(&self, rows: &[Row], number: u32) -> Option<Place>
        ensures { result ≡ place_in (take self.now.rows rows.now) number }
    {
        let before = (number as usize).checked_sub(1)?;
        let row = rows[..self.rows.min(rows.len())].get(before)?;
        place_of(*row)
    }
}
