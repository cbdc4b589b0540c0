// Reads a box list and prints, for each note in it, how it would fall into columns of its class's limit.
#![tactic(auto)]

mod galley;
mod show;

use book::Tables;
use book::making::eight;
use boxlist::faults::{Fault, LONGEST, length_fault};
use calls::Page;
use galley::{Head, feed_all};
use items::{Item, Piece, Row};
use std::io;
use std::io::Read;

// One byte more than the longest text shows that a text is too long.
const BUFFER: usize = LONGEST + 1;

// The most items and notes that a box list may have, and so the most columns of a note.
pub const MOST: usize = 256;

// Reads to the input's end, which a read of no bytes tells, or as much as fits.
fn read_text<'a>(input: &mut impl Read, buffer: &'a mut [u8]) -> io::Result<&'a [u8]> {
    let mut len = 0;
    while len < buffer.len() {
        let more = input.read(&mut buffer[len..])?;
        if more == 0 {
            break;
        }
        len += more;
    }
    Ok(&buffer[..len])
}

// Feeds a text to a book over the rows.
fn fill(
    text: &[u8],
    head: Head,
    content: &mut [Item],
    rows: &mut [Row; MOST],
) -> Result<(), Fault> {
    let [mut a, mut b, mut c, mut d, mut e, mut f, mut g, mut h] = [[Piece::default(); MOST]; 8];
    let shelves = eight(
        &mut a[..],
        &mut b[..],
        &mut c[..],
        &mut d[..],
        &mut e[..],
        &mut f[..],
        &mut g[..],
        &mut h[..],
    );
    let mut tables = Tables {
        rows,
        contributions: &mut [0; MOST],
        page: &mut [0; MOST],
        waiting: &mut [0; MOST],
        shipped: &mut [0; MOST],
        pages: &mut [Page::default(); MOST],
    };
    feed_all(text, head, content, &mut tables, &shelves)
}

fn main(rt: HostRuntime) -> io::Result<()> {
    let mut buffer = [0; BUFFER];
    let text = read_text(&mut rt.stdin(), &mut buffer)?;
    if let Some(fault) = length_fault(text.len()) {
        return println!(rt; "{fault}");
    }
    let nothing = Item::Penalty { value: 0 };
    let mut content = [nothing; LONGEST];
    let mut rows = [Row::fed(nothing, None); MOST];
    let head = Head::of(text, &mut content);
    match fill(text, head, &mut content, &mut rows) {
        Ok(()) => show::notes(&rt, &head.classes, &rows),
        Err(fault) => println!(rt; "{fault}"),
    }
}
