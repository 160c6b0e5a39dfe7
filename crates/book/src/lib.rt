// The declaration book, read from bytes that nobody vouches for: `layout` decides whether they are a book, and `name` hands out a name.
// What a book is, is defined in the crate `format`.
#![tactic(auto)]

ghost use Rattle.std.specs.Prelude.{◌≡◌};
ghost use Rattle.book.specs.Reading.{reading};
ghost use Rattle.format.specs.Layout.{name_in};
ghost use Rattle.book.specs.Steps.{ContentsAs};

pub mod admitted;
pub mod kinds;
pub mod read;
mod rules;
pub mod tables;
pub mod walks;

use crate::admitted::AdmittedBook;
use crate::kinds::Contents;
use crate::read::{Entry, Node};
use crate::walks::Siblings;
use format::{Limits, Place};

// The table of contents, where it keeps the rules of its own: offsets without gaps that end the book, and the limits.
fn contents(book: &[u8]) -> Option<Contents>
    ensures { ContentsAs book.now result }
{
    if book.len() < Contents::SIZE || Limits::BYTES < book.len() {
        return None;
    }
    let c = Contents {
        names: read::word(book, 4) as usize,
        nodes_at: read::word(book, 8) as usize,
        nodes: read::word(book, 12) as usize,
        definitions_at: read::word(book, 16) as usize,
        definitions: read::word(book, 20) as usize,
        files_at: read::word(book, 24) as usize,
        files: read::word(book, 28) as usize,
    };
    let kept = read::word(book, 0) as usize == Contents::SIZE
        && c.names <= Limits::NAMES
        && Contents::SIZE <= c.nodes_at
        && c.nodes <= Limits::NODES
        && c.definitions_at == c.nodes_at + Node::SIZE * c.nodes
        && c.definitions <= Limits::DEFINITIONS
        && c.files_at == c.definitions_at + Entry::SIZE * c.definitions
        && c.files != 0
        && c.files <= Limits::FILES
        && book.len() == c.files_at + Entry::SIZE * c.files;
    if kept { Some(c) } else { None }
}

// Whether the bytes are a book, and where its parts lie. One pass over names, nodes, definitions and files.
pub fn layout(book: &[u8]) -> Option<Contents>
    ensures { result ≡ reading book.now }
{
    let c = contents(book)?;
    if !rules::names_fine(&book[Contents::SIZE..c.nodes_at], c.names) {
        return None;
    }
    let rows = &book[c.nodes_at..c.definitions_at];
    let _ = rules::trees(rows, c.names, Place::Root, 0, c.nodes)?;
    let trees = Siblings::new(rows, 0, c.nodes);
    let left = c.all_definitions(&book[c.definitions_at..c.files_at], trees)?;
    if !c.all_files(&book[c.files_at..], left) {
        return None;
    }
    Some(c)
}

// The bytes of a name, as a part of the book; an empty part for a broken book or a number outside the table of names, which is what the
// documents ask of this question, so that it answers no Option.
pub fn name(book: &[u8], number: u16) -> &[u8]
    ensures { result.now ≡ name_in book.now number }
{
    match layout(book) {
        Some(c) if (number as usize) < c.names => {
            read::name_at(AdmittedBook::new(book, c).names(), number as usize)
        }
        _ => &book[0..0],
    }
}
