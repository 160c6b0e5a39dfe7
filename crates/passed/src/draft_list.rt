// The definition list of a draft: main's own definitions and main's tree as written, unchecked.
ghost use Rattle.refusals.specs.Handed.{HandedAs};
ghost use Rattle.format.specs.Layout.{definitions_part};
ghost use Rattle.book.specs.Reading.{Admitted};
ghost use Rattle.listing.specs.DraftList.{draft_list};
ghost use Rattle.passed.specs.Drafts.{OwnAs, MainWritten};

use book::admitted::AdmittedBook;
use book::read::{Entry, Node};
use book::walks::Entries;
use environment::scope::BookScope;
use format::Limits;
use refusals::{Answer, Refusal};

// How many of the definitions are the main file's own: they come first. syntax's main_definitions differs in the test, and one function of a test for
// both would be `take_while` and `count` again.
fn own_definitions(book: AdmittedBook) -> usize
    ensures { OwnAs (definitions_part book.entry.bytes.now) book.entry.contents.definitions result }
{
    Entries::new(book.definitions(), 0, book.contents.definitions)
        .take_while(|e| e.owner == 0)
        .count()
}

// Main's tree as written stands at this root.
fn draft_list_written(book: AdmittedBook, root: usize, out: &mut [u16]) -> Answer
    requires { MainWritten book.bytes.now root }
    ensures { (a : Admitted book.entry.bytes.now book.entry.contents) → HandedAs (draft_list a.book) out.old out.new result }
{
    let own = own_definitions(book);
    let mut roots = [Entry::NO_ROOT; Limits::NAMES];
    environment::enter(book, 0, own, &mut roots)?;
    let scope = BookScope::of(book, &roots);
    let t = Node::at(scope.scope.rows, root);
    let w = analysis::chase::chase_types(scope, root, root + t.size)?;
    refusals::hand(w.listed.as_slice(), out)
}

// Of an admitted book.
pub fn draft_list_admitted(book: AdmittedBook, out: &mut [u16]) -> Answer
    ensures { (a : Admitted book.entry.bytes.now book.entry.contents) → HandedAs (draft_list a.book) out.old out.new result }
{
    let main = Entry::at(book.files(), 0);
    let root = main.tree().ok_or(Refusal::NoActor)?;
    draft_list_written(book, root, out)
}
