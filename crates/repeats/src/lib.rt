// The first repeated label of a book whose layout is whole (document 02, request 1).
// Only a record, variant or service of more than two nodes can have two children: a book without one makes no table. Names are hashed when a
// field asks, and once.
#![tactic(auto)]

ghost use Rattle.std.specs.Prelude.{◌≡◌, ◌<◌, MatchOption};
ghost use Rattle.format.specs.Book.{Book};
ghost use Rattle.format.specs.Layout.{read, whole, layout};
ghost use Rattle.format.specs.Whole.{Within};
ghost use Rattle.format.specs.Repeats.{labels_verdict};
ghost use Rattle.book.specs.Reading.{as_row};
ghost use Rattle.repeats.specs.Found.{FoundAs};
ghost use Rattle.repeats.specs.Keys.{is_parent};
ghost use Rattle.repeats.specs.Steps.{Skipped};

mod names;
mod search;

use crate::names::Names;
use crate::search::Search;
use arrayvec::ArrayVec;
use book::admitted::AdmittedBook;
use book::kinds::Kind;
use book::read::Node;
use book::tables::NameIndex;
use format::{Limits, Place};
use labels::LabelKind;
use refusals::{Refusal, Verdict};

// Whether two children of a node may have one label: it is a record, variant or service of more than two nodes.
#[tactic(auto, unfolding(crate::specs::Keys::is_parent, crate::specs::Keys::labels_below, format::specs::Rules::below_kind))]
fn is_parent(node: Node) -> bool
    ensures { result ≡ is_parent (as_row node) }
{
    2 < node.size && Kind::place_below(node.kind) != Place::Inner
}

// The first such node.
fn first_parent(rows: &[u8], nodes: usize) -> Option<usize>
    requires { Within rows.now nodes }
    ensures { MatchOption result (Skipped rows.now nodes) (λ r. (r < nodes) × Skipped rows.now r) }
{
    (0..nodes).find(|i| is_parent(Node::at(rows, *i)))
}

// The node of the book's first repeated label.
fn first_repeat(book: AdmittedBook) -> Option<usize>
    ensures { FoundAs (read book.entry.bytes.now) result }
{
    let first = first_parent(book.nodes(), book.contents.nodes)?;
    let mut search = Search {
        names: Names {
            index: NameIndex::of(book),
            hashes: [None; Limits::NAMES],
        },
        keys: ArrayVec::new(),
    };
    search.run(first)
}

// 18: the book's first repeat, by the name of its label if that is spelled.
pub fn check_labels(book: AdmittedBook) -> Verdict
    ensures { (b : Book) → layout book.entry.bytes.now ≡ whole b → result ≡ labels_verdict b }
{
    let Some(repeat) = first_repeat(book) else {
        return Ok(());
    };
    let node = Node::at(book.nodes(), repeat);
    if node.label_kind == LabelKind::Named as u8 {
        return Err(Refusal::Repeated(node.label as u16));
    }
    Err(Refusal::Repeated(Refusal::NO_NAME))
}
