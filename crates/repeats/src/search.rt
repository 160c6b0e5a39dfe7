// The search for a repeat in a book that has a node with more than one child.
ghost use Rattle.std.specs.Prelude.{◌≡◌, true, ◌≤◌, ◌<◌, MatchOption};
ghost use Rattle.format.specs.Forest.{count};
ghost use Rattle.format.specs.Book.{trees};
ghost use Rattle.format.specs.Layout.{nodes_part, row_at, siblings, read};
ghost use Rattle.format.specs.Labels.{keys_of};
ghost use Rattle.repeats.specs.Found.{FoundAs, FirstBelow, NoneBelow};
ghost use Rattle.repeats.specs.Keys.{key_of, is_parent};
ghost use Rattle.repeats.specs.Steps.{LowerOf, Skipped};

use crate::is_parent;
use crate::names::Names;
use arrayvec::ArrayVec;
use book::kinds::Kind;
use book::read::Node;
use book::walks::Siblings;
use format::{Limits, Place};

// A book's names, and the keys of a node's children.
#[derive(Drop)]
pub struct Search<'a> {
    pub names: Names<'a>,
    pub keys: ArrayVec<u32, { Limits::NODES }>,
}

// The lower of two nodes, where there are any.
fn lower(a: Option<usize>, b: Option<usize>) -> Option<usize>
    ensures { LowerOf a b result }
{
    match (a, b) {
        (Some(a), Some(b)) => Some(a.min(b)),
        _ => a.or(b),
    }
}

impl Search<'_> {
    // Gathers the keys of these children, which stand at `place`.
    fn gather(&mut self, children: Siblings, place: Place)
        requires rows { children.rows.now ≡ nodes_part self.old.names.index.book.bytes.now }
        requires inside { children.until ≤ count (trees (read self.old.names.index.book.bytes.now)) }
        ensures same_book { self.new.names.index.book.bytes.now ≡ self.old.names.index.book.bytes.now }
        ensures keys { let bs = self.old.names.index.book.bytes.now in
            self.new.keys.items ≡ keys_of (key_of place (read bs).names) (siblings (nodes_part bs) children.entry.at children.entry.until) }
    {
        self.keys.clear();
        for (_, node) in children {
            let key = self.names.key(node, place);
            self.keys.push(key);
        }
    }

    // The first child of node i whose key an earlier one has.
    fn repeat_below(&mut self, i: usize) -> Option<usize>
        requires inside { i < count (trees (read self.old.names.index.book.bytes.now)) }
        requires parent { is_parent (row_at (nodes_part self.old.names.index.book.bytes.now) i) ≡ true }
        ensures same_book { self.new.names.index.book.bytes.now ≡ self.old.names.index.book.bytes.now }
        ensures found { let b = read self.old.names.index.book.bytes.now in
            MatchOption result (NoneBelow b i) (λ r. FirstBelow b i r) }
    {
        let rows = self.names.index.book.nodes();
        let node = Node::at(rows, i);
        let mut children = Siblings::new(rows, i + 1, i + node.size);
        self.gather(children, Kind::place_below(node.kind));
        let d = duplicates::first_duplicate(self.keys.as_slice())?;
        let (child, _) = children.nth(d)?;
        Some(child)
    }

    // The first repeat. A repeat stands after its parent, so what is at or after the lowest so far need not be looked at.
    pub fn run(&mut self, first: usize) -> Option<usize>
        requires { Skipped (nodes_part self.old.names.index.book.bytes.now) first }
        ensures { FoundAs (read self.old.names.index.book.bytes.now) result }
    {
        let rows = self.names.index.book.nodes();
        let mut lowest: Option<usize> = None;
        for i in first..self.names.index.book.contents.nodes {
            if lowest.is_some_and(|lowest| lowest <= i) {
                break;
            }
            if is_parent(Node::at(rows, i)) {
                lowest = lower(lowest, self.repeat_below(i));
            }
        }
        lowest
    }
}
