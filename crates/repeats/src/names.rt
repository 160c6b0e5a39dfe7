// A book's names by number, and the label numbers of those that were asked for.
ghost use Rattle.std.specs.Prelude.{◌≡◌, ◌<◌, length};
ghost use Rattle.labels.specs.Number.{label_number};
ghost use Rattle.format.specs.Layout.{node_of, read, name_in};
ghost use Rattle.format.specs.Whole.{RowFits};
ghost use Rattle.book.specs.Reading.{as_row};
ghost use Rattle.repeats.specs.Keys.{key_of};
ghost use Rattle.repeats.specs.Steps.{Hashed};

use book::read::Node;
use book::tables::NameIndex;
use format::{Limits, Place};
use labels::LabelKind;

#[derive(Drop)]
pub struct Names<'a> {
    pub index: NameIndex<'a>,
    pub hashes: [Option<u32>; Limits::NAMES],
    ghost hashed: { Hashed index.book.bytes.now hashes },
}

impl Names<'_> {
    // The label number of name n, hashed when it is first asked for. That the book stays is said of each change, here and in Search: a field can't say
    // what a change leaves.
    fn hash(&mut self, n: usize) -> u32
        requires { n < 1024 }
        ensures same_book { self.new.index.book.bytes.now ≡ self.old.index.book.bytes.now }
        ensures hash { result ≡ label_number (name_in self.old.index.book.bytes.now n) }
    {
        if let Some(hash) = self.hashes[n] {
            return hash;
        }
        let hash = labels::idl_hash(self.index.name(n));
        self.hashes[n] = Some(hash);
        hash
    }

    // What a child is compared by: a field by its label's number, a method by its name.
    pub fn key(&mut self, node: Node, place: Place) -> u32
        requires { RowFits (length (read self.old.index.book.bytes.now).names) (as_row node) }
        ensures same_book { self.new.index.book.bytes.now ≡ self.old.index.book.bytes.now }
        ensures key { result ≡ key_of place (read self.old.index.book.bytes.now).names (node_of (as_row node)).label }
    {
        if place == Place::Field && node.label_kind == LabelKind::Named as u8 {
            self.hash(node.label as usize)
        } else {
            node.label
        }
    }
}
