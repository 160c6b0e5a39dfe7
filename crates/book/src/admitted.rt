// A book that was admitted, as the crates above take it: its bytes with its table of contents, in place of the two beside each other.
ghost use Rattle.std.specs.Prelude.{◌≡◌, Some};
ghost use Rattle.book.specs.Reading.{reading};
ghost use Rattle.std.proofs.Props.{props};

use crate::kinds::Contents;

// The bytes of a book, and the table of contents that `layout` finds in them.
#[derive(Clone, Copy)]
pub struct AdmittedBook<'a> {
    pub bytes: &'a [u8],
    pub contents: Contents,
    pub ghost laid: { Some contents ≡ reading bytes.now } by { Prim.hlevel props },
}

impl<'a> AdmittedBook<'a> {
    ghost use Rattle.format.specs.Layout.{names_part, nodes_part, definitions_part, files_part};
    ghost use Rattle.book.specs.Reading.{Admitted};

    // For who has the two beside each other.
    pub fn new(bytes: &'a [u8], contents: Contents) -> AdmittedBook<'a>
        requires { Admitted bytes.now contents }
        ensures bytes { result.bytes ≡ bytes.entry }
        ensures contents { result.contents ≡ contents }
    {
        AdmittedBook { bytes, contents }
    }

    // The names' part of the book; then its nodes', definitions' and files'.
    pub fn names(self) -> &'a [u8]
        ensures { result.now ≡ names_part self.entry.bytes.now }
    {
        &self.bytes[Contents::SIZE..self.contents.nodes_at]
    }

    pub fn nodes(self) -> &'a [u8]
        ensures { result.now ≡ nodes_part self.entry.bytes.now }
    {
        &self.bytes[self.contents.nodes_at..self.contents.definitions_at]
    }

    pub fn definitions(self) -> &'a [u8]
        ensures { result.now ≡ definitions_part self.entry.bytes.now }
    {
        &self.bytes[self.contents.definitions_at..self.contents.files_at]
    }

    pub fn files(self) -> &'a [u8]
        ensures { result.now ≡ files_part self.entry.bytes.now }
    {
        &self.bytes[self.contents.files_at..]
    }
}
