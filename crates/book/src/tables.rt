// Tables by name number, which there are 1,024 of: the label numbers of all names, and where each begins.
ghost use Rattle.std.specs.Prelude.{◌≡◌, length};
ghost use Rattle.format.specs.Layout.{read, name_in, names_of};
ghost use Rattle.book.specs.Tables.{NamesIn, HashesOf, PlacesOf};

use crate::admitted::AdmittedBook;
use crate::kinds::Contents;
use crate::read;
use crate::walks::Names;
use format::Limits;

// A number for each of the 1,024 names: where it begins, or a link, one more than a place, 0 for none: an Option would take twice the memory, of
// which there is a fixed amount.
pub type ByName = [u16; Limits::NAMES];

// A flag for each of the 1,024 names: 1 where it is set. A byte and no `bool`, which would ask more of who calls `analysis::names_of`: it takes any.
pub type Flags = [u8; Limits::NAMES];

// A label number for each of the 1,024 names.
pub type HashByName = [u32; Limits::NAMES];

// The label number of each name of a book. Beyond the names it has 0.
pub fn name_hashes(book: AdmittedBook) -> HashByName
    ensures { HashesOf result (read book.entry.bytes.now).names }
{
    hashes_of(book.names(), book.contents.names)
}

// The label number of each of the `count` names that bytes are, in one pass over them. The bytes may be of no book; `count` is a number of the
// contract.
pub fn hashes_of(names: &[u8], count: usize) -> HashByName
    requires { NamesIn names.now count }
    ensures { HashesOf result (names_of (length names.now) names.now) }
{
    let mut hashes = [0; Limits::NAMES];
    for (n, name) in (Names { rest: names }).enumerate() {
        hashes[n] = labels::idl_hash(name);
    }
    hashes
}

// Where each name of a book begins in it, by its length byte, in one pass over the names. Beyond the names it has 0.
pub fn name_places(book: AdmittedBook) -> ByName
    ensures { PlacesOf book.entry.bytes.now book.entry.contents.names result }
{
    let mut places = [0; Limits::NAMES];
    let mut at = Contents::SIZE;
    let names = Names { rest: book.names() };
    for (n, name) in names.enumerate() {
        places[n] = at as u16;
        at += 1 + name.len();
    }
    places
}

// A book and where each of its names begins: for who asks for many of them, since `book::name` reads the layout anew for each.
#[derive(Drop)]
pub struct NameIndex<'a> {
    pub book: AdmittedBook<'a>,
    places: ByName,
    ghost placed: { PlacesOf book.bytes.now book.contents.names places },
}

impl<'a> NameIndex<'a> {
    pub fn of(book: AdmittedBook<'a>) -> NameIndex<'a>
        ensures { result.book ≡ book.entry }
    {
        NameIndex {
            book,
            places: name_places(book),
        }
    }

    // The bytes of a name; an empty part for a number outside the table of names, as `book::name` has it.
    pub fn name(&self, number: usize) -> &'a [u8]
        ensures { result.now ≡ name_in self.now.book.bytes.now number }
    {
        if number < self.book.contents.names {
            read::name_from(self.book.bytes, self.places[number] as usize)
        } else {
            &[]
        }
    }
}
