// The files of a book, walked once: which are service imports (12), and which has the init arguments.
ghost use Rattle.std.specs.Prelude.{◌≡◌};
ghost use Rattle.format.specs.Layout.{files_part};
ghost use Rattle.book.specs.Reading.{EntryWithin};
ghost use Rattle.syntax.specs.Files.{init_at, SplitAs, ImportsAs, FilesAs};

use crate::by_file::ByFile;
use book::admitted::AdmittedBook;
use book::kinds::Role;
use book::read::Entry;
use book::walks::Entries;
use refusals::Refusal;

// What is found of the files: the root of main's actor, where it has one; the numbers of the service imports in order; and how many
// files come before the init file, which is the last: all where there is none, so that what comes before it needs no case.
// No book in it, with what passed as a fact: the three functions that ask for that have the book anyway, and Files would take its lifetime.
#[derive(Clone, Copy)]
pub struct Files {
    pub root: Option<usize>,
    pub imports: ByFile,
    pub init: usize,
}

// The service imports. 12: one has no actor.
fn list_imports(book: AdmittedBook) -> Result<ByFile, Refusal>
    ensures { ImportsAs (files_part book.entry.bytes.now) book.entry.contents.files result }
{
    let mut imports = ByFile::new();
    for (f, e) in Entries::new(book.files(), 0, book.contents.files).enumerate() {
        if e.owner == Role::ServiceImport as u16 {
            e.tree().ok_or(Refusal::ImportWithoutActor(e.name))?;
            imports.push(f as u16);
        }
    }
    Ok(imports)
}

// How many files come before the init file, which is its number: only the last file can be one.
#[tactic(auto, unfolding(crate::specs::Files::init_at))]
pub fn init_file(book: AdmittedBook) -> usize
    ensures { result ≡ init_at (files_part book.entry.bytes.now) book.entry.contents.files }
{
    let count = book.contents.files;
    let last = count - 1;
    let e = Entry::at(book.files(), last);
    if e.owner == Role::Init as u16 {
        last
    } else {
        count
    }
}

// What is found of the files of a book; 12.
pub fn read_files(book: AdmittedBook) -> Result<Files, Refusal>
    ensures { FilesAs book.entry.bytes.now book.entry.contents result }
{
    let main = Entry::at(book.files(), 0);
    let imports = list_imports(book)?;
    let init = init_file(book);
    Ok(Files {
        root: main.tree(),
        imports,
        init,
    })
}

// How many of the definitions come before the first that file `init` has: its own come last, and a number that no file has leaves all. The entries may
// be of no book, so that a book in their place would ask more.
pub fn main_definitions(entries: &[u8], count: usize, init: usize) -> usize
    requires { EntryWithin entries.now count }
    ensures { SplitAs entries.now count init result }
{
    Entries::new(entries, 0, count)
        .take_while(|e| e.owner as usize != init)
        .count()
}
