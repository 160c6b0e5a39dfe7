// The check of a whole book: `check_prog` of typing.rs on the definitions of all files but the init file, and on the resolved actor. What it
// hands on of a book that passed is how many definitions are not the init file's, the interface of its actor, and its lent tables.
ghost use Rattle.book.specs.Reading.{Admitted};
ghost use Rattle.syntax.specs.Files.{FilesPassed};
ghost use Rattle.typing.specs.Tables.{IsBlank};
ghost use Rattle.typing.specs.Passing.{DecsPassed, ActorFoundAs, FoundAs};

use crate::decs::Decs;
use crate::tables::Tables;
use crate::types::Walk;
use book::admitted::AdmittedBook;
use refusals::Refusal;
use syntax::files::Files;
use syntax::interface::Interface;

// A book that passed, beside its tables of roots and of alias ends.
#[derive(Clone, Copy)]
pub struct Passed {
    pub main: usize,
    pub interface: Interface,
}

// The actor of a book whose `main` definitions passed: it is resolved (3, 10, 13, 14), and then walked.
fn check_resolved(
    book: AdmittedBook,
    files: Files,
    main: usize,
    tables: &Tables,
) -> Result<Passed, Refusal>
    requires { (a : Admitted book.bytes.now book.contents) × FilesPassed book.bytes.now book.contents files × DecsPassed a main tables.now }
    ensures { (a : Admitted book.entry.bytes.now book.entry.contents) → FilesPassed book.entry.bytes.now book.entry.contents files →
        DecsPassed a main tables.now → ActorFoundAs a tables.now.roots tables.now.ends result }
{
    let interface = syntax::actor::resolve_actor(book, files, main, &tables.roots, &tables.ends)?;
    let walk = Walk::new(book, &tables.roots, Some(&tables.ends));
    walk.check_actor(&interface)?;
    Ok(Passed { main, interface })
}

// The check of an admitted book, into tables that have nothing: refusals 2 to 10 and 12 to 14, the first in the order of the check. A refusal leaves
// the tables with nothing, as they were lent.
pub fn check_prog(book: AdmittedBook, tables: &mut Tables) -> Result<Passed, Refusal>
    requires { IsBlank tables.old }
    ensures { (a : Admitted book.entry.bytes.now book.entry.contents) → FoundAs a tables.new result }
{
    let files = syntax::files::read_files(book)?;
    let count = book.contents.definitions;
    let main = syntax::files::main_definitions(book.definitions(), count, files.init);
    Decs::new(book, 0, main).check(tables)?;
    let found = check_resolved(book, files, main, tables);
    if found.is_err() {
        *tables = Tables::new();
    }
    found
}
