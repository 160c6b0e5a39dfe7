// The check of init arguments: `check_init_args` of typing.rs, of a book that passed. Three steps: the init file's own definitions, the merge
// with main's, and the arguments under both.
ghost use Rattle.std.specs.Prelude.{◌≡◌, List, ℕ, ◌+◌, ◌≤◌, ◌<◌, length};
ghost use Rattle.format.specs.Book.{Definition};
ghost use Rattle.book.specs.Tables.{blank_table};
ghost use Rattle.environment.specs.Tables.{Roots, definitions_in};
ghost use Rattle.book.specs.Reading.{EntryWithin, Admitted};
ghost use Rattle.typing.specs.Init.{lacked, OwnDecsAs, OwnPassed, MergeAs, Merged, Seen, ArgumentsFound, InitSeenAs, InitFoundAs};
ghost use Rattle.typing.specs.Tables.{IsBlank};
ghost use Rattle.typing.specs.Passing.{PassedMain};

use crate::decs::Decs;
use crate::tables::Tables;
use crate::types::Walk;
use book::admitted::AdmittedBook;
use book::read::{Entry, Node};
use book::walks::Entries;
use environment::chain_end;
use environment::scope::Scope;
use format::Limits;
use refusals::{Refusal, Verdict};

// What is found of init arguments beside the table of the definitions that they see: how many those are, which no code reads, and the range of the
// arguments' nodes, which the init list goes through. Without an init file the definitions are main's, and the range is empty.
#[derive(Clone, Copy, PartialEq, Eq, Debug)]
pub struct InitArgs {
    pub count: usize,
    pub from: usize,
    pub until: usize,
}

// Each of the steps below has the book beside the tables that it reads, `own`, main's or both: no two read the same.

// The init file's own definitions, which are those of the entries from `main` on: they do not see main's. Their tables go into `own`, which
// have nothing before, and nothing where they are refused.
fn check_own(book: AdmittedBook, main: usize, own: &mut Tables) -> Verdict
    requires within { main ≤ book.contents.definitions }
    requires empty { IsBlank own.old }
    ensures { OwnDecsAs book.entry.bytes.now book.entry.contents main own.new.roots result }
{
    Decs::new(book, main, book.contents.definitions).check(own)
}

// 11: the init file's definitions against main's.
fn merge(book: AdmittedBook, own: &[u16], roots: &[u16]) -> Verdict
    requires first { Roots own.now book.contents.nodes }
    requires second { Roots roots.now book.contents.nodes }
    ensures { (a : Admitted book.entry.bytes.now book.entry.contents) → MergeAs a own.now roots.now result }
{
    let names = book.contents.names;
    let hashes = book::tables::name_hashes(book);
    environment::merge::merge(book.nodes(), &hashes, own, roots, names)
}

// How many definitions the init file's `count` and main's make together: a name that both define counts once.
fn merged_count(entries: &[u8], init: &[u16], count: usize, main: usize) -> usize
    requires { EntryWithin entries.now main × (count ≤ 512) }
    ensures { (ns : List ℕ) → result ≡ count + length (lacked init.now (definitions_in ns entries.now 0 main)) }
{
    count
        + Entries::new(entries, 0, main)
            .filter(|e| environment::root_of(init, e.name as usize).is_none())
            .count()
}

// The arguments, which are the children of node `root`, where `count` definitions have the table `both`.
fn check_arguments(
    book: AdmittedBook,
    both: &[u16],
    count: usize,
    root: usize,
) -> Result<InitArgs, Refusal>
    requires table { Roots both.now book.contents.nodes }
    requires inside { root < book.contents.nodes }
    requires seen { (ds : List Definition) × Seen book.bytes.now book.contents both.now count ds }
    ensures { (ds : List Definition) → Seen book.entry.bytes.now book.entry.contents both.now count ds → ArgumentsFound book.entry.bytes.now count root ds result }
{
    let scope = Scope::of(book, both);
    let mut ends = [chain_end::NONE; Limits::NAMES];
    scope.find_ends(count, &mut ends)?;
    let from = root + 1;
    let until = root + Node::at(scope.rows, root).size;
    Walk::new(book, both, Some(&ends)).check_types(false, from, until)?;
    Ok(InitArgs { count, from, until })
}

// The arguments of file `init` under the definitions of both, whose table is `both`.
fn check_seen(
    book: AdmittedBook,
    main: usize,
    own: &[u16],
    init: usize,
    both: &[u16],
) -> Result<InitArgs, Refusal>
    requires { (roots : List ℕ) × (x : PassedMain book.bytes.now book.contents roots main) × OwnPassed x.book.admitted own.now init main × Merged x.book.admitted own.now roots both.now }
    ensures { (roots : List ℕ) (x : PassedMain book.entry.bytes.now book.entry.contents roots main) → OwnPassed x.book.admitted own.now init main →
        Merged x.book.admitted own.now roots both.now → InitSeenAs x.book.admitted both.now result }
{
    let own_count = book.contents.definitions - main;
    let count = merged_count(book.definitions(), own, own_count, main);
    let e = Entry::at(book.files(), init);
    check_arguments(book, both, count, e.root as usize)
}

// The init arguments of a book that passed: refusals 2 to 9 and 11. The table of the definitions that they see goes into `both`, which has
// nothing before, and nothing where they are refused. Without an init file the arguments, which are none, see main's definitions. `roots` and `both`
// are no `Tables`: main's alias ends are not read here, and those of both `check_arguments` finds and reads alone.
pub fn check_init_args(
    book: AdmittedBook,
    main: usize,
    roots: &[u16],
    both: &mut [u16],
) -> Result<InitArgs, Refusal>
    requires { PassedMain book.bytes.now book.contents roots.now main × (both.old ≡ blank_table) }
    ensures { (x : PassedMain book.entry.bytes.now book.entry.contents roots.now main) → InitFoundAs x.book.admitted both.new result }
{
    let init = syntax::files::init_file(book);
    let mut own = Tables::new();
    if init == book.contents.files {
        environment::merge::merged(&own.roots, roots, both);
        return Ok(InitArgs {
            count: book.contents.definitions,
            from: 0,
            until: 0,
        });
    }
    check_own(book, main, &mut own)?;
    merge(book, &own.roots, roots)?;
    environment::merge::merged(&own.roots, roots, both);
    let args = check_seen(book, main, &own.roots, init, both);
    if args.is_err() {
        both.fill(Entry::NO_ROOT);
    }
    args
}
