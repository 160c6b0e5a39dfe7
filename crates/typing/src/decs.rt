// Definitions of a book, or of its init file: `check_decs` of typing.rs.
ghost use Rattle.std.specs.Prelude.{◌≤◌};

use crate::tables::Tables;
use crate::types::Walk;
use book::admitted::AdmittedBook;
use book::read::Node;
use book::walks::Entries;
use environment::scope::Scope;
use refusals::{Refusal, Verdict};

// The definitions of entries `from` up to `to`: they see each other and no others.
#[derive(Clone, Copy)]
pub(crate) struct Decs<'a> {
    pub(crate) book: AdmittedBook<'a>,
    pub(crate) from: usize,
    pub(crate) to: usize,
    ghost ordered: { from ≤ to },
    ghost within: { to ≤ book.contents.definitions },
}

impl<'a> Decs<'a> {
    ghost use Rattle.std.specs.Prelude.{◌≡◌};
    ghost use Rattle.judgement.specs.Check.{bodies_verdict, bodies_fit};
    ghost use Rattle.format.specs.Layout.{definitions_part};
    ghost use Rattle.book.specs.Tables.{zero_table};
    ghost use Rattle.book.specs.Walks.{OverEntries};
    ghost use Rattle.typing.specs.Tables.{IsBlank};
    ghost use Rattle.typing.specs.Decs.{definitions_of, Defined, EndsFound, EnteredOf, DecsOf};

    pub(crate) fn new(book: AdmittedBook<'a>, from: usize, to: usize) -> Decs<'a>
        requires ordered { from ≤ to }
        requires within { to ≤ book.contents.definitions }
        ensures book { result.book ≡ book.entry }
        ensures from { result.from ≡ from }
        ensures to { result.to ≡ to }
    {
        Decs { book, from, to }
    }

    fn entries(self) -> Entries<'a>
        ensures over { OverEntries (definitions_part self.entry.book.bytes.now) self.entry.to result }
        ensures at { result.at ≡ self.entry.from }
    {
        Entries::new(self.book.definitions(), self.from, self.to)
    }

    // 3 to 6: the bodies, in order, of definitions that are in the table. That they are (`Defined`) is no field:
    // it holds of tables that are lent, once the definitions are entered.
    fn check_bodies(self, roots: &[u16]) -> Verdict
        requires { Defined self roots.now }
        ensures { result ≡ bodies_verdict (definitions_of self.entry) (definitions_of self.entry) }
    {
        let walk = Walk::new(self.book, roots, None);
        for e in self.entries() {
            walk.check_type(e.root as usize)?;
        }
        Ok(())
    }

    // 8: whether each method in the bodies is a function.
    fn methods_fit(self, tables: &Tables) -> bool
        requires { Defined self tables.now.roots × EndsFound self tables.now.roots tables.now.ends }
        ensures { result ≡ bodies_fit (definitions_of self.entry) (definitions_of self.entry) }
    {
        let walk = Walk::new(self.book, &tables.roots, Some(&tables.ends));
        self.entries().all(|e| {
            let root = e.root as usize;
            let size = Node::at(walk.env.scope.rows, root).size;
            walk.services_fit(false, root, root + size)
        })
    }

    // 3 to 8, of definitions that are in the table of roots. Their alias ends go into one that has nothing.
    fn check_entered(self, tables: &mut Tables) -> Verdict
        requires defined { Defined self tables.old.roots }
        requires empty { tables.old.ends ≡ zero_table }
        ensures { EnteredOf self.entry result tables.new.roots tables.new.ends }
    {
        self.check_bodies(&tables.roots)?;
        let scope = Scope::of(self.book, &tables.roots);
        scope.find_ends(self.to - self.from, &mut tables.ends)?;
        if self.methods_fit(tables) {
            Ok(())
        } else {
            Err(Refusal::NoFunction)
        }
    }

    // 2 to 8, into tables that have nothing, and have nothing again where the definitions are refused.
    pub(crate) fn check(self, tables: &mut Tables) -> Verdict
        requires { IsBlank tables.old }
        ensures { DecsOf self.entry result tables.new }
    {
        environment::enter(self.book, self.from, self.to, &mut tables.roots)?;
        let checked = self.check_entered(tables);
        if checked.is_err() {
            *tables = Tables::new();
        }
        checked
    }
}
