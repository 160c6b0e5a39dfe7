// How long the alias chain of a name is. The table of alias ends has its length; the last name is found by going from name to name.
ghost use Rattle.std.specs.Prelude.{◌≡◌, List, ℕ};
ghost use Rattle.refusals.specs.Handed.{alias_answer};
ghost use Rattle.listing.specs.Alias.{last_of, alias};
ghost use Rattle.passed.specs.Alias.{Crossing};

use crate::CheckedBook;
use environment::scope::Scope;
use refusals::{AliasAnswer, Crossed, Refusal};

// The last of the `crossed` names that the chain of name n crosses.
fn last_crossed(scope: Scope, n: u16, crossed: u16) -> u16
    requires { (ms : List ℕ) × Crossing scope n crossed ms }
    ensures { (ms : List ℕ) → Crossing scope.entry n crossed ms → result ≡ last_of n ms }
{
    let mut last = n as usize;
    for k in 1..crossed {
        let Some(link) = scope.step(last) else {
            unreachable!();
        };
        let Some(next) = link.next else {
            unreachable!();
        };
        last = next;
    }
    last as u16
}

impl CheckedBook<'_> {
    ghost use Rattle.passed.specs.Checked.{book_of};

    pub fn alias(&self, name: u16) -> AliasAnswer
        ensures { result ≡ alias_answer (alias (book_of self.now) name) }
    {
        let n = name as usize;
        if environment::root_of(&self.tables.roots, n).is_none() {
            return Err(Refusal::Unbound(name));
        }
        let names = environment::names_crossed(&self.tables.ends, n);
        let scope = Scope::of(self.book, &self.tables.roots);
        let last = last_crossed(scope, name, names);
        Ok(Crossed { names, last })
    }
}
