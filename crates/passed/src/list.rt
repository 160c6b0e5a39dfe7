// The definition list: `chase_actor`.
ghost use Rattle.refusals.specs.Handed.{HandedAs};
ghost use Rattle.listing.specs.List.{list};

use crate::CheckedBook;
use environment::scope::BookScope;
use refusals::Answer;

impl CheckedBook<'_> {
    ghost use Rattle.passed.specs.Checked.{book_of};

    pub fn list(&self, out: &mut [u16]) -> Answer
        ensures { HandedAs (list (book_of self.now)) out.old out.new result }
    {
        let actor = self.actor()?;
        let scope = BookScope::of(self.book, &self.tables.roots);
        let w = analysis::chase::chase_actor(scope, *actor)?;
        refusals::hand(w.listed.as_slice(), out)
    }
}
