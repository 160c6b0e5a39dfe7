// Emptiness by values.
ghost use Rattle.refusals.specs.Handed.{HandedAs};
ghost use Rattle.listing.specs.Empty.{emptiness};

use crate::CheckedBook;
use environment::scope::Scope;
use refusals::Answer;

impl CheckedBook<'_> {
    ghost use Rattle.passed.specs.Checked.{book_of};

    pub fn emptiness(&self, out: &mut [u16]) -> Answer
        ensures { HandedAs (emptiness (book_of self.now)) out.old out.new result }
    {
        let flags = inhabitants::empty::empty_names(Scope::of(self.book, &self.tables.roots));
        let empty = analysis::hand::names_of(&flags, self.book.contents.names);
        refusals::hand(empty.as_slice(), out)
    }
}
