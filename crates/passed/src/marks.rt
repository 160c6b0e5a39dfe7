// The marks over a lent list of names: `infer_rec`.
ghost use Rattle.refusals.specs.Handed.{HandedAs};
ghost use Rattle.listing.specs.Marks.{marks_over};

use crate::CheckedBook;
use analysis::recursive::Marks;
use environment::scope::BookScope;
use refusals::Answer;

impl CheckedBook<'_> {
    ghost use Rattle.passed.specs.Checked.{book_of};

    pub fn marks(&self, list: &[u16], out: &mut [u16]) -> Answer
        ensures { HandedAs (marks_over (book_of self.now) list.now) out.old out.new result }
    {
        let scope = BookScope::of(self.book, &self.tables.roots);
        let marks = Marks::new().infer_rec(scope, list)?;
        let marked = analysis::hand::names_of(&marks.marked, self.book.contents.names);
        refusals::hand(marked.as_slice(), out)
    }
}
