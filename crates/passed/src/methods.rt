// The methods that change with some definitions: those with a use of any asked name. There may be as many asked as there are numbers, and each as
// often: all are looked for at once.
ghost use Rattle.std.specs.Prelude.{◌≡◌};
ghost use Rattle.refusals.specs.Handed.{HandedAs};
ghost use Rattle.listing.specs.Methods.{methods, offered_names};

use crate::CheckedBook;
use analysis::def_use::Searched;
use analysis::methods::OfMethods;
use analysis::reaching::Near;
use format::Limits;
use refusals::Answer;

impl CheckedBook<'_> {
    ghost use Rattle.passed.specs.Checked.{book_of};

    pub fn methods(&self, asked: &[u16], out: &mut [u16]) -> Answer
        ensures { HandedAs (methods (book_of self.now) asked.now) out.old out.new result }
    {
        let actor = self.actor()?;
        let mut near: Near = [0; Limits::NODES + 1];
        analysis::reaching::find_nearest(self.book, self.main, asked, &mut near);
        let searched = Searched {
            rows: self.book.nodes(),
            ends: &self.tables.ends,
            near: &near,
        };
        let positions = searched.methods(actor);
        refusals::hand(positions.as_slice(), out)
    }

    // The names of the actor's methods, by their positions; none where there is no actor.
    pub fn method_names(&self) -> OfMethods
        ensures { result.items ≡ offered_names (book_of self.now) }
    {
        match self.actor() {
            Ok(actor) => {
                analysis::methods::method_names(self.book.nodes(), actor.services.as_slice())
            }
            Err(_) => OfMethods::new(),
        }
    }
}
