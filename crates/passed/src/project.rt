// The projection to asked methods: `project_methods`.
ghost use Rattle.refusals.specs.Handed.{HandedAs};
ghost use Rattle.listing.specs.Project.{project};

use crate::CheckedBook;
use refusals::Answer;

impl CheckedBook<'_> {
    ghost use Rattle.passed.specs.Checked.{book_of};

    pub fn project(&self, asked: &[u16], out: &mut [u16]) -> Answer
        ensures { HandedAs (project (book_of self.now) asked.now) out.old out.new result }
    {
        let actor = self.actor()?;
        analysis::project::project(self.book.nodes(), actor.services.as_slice(), asked, out)
    }
}
