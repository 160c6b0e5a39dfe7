// The init check, and the definition list of init arguments: `chase_types`.
ghost use Rattle.std.specs.Prelude.{◌≡◌};
ghost use Rattle.refusals.specs.Handed.{HandedAs};
ghost use Rattle.judgement.specs.Check.{init_check};
ghost use Rattle.listing.specs.InitList.{init_list};

use crate::CheckedBook;
use book::read::Entry;
use environment::scope::BookScope;
use format::Limits;
use refusals::{Answer, Refusal, Verdict};
use typing::init::InitArgs;

impl CheckedBook<'_> {
    ghost use Rattle.book.specs.Tables.{blank_table};
    ghost use Rattle.typing.specs.Init.{InitFoundAs};
    ghost use Rattle.passed.specs.Checked.{book_of};

    // The init arguments; the table of the definitions that they see goes into `both`, which has nothing before.
    fn check_init_args(&self, both: &mut [u16]) -> Result<InitArgs, Refusal>
        requires { both.old ≡ blank_table }
        ensures { InitFoundAs self.now.passes.admitted both.new result }
    {
        typing::init::check_init_args(self.book, self.main, &self.tables.roots, both)
    }

    pub fn init_check(&self) -> Verdict
        ensures { result ≡ init_check (book_of self.now) }
    {
        let mut both = [Entry::NO_ROOT; Limits::NAMES];
        self.check_init_args(&mut both)?;
        Ok(())
    }

    pub fn init_list(&self, out: &mut [u16]) -> Answer
        ensures { HandedAs (init_list (book_of self.now)) out.old out.new result }
    {
        let mut both = [Entry::NO_ROOT; Limits::NAMES];
        let args = self.check_init_args(&mut both)?;
        let scope = BookScope::of(self.book, &both);
        let w = analysis::chase::chase_types(scope, args.from, args.until)?;
        refusals::hand(w.listed.as_slice(), out)
    }
}
