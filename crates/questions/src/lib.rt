// The questions of documents 01 and 02 on a book of bytes, under the limits of a terminal model. An entry point is admission, the check (for init
// arguments the init check) and the question on the book that passed, which has a module of its own; an accepted question gives the number of
// its entries, which stand at the front of the lent list, and a refusal leaves the list as it was. An alias chain and a count
// are no lists, and are given as they are.
// Book and limits are two parameters, as C and the programs have them: a struct of both would be put together for one call.
#![tactic(auto)]

ghost use Rattle.std.specs.Prelude.{◌≡◌};
ghost use Rattle.refusals.specs.Handed.{HandedAs, UsesAs, UseCountsAs, alias_answer, count_answer};
ghost use Rattle.format.specs.Admission.{◌under◌, on_bytes};
ghost use Rattle.judgement.specs.Check.{check_bytes, init_check_bytes};
ghost use Rattle.listing.specs.List.{list};
ghost use Rattle.listing.specs.InitList.{init_list};
ghost use Rattle.listing.specs.DraftList.{draft_list};
ghost use Rattle.listing.specs.Marks.{marks_over};
ghost use Rattle.listing.specs.Uses.{uses};
ghost use Rattle.listing.specs.UseCounts.{use_counts};
ghost use Rattle.listing.specs.Methods.{methods};
ghost use Rattle.listing.specs.Alias.{alias};
ghost use Rattle.listing.specs.Project.{project};
ghost use Rattle.listing.specs.Empty.{emptiness};
ghost use Rattle.listing.specs.Values.{values};

use format::Limits;
use passed::CheckedBook;
use refusals::{AliasAnswer, Answer, CountAnswer, UseCountsAnswer, Verdict};

// `CheckedBook::pass(book, limits)?`, written out: the borrow checker has no rule yet for a `?` on a `CheckedBook`, which holds references, facts and
// a list with a model.
macro_rules! pass {
    ($book:expr, $limits:expr) => {
        match CheckedBook::pass($book, $limits) {
            Ok(passed) => passed,
            Err(why) => return Err(why),
        }
    };
}

// Whether a book passes: refusals 1, 24, 18, 2 to 10 and 12 to 14, the first in the order of the check.
pub fn check(book: &[u8], limits: Limits) -> Verdict
    ensures { result ≡ check_bytes (book.now under limits) }
{
    pass!(book, limits);
    Ok(())
}

// Whether a book and its init arguments pass: refusals 1, 24, 18, 2 to 14, those of the check first. A book without an init file passes with its check.
pub fn init_check(book: &[u8], limits: Limits) -> Verdict
    ensures { result ≡ init_check_bytes (book.now under limits) }
{
    pass!(book, limits).init_check()
}

// The definitions that the actor leads to, left to right, each after those first met inside it: the check's refusals, 17 and 16.
pub fn list(book: &[u8], limits: Limits, out: &mut [u16]) -> Answer
    ensures { HandedAs (on_bytes list (book.now under limits)) out.old out.new result }
{
    pass!(book, limits).list(out)
}

// The definitions that the init arguments lead to, main's and their own: the refusals of the init check, and 16. Nothing is listed where
// there is no init file.
pub fn init_list(book: &[u8], limits: Limits, out: &mut [u16]) -> Answer
    ensures { HandedAs (on_bytes init_list (book.now under limits)) out.old out.new result }
{
    pass!(book, limits).init_list(out)
}

// The list of a draft: 1, 24, 18, 17, 2, 3 and 16.
pub fn draft_list(book: &[u8], limits: Limits, out: &mut [u16]) -> Answer
    ensures { HandedAs (on_bytes draft_list (book.now under limits)) out.old out.new result }
{
    let admitted = admission::admit(book, limits)?;
    passed::draft_list::draft_list_admitted(admitted, out)
}

// The names that have to be boxed where these definitions are laid out in this order, ascending: the check's refusals, 3 for the first
// listed name that has no definition, and 16. No actor is needed.
pub fn marks(book: &[u8], limits: Limits, list: &[u16], out: &mut [u16]) -> Answer
    ensures { HandedAs (on_bytes (λ b. marks_over b list.now) (book.now under limits)) out.old out.new result }
{
    pass!(book, limits).marks(list, out)
}

// The arguments and results from which a name is reached, an entry of three numbers for each: a method's position, or 65,535 for an argument
// of the actor's class; 0 for an argument and 1 for a result; an index. The check's refusals, 17, and 16, which counts entries.
pub fn uses(book: &[u8], limits: Limits, name: u16, out: &mut [u16]) -> Answer
    ensures { UsesAs (on_bytes (λ b. uses b name) (book.now under limits)) out.old out.new result }
{
    pass!(book, limits).uses(name, out)
}

// How many uses each listed definition has, in the order of the list, and their sum: the refusals of the list. 16 counts definitions.
pub fn use_counts(book: &[u8], limits: Limits, out: &mut [u32]) -> UseCountsAnswer
    ensures { UseCountsAs (on_bytes use_counts (book.now under limits)) out.old out.new result }
{
    pass!(book, limits).use_counts(out)
}

// How many names the alias chain of a name crosses, itself among them, and the last of these, whose definition is no name: the check's refusals,
// and 3 for a name that has no definition. No actor is needed.
pub fn alias(book: &[u8], limits: Limits, name: u16) -> AliasAnswer
    ensures { result ≡ alias_answer (on_bytes (λ b. alias b name) (book.now under limits)) }
{
    pass!(book, limits).alias(name)
}

// The positions of the methods that take the asked names, ascending; a name that is asked twice needs two methods: the check's refusals,
// 17, 15 for the lowest name left over, and 16.
pub fn project(book: &[u8], limits: Limits, asked: &[u16], out: &mut [u16]) -> Answer
    ensures { HandedAs (on_bytes (λ b. project b asked.now) (book.now under limits)) out.old out.new result }
{
    pass!(book, limits).project(asked, out)
}

// The positions of the methods with a use of any of these names, ascending, each once: the check's refusals, 17 and 16. Repeats, names without uses
// and numbers that are no name's add nothing.
pub fn methods(book: &[u8], limits: Limits, asked: &[u16], out: &mut [u16]) -> Answer
    ensures { HandedAs (on_bytes (λ b. methods b asked.now) (book.now under limits)) out.old out.new result }
{
    pass!(book, limits).methods(asked, out)
}

// The names that are empty, whose definition has no value of finite height, ascending: the check's refusals and 16. No actor is needed.
pub fn emptiness(book: &[u8], limits: Limits, out: &mut [u16]) -> Answer
    ensures { HandedAs (on_bytes emptiness (book.now under limits)) out.old out.new result }
{
    pass!(book, limits).emptiness(out)
}

// How many values of finite height the definition of a name has, many from 4,294,967,296 on: the check's refusals, and 3 for a name that has no
// definition. No actor is needed.
pub fn values(book: &[u8], limits: Limits, name: u16) -> CountAnswer
    ensures { result ≡ count_answer (on_bytes (λ b. values b name) (book.now under limits)) }
{
    pass!(book, limits).values(name)
}
