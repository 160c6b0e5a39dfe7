// The stages that a book goes through before it is asked anything, admitted and passed, and the questions on a book that passed, a module for
// each; the draft list's is on an admitted book. Who asks several questions of one book, as the program list does, lets it pass once.
#![tactic(auto)]

ghost use Rattle.passed.specs.Passes.{Passes};
ghost use Rattle.passed.specs.Props.{Passes-prop};

pub mod alias;
pub mod draft_list;
pub mod empty;
pub mod init_list;
pub mod list;
pub mod marks;
pub mod methods;
pub mod project;
pub mod use_counts;
pub mod uses;
pub mod values;

use book::admitted::AdmittedBook;
use format::Limits;
use refusals::Refusal;
use syntax::interface::Interface;
use typing::tables::Tables;

// A book that passed, with what its check found: how many definitions are not the init file's, what its actor offers, and the tables of its names.
// The first two are typing's `Passed` apart: no question hands both on together.
#[derive(Drop)]
pub struct CheckedBook<'b> {
    pub book: AdmittedBook<'b>,
    pub main: usize,
    pub interface: Interface,
    pub tables: Tables,
    pub ghost passes: { Passes book.bytes.now book.contents main interface tables } by { Passes-prop _ _ _ _ _ },
}

impl<'b> CheckedBook<'b> {
    ghost use Rattle.std.specs.Prelude.{◌≡◌, IfOk, IfErr};
    ghost use Rattle.format.specs.Forest.{end};
    ghost use Rattle.format.specs.Admission.{◌under◌};
    ghost use Rattle.judgement.specs.Resolve.{resolve_actor};
    ghost use Rattle.passed.specs.Checked.{book_of};
    ghost use Rattle.passed.specs.Stages.{PassAs};

    // Admits a book and checks it.
    pub fn pass(book: &'b [u8], limits: Limits) -> Result<CheckedBook<'b>, Refusal>
        ensures { PassAs (book.now under limits) result }
    {
        let admitted = admission::admit(book, limits)?;
        let mut tables = Tables::new();
        let found = typing::prog::check_prog(admitted, &mut tables)?;
        Ok(CheckedBook {
            book: admitted,
            main: found.main,
            interface: found.interface,
            tables,
        })
    }

    // What its actor offers; 17 where it has none.
    fn actor(&self) -> Result<&Interface, Refusal>
        ensures some { IfOk result (λ i. (i.now ≡ self.now.interface) × (resolve_actor (book_of self.now) ≡ end → ⊥)) }
        ensures none { IfErr result (λ why. (why ≡ Refusal.NoActor) × (resolve_actor (book_of self.now) ≡ end)) }
    {
        if self.interface.has_actor() {
            Ok(&self.interface)
        } else {
            Err(Refusal::NoActor)
        }
    }
}
