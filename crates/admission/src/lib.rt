// What every question starts with: bytes that nobody vouches for are admitted as a book, or refused (format, specs/Admission.antt).
#![tactic(auto)]

ghost use Rattle.std.specs.Prelude.{◌≡◌, IfOk};
ghost use Rattle.std.specs.Result.{result_map_both};
ghost use Rattle.format.specs.Admission.{◌under◌, admitted};
ghost use Rattle.admission.specs.Admitting.{admission_of};

use book::admitted::AdmittedBook;
use format::Limits;
use refusals::Refusal;

// Admits a book: one whose layout is not broken (1), that is within the limits (24), and in which no label is repeated (18). None has more than
// document 01's figures, so a larger limit takes as much as the figure.
pub fn admit<'a>(book: &'a [u8], limits: Limits) -> Result<AdmittedBook<'a>, Refusal>
    ensures answer { result_map_both (λ b. b.contents) (λ why. why) result ≡ admission_of (admitted (book.entry.now under limits)) }
    ensures bytes { IfOk result (λ b. b.bytes ≡ book.entry) }
{
    let contents = book::layout(book).ok_or(Refusal::Broken)?;
    let size = Limits {
        names: contents.names as u32,
        nodes: contents.nodes as u32,
        definitions: contents.definitions as u32,
    };
    if !size.within(limits) {
        return Err(Refusal::OverLimit);
    }
    let admitted = AdmittedBook::new(book, contents);
    repeats::check_labels(admitted)?;
    Ok(admitted)
}
