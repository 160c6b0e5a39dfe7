// What programs in other languages link: `#[unsafe(no_mangle)] pub extern "C"` functions over byte slices, with numbers for limits and answers. Each
// promises the number (`answer`), that the arithmetic of include/ludzepin.h gives back from it what is said (`read`), and the lent list (`left`).
// The C interface asks for it: limits in three numbers, one number for an answer, names by number, and a list whose entries the answer counts.
#![tactic(auto)]

ghost use Rattle.std.specs.Prelude.{◌≡◌};
ghost use Rattle.format.specs.Admission.{◌under◌, on_bytes};
ghost use Rattle.judgement.specs.Check.{check_bytes, init_check_bytes};
ghost use Rattle.listing.specs.List.{list};
ghost use Rattle.listing.specs.InitList.{init_list};
ghost use Rattle.listing.specs.DraftList.{draft_list};
ghost use Rattle.listing.specs.Marks.{marks_over};
ghost use Rattle.listing.specs.Uses.{uses};
ghost use Rattle.listing.specs.UseCounts.{use_counts};
ghost use Rattle.listing.specs.Methods.{methods};
ghost use Rattle.listing.specs.Alias.{alias};
ghost use Rattle.listing.specs.Project.{project};
ghost use Rattle.listing.specs.Empty.{emptiness};
ghost use Rattle.listing.specs.Values.{values};
ghost use Rattle.refusals.specs.Handed.{alias_answer, count_answer};
ghost use Rattle.codes.specs.Coded.{coded, coded_alias, coded_count, ReadVerdict, ReadAlias, ReadCount};
ghost use Rattle.exports.specs.Handed.{limits_of, CodedAs, UsesCodedAs, UseCountsCodedAs};

use format::Limits;

// Limits as C hands them over, which are three numbers in include/ludzepin.h.
fn limits_of(names: u32, nodes: u32, definitions: u32) -> Limits
    ensures { result ≡ limits_of names nodes definitions }
{
    Limits {
        names,
        nodes,
        definitions,
    }
}

// The check of a book.
#[unsafe(no_mangle)]
pub extern "C" fn ludzepin_check(book: &[u8], names: u32, nodes: u32, definitions: u32) -> u32
    ensures answer { result ≡ coded (check_bytes (book.now under limits_of names nodes definitions)) }
    ensures read { ReadVerdict (check_bytes (book.now under limits_of names nodes definitions)) result }
{
    let limits = limits_of(names, nodes, definitions);
    codes::code(questions::check(book, limits))
}

// The init check of a book.
#[unsafe(no_mangle)]
pub extern "C" fn ludzepin_init_check(book: &[u8], names: u32, nodes: u32, definitions: u32) -> u32
    ensures answer { result ≡ coded (init_check_bytes (book.now under limits_of names nodes definitions)) }
    ensures read { ReadVerdict (init_check_bytes (book.now under limits_of names nodes definitions)) result }
{
    let limits = limits_of(names, nodes, definitions);
    codes::code(questions::init_check(book, limits))
}

// The definition list of a book, into a lent list of name numbers; 512 places are always enough.
#[unsafe(no_mangle)]
pub extern "C" fn ludzepin_list(
    book: &[u8],
    names: u32,
    nodes: u32,
    definitions: u32,
    out: &mut [u16],
) -> u32
    ensures { CodedAs (on_bytes list (book.now under limits_of names nodes definitions)) out.old out.new result }
{
    let limits = limits_of(names, nodes, definitions);
    codes::answer_code(questions::list(book, limits, out))
}

// The definition list of its init arguments; 512 places are always enough.
#[unsafe(no_mangle)]
pub extern "C" fn ludzepin_init_list(
    book: &[u8],
    names: u32,
    nodes: u32,
    definitions: u32,
    out: &mut [u16],
) -> u32
    ensures { CodedAs (on_bytes init_list (book.now under limits_of names nodes definitions)) out.old out.new result }
{
    let limits = limits_of(names, nodes, definitions);
    codes::answer_code(questions::init_list(book, limits, out))
}

// The definition list of a draft; 512 places are always enough.
#[unsafe(no_mangle)]
pub extern "C" fn ludzepin_draft_list(
    book: &[u8],
    names: u32,
    nodes: u32,
    definitions: u32,
    out: &mut [u16],
) -> u32
    ensures { CodedAs (on_bytes draft_list (book.now under limits_of names nodes definitions)) out.old out.new result }
{
    let limits = limits_of(names, nodes, definitions);
    codes::answer_code(questions::draft_list(book, limits, out))
}

// The names to be marked where these definitions are laid out in this order; 512 places are always enough.
#[unsafe(no_mangle)]
pub extern "C" fn ludzepin_marks(
    book: &[u8],
    names: u32,
    nodes: u32,
    definitions: u32,
    list: &[u16],
    out: &mut [u16],
) -> u32
    ensures { CodedAs (on_bytes (λ b. marks_over b list.now) (book.now under limits_of names nodes definitions)) out.old out.new result }
{
    let limits = limits_of(names, nodes, definitions);
    codes::answer_code(questions::marks(book, limits, list, out))
}

// The names that are empty; 512 places are always enough.
#[unsafe(no_mangle)]
pub extern "C" fn ludzepin_emptiness(
    book: &[u8],
    names: u32,
    nodes: u32,
    definitions: u32,
    out: &mut [u16],
) -> u32
    ensures { CodedAs (on_bytes emptiness (book.now under limits_of names nodes definitions)) out.old out.new result }
{
    let limits = limits_of(names, nodes, definitions);
    codes::answer_code(questions::emptiness(book, limits, out))
}

// The positions of the asked methods; 4,096 places are always enough.
#[unsafe(no_mangle)]
pub extern "C" fn ludzepin_project(
    book: &[u8],
    names: u32,
    nodes: u32,
    definitions: u32,
    asked: &[u16],
    out: &mut [u16],
) -> u32
    ensures { CodedAs (on_bytes (λ b. project b asked.now) (book.now under limits_of names nodes definitions)) out.old out.new result }
{
    let limits = limits_of(names, nodes, definitions);
    codes::answer_code(questions::project(book, limits, asked, out))
}

// The positions of the methods with a use of any of these names; 4,096 places are always enough.
#[unsafe(no_mangle)]
pub extern "C" fn ludzepin_methods(
    book: &[u8],
    names: u32,
    nodes: u32,
    definitions: u32,
    asked: &[u16],
    out: &mut [u16],
) -> u32
    ensures { CodedAs (on_bytes (λ b. methods b asked.now) (book.now under limits_of names nodes definitions)) out.old out.new result }
{
    let limits = limits_of(names, nodes, definitions);
    codes::answer_code(questions::methods(book, limits, asked, out))
}

// The uses of a name, three numbers for each entry; the answer counts entries.
#[unsafe(no_mangle)]
pub extern "C" fn ludzepin_uses(
    book: &[u8],
    names: u32,
    nodes: u32,
    definitions: u32,
    name: u16,
    out: &mut [u16],
) -> u64
    ensures { UsesCodedAs (on_bytes (λ b. uses b name) (book.now under limits_of names nodes definitions)) out.old out.new result }
{
    let limits = limits_of(names, nodes, definitions);
    codes::uses_code(questions::uses(book, limits, name, out))
}

// How many uses each listed definition has, in the order of the list; 512 places are always enough.
#[unsafe(no_mangle)]
pub extern "C" fn ludzepin_use_counts(
    book: &[u8],
    names: u32,
    nodes: u32,
    definitions: u32,
    out: &mut [u32],
) -> u64
    ensures { UseCountsCodedAs (on_bytes use_counts (book.now under limits_of names nodes definitions)) out.old out.new result }
{
    let limits = limits_of(names, nodes, definitions);
    codes::use_counts_code(questions::use_counts(book, limits, out))
}

// How many names the alias chain of a name crosses, and the last of these.
#[unsafe(no_mangle)]
pub extern "C" fn ludzepin_alias(
    book: &[u8],
    names: u32,
    nodes: u32,
    definitions: u32,
    name: u16,
) -> u64
    ensures answer { result ≡ coded_alias (alias_answer (on_bytes (λ b. alias b name) (book.now under limits_of names nodes definitions))) }
    ensures read { ReadAlias (alias_answer (on_bytes (λ b. alias b name) (book.now under limits_of names nodes definitions))) result }
{
    let limits = limits_of(names, nodes, definitions);
    codes::alias_code(questions::alias(book, limits, name))
}

// How many values the definition of a name has.
#[unsafe(no_mangle)]
pub extern "C" fn ludzepin_values(
    book: &[u8],
    names: u32,
    nodes: u32,
    definitions: u32,
    name: u16,
) -> u64
    ensures answer { result ≡ coded_count (count_answer (on_bytes (λ b. values b name) (book.now under limits_of names nodes definitions))) }
    ensures read { ReadCount (count_answer (on_bytes (λ b. values b name) (book.now under limits_of names nodes definitions))) result }
{
    let limits = limits_of(names, nodes, definitions);
    codes::count_code(questions::values(book, limits, name))
}
