// Reads a book from the file that is named, or from standard input, and prints its definition list with the names marked that have to be boxed,
// or its refusal. What is printed is proved; a read or a write that fails is told on standard error.
#![tactic(auto)]

ghost use Rattle.std.specs.Prelude.{◌≤◌, ◌<◌, ◌≡◌, length};
ghost use Rattle.refusals.specs.Outcome.{given};
ghost use Rattle.format.specs.Within.{full};
ghost use Rattle.format.specs.Admission.{◌under◌};
ghost use Rattle.passed.specs.Stages.{BookPassed};
ghost use Rattle.print.specs.Laid.{Lays, LaysWithin};
ghost use Rattle.list.specs.Printed.{heading, mark_of, line, lines, marked_text, printed, Prints};

use book::admitted::AdmittedBook;
use book::tables::NameIndex;
use format::Limits;
use passed::CheckedBook;
use print::Text;
use refusals::Verdict;
use stdio::Program;

// The first line.
fn heading(listed: usize, marked: usize, text: &mut Text)
    ensures { Lays (heading listed marked) text.old text.new }
{
    text.bytes(b"list ");
    text.decimal(listed as u64);
    text.bytes(b" marked ");
    text.decimal(marked as u64);
    text.byte(b'\n');
}

// The mark of a name.
fn mark_of(name: u16, marked: &[u16]) -> u8
    ensures { result ≡ mark_of marked.now name }
{
    if marked.contains(&name) { b'r' } else { b'-' }
}

// The line of a listed name.
fn line(position: usize, mark: u8, name: &[u8], text: &mut Text)
    ensures { Lays (line position mark name.now) text.old text.new }
{
    text.decimal(position as u64);
    text.byte(b' ');
    text.byte(mark);
    text.byte(b' ');
    text.quoted(name);
    text.byte(b'\n');
}

// The lines of all listed names.
fn lines(names: &NameIndex, listed: &[u16], marked: &[u16], text: &mut Text)
    ensures { Lays (lines names.now.book.bytes.now marked.now 1 listed.now) text.old text.new }
{
    for (i, name) in listed.iter().enumerate() {
        let bytes = names.name(*name as usize);
        line(i + 1, mark_of(*name, marked), bytes, text);
    }
}

// What is printed where both questions are answered.
fn table(book: AdmittedBook, listed: &[u16], marked: &[u16], text: &mut Text)
    ensures { Lays (marked_text book.entry.bytes.now listed.now (given marked.now)) text.old text.new }
{
    heading(listed.len(), marked.len(), text);
    lines(&NameIndex::of(book), listed, marked, text);
}

// Prints what both questions on a book that passed are answered; a refusal is handed on, and nothing is laid then.
fn print_passed(book: &CheckedBook, text: &mut Text) -> Verdict
    requires { BookPassed (book.now.book.bytes.now under full) book.now }
    ensures { Prints book.now.book.bytes.now text.old text.new result }
{
    let mut list_room = [0; Limits::DEFINITIONS];
    let count = book.list(&mut list_room)?;
    let listed = &list_room[..count];
    let mut marks_room = [0; Limits::NAMES];
    let count = book.marks(listed, &mut marks_room)?;
    table(book.book, listed, &marks_room[..count], text);
    Ok(())
}

// The same of any bytes, which are admitted and checked once for both questions. The `?` is written out: the borrow checker has no rule yet for one
// on a `CheckedBook`, which holds references, facts and a list with a model.
fn print_answers(book: &[u8], text: &mut Text) -> Verdict
    ensures { Prints book.now text.old text.new result }
{
    match CheckedBook::pass(book, Limits::full()) {
        Ok(passed) => print_passed(&passed, text),
        Err(why) => Err(why),
    }
}

// All that is printed for the bytes of a book.
fn print_book(book: &[u8], text: &mut Text)
    ensures { LaysWithin 409600 (printed book.now) text.old text.new }
{
    if let Err(why) = print_answers(book, text) {
        text.refusal(why, book);
    }
}

// The same in a buffer, which has room for it.
fn print<'a>(book: &[u8], out: &'a mut [u8]) -> &'a [u8]
    requires { 409600 ≤ length out.old }
    ensures { (result.now ≡ printed book.now) × (length result.now < 409600) }
{
    let mut text = Text::new(out);
    print_book(book, &mut text);
    text.into_laid()
}

// More bytes than are ever printed.
const ROOM_FOR_PRINT: usize = 409600;

fn main(rt: HostRuntime) {
    let list = Program {
        rt: &rt,
        name: b"list",
    };
    let mut input = [0; Limits::ROOM];
    let Some(book) = list.read(&mut input) else {
        return;
    };
    let mut out = [0; ROOM_FOR_PRINT];
    list.write(print(book, &mut out));
}
