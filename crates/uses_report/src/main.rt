// Reads a book from the file that is named, or from standard input, and prints a page for support staff, or its refusal: for each listed definition,
// in the order of the list, its name and how many uses it has, as `"pair" 1`, and last their sum, as `total 2`. What is printed is proved; a read or
// a write that fails is told on standard error.
#![tactic(auto)]

ghost use Rattle.std.specs.Prelude.{◌≤◌, ◌<◌, ◌≡◌, ◌++◌, length};
ghost use Rattle.std.specs.List.{zip};
ghost use Rattle.format.specs.Within.{full};
ghost use Rattle.format.specs.Admission.{◌under◌};
ghost use Rattle.passed.specs.Checked.{book_of};
ghost use Rattle.print.specs.Laid.{Lays, LaysWithin};
ghost use Rattle.uses_report.specs.Printed.{line, lines, last_line, report, text_of, printed};
ghost use Rattle.uses_report.specs.Told.{ReportAs};

use book::admitted::AdmittedBook;
use book::tables::NameIndex;
use format::Limits;
use passed::CheckedBook;
use print::Text;
use refusals::UseCountsAnswer;
use stdio::Program;

// The line of a listed name.
fn line(name: &[u8], uses: u32, text: &mut Text)
    ensures { Lays (line name.now uses) text.old text.new }
{
    text.quoted(name);
    text.byte(b' ');
    text.decimal(uses as u64);
    text.byte(b'\n');
}

// The last line.
fn last_line(total: u64, text: &mut Text)
    ensures { Lays (last_line total) text.old text.new }
{
    text.bytes(b"total ");
    text.decimal(total);
    text.byte(b'\n');
}

// The lines of all listed names.
fn lines(names: &NameIndex, listed: &[u16], counts: &[u32], text: &mut Text)
    ensures { Lays (lines names.now.book.bytes.now (zip listed.now counts.now)) text.old text.new }
{
    for (name, uses) in listed.iter().zip(counts) {
        line(names.name(*name as usize), *uses, text);
    }
}

// All lines of what is listed.
fn page(book: AdmittedBook, listed: &[u16], counts: &[u32], total: u64, text: &mut Text)
    ensures { Lays (lines book.entry.bytes.now (zip listed.now counts.now) ++ last_line total) text.old text.new }
{
    lines(&NameIndex::of(book), listed, counts, text);
    last_line(total, text);
}

// The listed names of a book that passed, and how many uses each has.
fn report(book: &CheckedBook, names: &mut [u16], counts: &mut [u32]) -> UseCountsAnswer
    requires { (length names.old ≡ 512) × (length counts.old ≡ 512) }
    ensures { ReportAs (report (book_of book.now)) names.new counts.new result }
{
    book.list(names)?;
    book.use_counts(counts)
}

// All that is printed of a book that passed.
fn print_passed(book: &CheckedBook, text: &mut Text)
    ensures { LaysWithin 399360 (text_of book.now.book.bytes.now (report (book_of book.now))) text.old text.new }
{
    let mut names = [0; Limits::DEFINITIONS];
    let mut counts = [0; Limits::DEFINITIONS];
    match report(book, &mut names, &mut counts) {
        Ok(uses) => page(
            book.book,
            &names[..uses.listed],
            &counts[..uses.listed],
            uses.total,
            text,
        ),
        Err(why) => text.refusal(why, book.book.bytes),
    }
}

// All that is printed for the bytes of a book.
fn print_book(book: &[u8], text: &mut Text)
    ensures { LaysWithin 399360 (printed book.now) text.old text.new }
{
    match CheckedBook::pass(book, Limits::full()) {
        Ok(passed) => print_passed(&passed, text),
        Err(why) => text.refusal(why, book),
    }
}

// The same in a buffer, which has room for it.
fn print<'a>(book: &[u8], out: &'a mut [u8]) -> &'a [u8]
    requires { 399360 ≤ length out.old }
    ensures { (result.now ≡ printed book.now) × (length result.now < 399360) }
{
    let mut text = Text::new(out);
    print_book(book, &mut text);
    text.into_laid()
}

// More bytes than are ever printed: 512 lines have at most 777 each, and the last one 17.
const ROOM_FOR_PRINT: usize = 399360;

fn main(rt: HostRuntime) {
    let uses_report = Program {
        rt: &rt,
        name: b"uses_report",
    };
    let mut input = [0; Limits::ROOM];
    let Some(book) = uses_report.read(&mut input) else {
        return;
    };
    let mut out = [0; ROOM_FOR_PRINT];
    uses_report.write(print(book, &mut out));
}
