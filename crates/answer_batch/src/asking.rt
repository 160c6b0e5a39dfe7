// How a question is asked and its answer printed and counted.
ghost use Rattle.std.specs.Prelude.{◌≤◌, length};

use crate::lines::Lines;
use crate::tally::{Given, Tally};
use format::Limits;
use refusals::{Answer, Count, Refusal, Verdict};

// More numbers than any question but uses is answered with, and 4,096 uses; more of these are refused with 16.
pub(crate) const ROOM: usize = 12288;

// The questions whose answers are lists, with what they are asked with. A new one is a variant with its arms, a place in the tally with its
// word, and the line that asks it. An alias chain and a number of values are no lists, and a uses report has wider numbers: they are asked on their
// own.
#[derive(Clone, Copy)]
pub(crate) enum Question<'a> {
    MainList,
    Marks(&'a [u16]),
    InitList,
    DraftList,
    Emptiness,
    Uses(u16),
    Projection(&'a [u16]),
    Methods(&'a [u16]),
}

impl Question<'_> {
    fn reply(self, book: &[u8], limits: Limits, out: &mut [u16]) -> Answer {
        match self {
            Question::MainList => questions::list(book, limits, out),
            Question::Marks(list) => questions::marks(book, limits, list, out),
            Question::InitList => questions::init_list(book, limits, out),
            Question::DraftList => questions::draft_list(book, limits, out),
            Question::Emptiness => questions::emptiness(book, limits, out),
            Question::Uses(name) => questions::uses(book, limits, name, out),
            Question::Projection(names) => questions::project(book, limits, names, out),
            Question::Methods(names) => questions::methods(book, limits, names, out),
        }
    }

    fn given(self) -> Given {
        match self {
            Question::MainList => Given::List,
            Question::Marks(_) => Given::Marks,
            Question::InitList => Given::InitList,
            Question::DraftList => Given::DraftList,
            Question::Emptiness => Given::Emptiness,
            Question::Uses(_) => Given::Uses,
            Question::Projection(_) => Given::Projection,
            Question::Methods(_) => Given::Methods,
        }
    }

    // The numbers that an entry takes in the lent list.
    fn width(self) -> usize {
        match self {
            Question::Uses(_) => 3,
            _ => 1,
        }
    }

    // An answer's numbers: a use is three with points between, and others are names but for positions of methods.
    fn print(self, lines: Lines, book: &[u8], numbers: &[u16]) {
        for (i, number) in numbers.iter().enumerate() {
            match self {
                Question::Uses(_) if i % 3 != 0 => lines.count(b".", *number as usize),
                Question::Uses(_) | Question::Projection(_) | Question::Methods(_) => {
                    lines.count(b" ", *number as usize)
                }
                _ => lines.name(b" ", book::name(book, *number), b""),
            }
        }
        lines.write(b"\n");
    }
}

// A book that is asked under these limits, by its source's name, and where the answers go.
// A word, the name that it is about and a question are handed over apart: in one value they would be put together at each call to be taken apart at
// once.
#[derive(Drop)]
pub(crate) struct Asking<'a> {
    pub(crate) lines: Lines<'a>,
    pub(crate) source: &'a [u8],
    pub(crate) book: &'a [u8],
    pub(crate) limits: Limits,
    pub(crate) tally: &'a mut Tally,
}

impl Asking<'_> {
    // The beginning of a line: the source, the question's word with what is added to it, and the name that it is about.
    fn begin(&self, word: &[u8], more: &[u8], about: Option<u16>) {
        self.lines.words(&[self.source, b" ", word, more, b" "]);
        if let Some(number) = about {
            self.lines.name(b"", book::name(self.book, number), b" ");
        }
    }

    // The beginning of the line of a question that is about no name.
    pub(crate) fn begin_word(&self, word: &[u8]) {
        self.begin(word, b"", None);
    }

    pub(crate) fn refuse(&mut self, why: Refusal) {
        self.lines.refusal(why, self.book);
        self.tally.refuse(why);
    }

    pub(crate) fn judge(&mut self, word: &[u8], what: Given, found: Verdict) {
        self.begin_word(word);
        match found {
            Ok(()) => {
                self.lines.write(b"passed\n");
                self.tally.give(what);
            }
            Err(why) => self.refuse(why),
        }
    }

    // The alias chain from a number, by this word: the names that it crosses and the last of them.
    pub(crate) fn ask_alias(&mut self, word: &[u8], about: Option<u16>, number: u16) {
        self.begin(word, b"", about);
        match questions::alias(self.book, self.limits, number) {
            Err(why) => self.refuse(why),
            Ok(found) => {
                self.lines.count(b"given ", found.names as usize);
                self.lines
                    .name(b" ", book::name(self.book, found.last), b"\n");
                self.tally.give_entries(Given::Alias, found.names as usize);
            }
        }
    }

    // How many values the definition of a number that is no name's has, by this word.
    pub(crate) fn ask_count(&mut self, word: &[u8], number: u16) {
        self.begin_word(word);
        match questions::values(self.book, self.limits, number) {
            Err(why) => self.refuse(why),
            Ok(count) => {
                self.lines.write(b"given");
                self.print_count(count);
                self.lines.write(b"\n");
                self.tally.give(Given::Values);
            }
        }
    }

    pub(crate) fn print_count(&self, found: Count) {
        match found {
            Count::Exactly(number) => self.lines.count(b" ", number as usize),
            Count::Many => self.lines.write(b" many"),
        }
    }

    // How many uses each listed definition has, and all together; then, where any is listed, once more with one place less.
    pub(crate) fn ask_use_counts(&mut self) {
        let mut out = [0; Limits::DEFINITIONS];
        self.begin_word(b"use-counts");
        let found = match questions::use_counts(self.book, self.limits, &mut out) {
            Err(why) => return self.refuse(why),
            Ok(found) => found,
        };
        let counts = out.get(..found.listed).unwrap_or(&[]);
        self.lines.count(b"given ", found.listed);
        for count in counts {
            self.lines.count(b" ", *count as usize);
        }
        self.lines.count(b" total ", found.total as usize);
        self.lines.write(b"\n");
        self.tally.give_entries(Given::UseCounts, found.listed);
        let Some(places) = counts.len().checked_sub(1) else {
            return;
        };
        self.begin(b"use-counts", b"-short", None);
        match questions::use_counts(self.book, self.limits, &mut out[..places]) {
            Err(why) => self.refuse_short(why),
            Ok(found) => self.lines.count(b"given ", found.listed),
        }
    }

    // What a list too short is refused with, after the entries needed.
    fn refuse_short(&mut self, why: Refusal) {
        self.lines.count(b"needs ", why.needed() as usize);
        self.lines.write(b" ");
        self.refuse(why);
    }

    // Asks a question into a lent list. Answers the numbers that were given.
    fn ask_into<'o>(
        &mut self,
        word: &[u8],
        about: Option<u16>,
        question: Question,
        out: &'o mut [u16],
    ) -> &'o [u16]
        ensures { length result.now ≤ length out.old }
    {
        self.begin(word, b"", about);
        match question.reply(self.book, self.limits, out) {
            Err(why) => {
                self.refuse(why);
                &[]
            }
            Ok(entries) => {
                let numbers = entries.saturating_mul(question.width());
                let given = out.get(..numbers).unwrap_or(&[]);
                self.lines.count(b"given ", entries);
                question.print(self.lines, self.book, given);
                self.tally.give_entries(question.given(), entries);
                given
            }
        }
    }

    // Asks a question by this word. Answers how many numbers were given.
    pub(crate) fn ask(&mut self, word: &[u8], about: Option<u16>, question: Question) -> usize {
        let mut out = [0; ROOM];
        self.ask_into(word, about, question, &mut out).len()
    }

    // Marks over a list.
    pub(crate) fn ask_marks(&mut self, word: &[u8], list: &[u16]) {
        self.ask(word, None, Question::Marks(list));
    }

    // The methods projected for names. Answers how many there are.
    pub(crate) fn project(&mut self, word: &[u8], about: Option<u16>, names: &[u16]) -> usize {
        self.ask(word, about, Question::Projection(names))
    }

    // The methods that change with names.
    pub(crate) fn ask_methods(&mut self, word: &[u8], names: &[u16]) {
        self.ask(word, None, Question::Methods(names));
    }

    // Asks a question into a lent list and, where there are entries, once more with one place less, after the entries needed. Answers the numbers
    // that were given first.
    pub(crate) fn ask_both<'o>(
        &mut self,
        word: &[u8],
        about: Option<u16>,
        question: Question,
        out: &'o mut [u16],
    ) -> &'o [u16] {
        let end = self.ask_into(word, about, question, out).len();
        let Some(places) = end.checked_sub(question.width()) else {
            return &[];
        };
        self.begin(word, b"-short", about);
        match question.reply(self.book, self.limits, &mut out[..places]) {
            Err(why) => self.refuse_short(why),
            Ok(entries) => self.lines.count(b"given ", entries),
        }
        &out[..end]
    }

    // The same where the numbers themselves are not asked for.
    pub(crate) fn ask_again(&mut self, word: &[u8], about: Option<u16>, question: Question) {
        let mut out = [0; ROOM];
        self.ask_both(word, about, question, &mut out);
    }
}
