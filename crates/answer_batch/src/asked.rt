// What a book is asked.
use crate::asking::{Asking, Question, ROOM};
use crate::tally::Given;
use arrayvec::ArrayVec;
use format::Limits;
use refusals::{Count, Refusal};

// Name numbers to ask with: at most as many as a book has names, and none of what is beyond.
type Numbers = ArrayVec<u16, { Limits::NAMES }>;

// As many names with how many values each has, None where that was refused.
type Counted = ArrayVec<(u16, Option<Count>), { Limits::NAMES }>;

// The first and the last number outside every table.
const OUTSIDE: u16 = 1024;

const HIGHEST: u16 = 65535;

// A book is asked about all its names, but one with more than MOST_NAMES of which none is listed about the first and the last ones alone, since
// none has uses there.
const MOST_NAMES: u16 = 514;

const FIRST_AND_LAST: u16 = 8;

// The numbers of a list, the last first.
fn turned(numbers: &[u16]) -> Numbers {
    let mut back = Numbers::try_from(numbers).unwrap_or_default();
    back.reverse();
    back
}

// The numbers of a book's names that are wanted.
fn numbers_where<F: FnMut(u16) -> bool>(names: u16, mut is_wanted: F) -> Numbers
    requires pre { (f : _) (x : _) → F.pre f x }
{
    let mut numbers = Numbers::new();
    let _ = numbers.extend((0..names).filter(|number| is_wanted(*number)));
    numbers
}

impl Asking<'_> {
    // Every question of a book under these limits, a line for each. Broken books have no names.
    pub(crate) fn replay(&mut self) {
        let names = self.ask_layout();
        self.ask_name(names);
        let checked = questions::check(self.book, self.limits);
        self.judge(b"check", Given::Check, checked);
        let init_checked = questions::init_check(self.book, self.limits);
        self.judge(b"init-check", Given::InitCheck, init_checked);
        let listed = self.ask_list();
        self.ask_again(b"init", None, Question::InitList);
        self.ask_again(b"draft", None, Question::DraftList);
        self.ask_again(b"empty", None, Question::Emptiness);
        self.ask_values(names);
        self.ask_use_counts();
        self.ask_each_for_methods(names);
        self.ask_inner();
        self.ask_of_names(names, listed);
    }

    // What the layout is. Answers how many names the book has.
    fn ask_layout(&mut self) -> u16 {
        self.begin_word(b"layout");
        let Some(c) = book::layout(self.book) else {
            self.refuse(Refusal::Broken);
            return 0;
        };
        self.lines.whole(c);
        self.tally.give(Given::Layout);
        u16::try_from(c.names).unwrap_or(0)
    }

    // Every name by its number, then the number after the last and the highest, which have none.
    fn ask_name(&mut self, names: u16) {
        self.begin_word(b"name");
        self.lines.count(b"given ", names as usize + 2);
        for number in (0..names).chain([names, u16::MAX]) {
            self.lines.name(b" ", book::name(self.book, number), b"");
        }
        self.lines.write(b"\n");
        self.tally.give(Given::Name);
    }

    // The definition list, and the marks over it, over no names where it is refused; over it from its end; and over it and then each number that is
    // no name's. Answers whether any is listed.
    fn ask_list(&mut self) -> bool {
        let mut out = [0; ROOM];
        let list = self.ask_both(b"list", None, Question::MainList, &mut out);
        self.ask_again(b"marks", None, Question::Marks(list));
        let back = turned(list);
        self.ask_marks(b"marks-back", &back);
        for (word, number) in [(b"marks-outside", OUTSIDE), (b"marks-highest", HIGHEST)] {
            let mut more = turned(&back);
            let _ = more.try_push(number);
            self.ask_marks(word, &more);
        }
        !list.is_empty()
    }

    // Each name in turn is asked for the number of its values: those that have one, with it. Those without definition are refused with 3, which names
    // them, and are left out. What is refused otherwise is so for every number, as for the first outside.
    fn ask_values(&mut self, names: u16) {
        self.begin_word(b"values");
        if let Err(why) = questions::values(self.book, self.limits, OUTSIDE)
            && why != Refusal::Unbound(OUTSIDE)
        {
            self.refuse(why);
            return;
        }
        let mut found = Counted::new();
        for number in 0..names {
            match questions::values(self.book, self.limits, number) {
                Err(why) if why == Refusal::Unbound(number) => (),
                answer => {
                    let _ = found.try_push((number, answer.ok()));
                }
            }
        }
        self.lines.count(b"given ", found.len());
        for (number, count) in &found {
            self.lines.name(b" ", book::name(self.book, *number), b"");
            match count {
                Some(count) => self.print_count(*count),
                None => self.lines.write(b" refused"),
            }
        }
        self.lines.write(b"\n");
        self.tally.give_entries(Given::Values, found.len());
    }

    // Each name in turn is asked alone for the methods that change with it: those that have some, with them. What is refused is so whatever is asked,
    // as for nothing.
    fn ask_each_for_methods(&mut self, names: u16) {
        let mut out = [0; ROOM];
        self.begin_word(b"methods");
        if let Err(why) = questions::methods(self.book, self.limits, &[], &mut out) {
            self.refuse(why);
            return;
        }
        let changing = numbers_where(names, |number| {
            questions::methods(self.book, self.limits, &[number], &mut out) != Ok(0)
        });
        self.lines.count(b"given ", changing.len());
        for number in &changing {
            self.lines.name(b" ", book::name(self.book, *number), b"");
            match questions::methods(self.book, self.limits, &[*number], &mut out) {
                Ok(count) => {
                    for position in out.get(..count).unwrap_or(&[]) {
                        self.lines.count(b" ", *position as usize);
                    }
                }
                Err(_) => self.lines.write(b" refused"),
            }
        }
        self.lines.write(b"\n");
        self.tally.give_entries(Given::Methods, changing.len());
    }

    // The questions about each name and about numbers that are no name's; the methods projected for none, for all names that have one, and for
    // all names, the last first; and those that change with several names. A broken book has none and is not asked.
    fn ask_of_names(&mut self, names: u16, is_listed: bool) {
        if names == 0 {
            return;
        }
        let is_asked = |number: u16| {
            is_listed
                || names <= MOST_NAMES
                || number < FIRST_AND_LAST
                || names - FIRST_AND_LAST <= number
        };
        let taken = numbers_where(names, |number| is_asked(number) && self.ask_of(number));
        self.ask_outside();
        self.ask_again(b"project-all", None, Question::Projection(&turned(&taken)));
        let every = turned(&numbers_where(names, |_| true));
        self.project(b"project-every", None, &every);
        self.ask_for_methods(names, &every);
    }

    // The methods that change with a number that is no name's and with nothing; with any of all names, the last first; with those of even number,
    // each asked twice, and with the others.
    fn ask_for_methods(&mut self, names: u16, every: &[u16]) {
        self.ask_methods(b"methods-outside", &[OUTSIDE]);
        self.ask_methods(b"methods-highest", &[HIGHEST]);
        self.ask_methods(b"methods-none", &[]);
        self.ask_again(b"methods-all", None, Question::Methods(every));
        let even = turned(&numbers_where(names, |number| number % 2 == 0));
        let mut twice = Numbers::new();
        for number in &even {
            let _ = twice.try_push(*number);
            let _ = twice.try_push(*number);
        }
        self.ask_methods(b"methods-even", &twice);
        let odd = numbers_where(names, |number| number % 2 == 1);
        self.ask_methods(b"methods-odd", &turned(&odd));
    }

    // The questions about a name. Answers whether it has a method.
    fn ask_of(&mut self, number: u16) -> bool {
        let about = Some(number);
        self.ask_again(b"uses", about, Question::Uses(number));
        self.ask_alias(b"alias", about, number);
        let taken = self.project(b"project", about, &[number]);
        self.project(b"twice", about, &[number, number]);
        0 < taken
    }

    // Those about numbers that are no name's, and the methods projected for none.
    fn ask_outside(&mut self) {
        self.ask(b"uses-outside", None, Question::Uses(OUTSIDE));
        self.ask_alias(b"alias-outside", None, OUTSIDE);
        self.ask_alias(b"alias-highest", None, HIGHEST);
        self.ask_count(b"values-outside", OUTSIDE);
        self.ask_count(b"values-highest", HIGHEST);
        self.project(b"project-outside", None, &[OUTSIDE]);
        self.project(b"project-highest", None, &[HIGHEST]);
        self.project(b"project-none", None, &[]);
    }
}
