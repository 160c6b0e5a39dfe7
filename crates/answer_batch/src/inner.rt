// Lines of functions inside the crates, whose answers no question hands out: `alias_end` on an admitted book, with the definitions of all files
// as one environment; `as_func` and `as_service` on a book that passed. They ask for such books, so this file counts on what admission, the
// check and `enter` promise.
use crate::asking::Asking;
use crate::lines::Lines;
use crate::tally::Given;
use book::read::Entry;
use book::walks::Entries;
use environment::scope::Scope;
use environment::{Alias, End, Lookup};
use format::Limits;
use passed::CheckedBook;
use refusals::Answer;

impl Asking<'_> {
    pub(crate) fn ask_inner(&mut self) {
        self.ask_chains();
        self.ask_lookups();
    }

    fn ask_chains(&mut self) {
        self.begin_word(b"chains");
        match self.say_chains() {
            Err(why) => self.refuse(why),
            Ok(definitions) => self.tally.give_entries(Given::Chains, definitions),
        }
    }

    fn ask_lookups(&mut self) {
        self.begin_word(b"lookups");
        match CheckedBook::pass(self.book, self.limits) {
            Err(why) => self.refuse(why),
            Ok(passed) => {
                say_lookups(self.lines, &passed);
                self.tally.give_entries(Given::Lookups, passed.main);
            }
        }
    }

    // The chain from each definition's body, in order; 2 where a name is defined twice, be it in two files. Answers how many definitions there are.
    fn say_chains(&self) -> Answer {
        let book = admission::admit(self.book, self.limits)?;
        let c = book.contents;
        let mut roots = [Entry::NO_ROOT; Limits::NAMES];
        environment::enter(book, 0, c.definitions, &mut roots)?;
        let scope = Scope::of(book, &roots);
        self.lines.count(b"given ", c.definitions);
        for e in Entries::new(book.definitions(), 0, c.definitions) {
            self.print_end(scope.alias_end(c.definitions, e.root as usize));
        }
        self.lines.write(b"\n");
        Ok(c.definitions)
    }

    fn print_end(&self, found: Alias) {
        match found.end {
            End::Ends(_) => self.lines.count(b" ends.", found.crossed),
            End::Circle => self.lines.count(b" circle.", found.crossed),
            End::Unbound(name) => {
                self.lines.count(b" unbound.", found.crossed);
                self.lines.name(b" ", book::name(self.book, name), b"");
            }
        }
    }
}

// What is looked up from the body of each definition but the init file's, in order, and then from main's actor: the service below its class, or
// the actor itself; nothing where main has none. With service imports too it is main's own tree.
fn say_lookups(lines: Lines, passed: &CheckedBook) {
    let rows = passed.book.nodes();
    lines.count(b"given ", passed.main);
    for e in Entries::new(passed.book.definitions(), 0, passed.main) {
        let node = e.root as usize;
        let function = environment::as_func(rows, &passed.tables.ends, node);
        let service = environment::as_service(rows, &passed.tables.ends, node);
        print_found(lines, function, service);
    }
    if let Some(top) = syntax::class::top_of(rows, passed.interface.main()) {
        print_actor(
            lines,
            environment::as_service(rows, &passed.tables.ends, top.below),
        );
    }
    lines.write(b"\n");
}

fn print_actor(lines: Lines, service: Lookup) {
    match service {
        Ok(end) => lines.count(b" actor.", end.crossed as usize),
        Err(end) => lines.count(b" actor-.", end.crossed as usize),
    }
}

fn names_crossed(lookup: Lookup) -> usize {
    match lookup {
        Ok(end) | Err(end) => end.crossed as usize,
    }
}

// Both have crossed the same names, found or not: where they have not, a word says so that no stored line has.
fn print_found(lines: Lines, function: Lookup, service: Lookup) {
    if names_crossed(function) != names_crossed(service) {
        lines.write(b" apart");
    }
    if let Ok(end) = function {
        lines.count(b" f.", end.crossed as usize);
    } else if let Ok(end) = service {
        lines.count(b" s.", end.crossed as usize);
    } else {
        lines.count(b" -.", names_crossed(service));
    }
}
