// What the reader says: the refusals of documents 01 and 02, the verdict of a check and the answer of a question. It stands below the book, so
// that definitions need no code for it.
#![tactic(auto)]

ghost use Rattle.std.specs.Prelude.{◌≡◌, ◌<◌, cond, Some, None, length};
ghost use Rattle.refusals.specs.Refusal.{says_of, number_of, names_of, name_of, needed_of};
ghost use Rattle.refusals.specs.Outcome.{given};
ghost use Rattle.refusals.specs.Handed.{HandedAs};

// Rows 1 to 17 of document 01 in order, then those of document 02. Those with a name hold its number: a place in the book's table of names, unless
// a question was asked with a number outside that table. Then 3 and 15 hold the number as it was asked, even 65,535.
#[derive(Clone, Copy, PartialEq, Eq, Debug)]
pub enum Refusal {
    // 1: the layout is broken.
    Broken,
    // 2: a name is defined twice.
    Twice(u16),
    // 3: a name has no definition.
    Unbound(u16),
    // 4: a class in a definition, an init argument or below an actor's top.
    Class,
    // 5: a function has more than one mode.
    Modes,
    // 6: a function's sole mode is oneway, and it has results.
    Oneway,
    // 7: the alias chain from this name runs into a circle.
    Circle(u16),
    // 8: a definition holds a method that is no function.
    NoFunction,
    // 9: this method of an actor or an init argument is no function.
    MethodNoFunction(u16),
    // 10: the actor is no service.
    NoService,
    // 11: the init file and main differ on this definition, the lowest such.
    Differs(u16),
    // 12: the service import of this file has no actor.
    ImportWithoutActor(u16),
    // 13: the service import of this file is no plain service.
    ImportNoService(u16),
    // 14: this method has the hash of an earlier one, with service imports.
    SameHash(u16),
    // 15: this asked method is absent, the lowest left over.
    Absent(u16),
    // 16: the lent list is shorter than the result, which has this many entries.
    Short(u32),
    // 17: the question needs an actor.
    NoActor,
    // 18: this label is that of an earlier child of the same node; NO_NAME where it is not spelled, which no label's name number is. No Option:
    // C would be told Some(NO_NAME) and None alike, and number, name and entries would no longer settle a refusal.
    Repeated(u16),
    // 24: the book has more names, nodes or definitions than the limit.
    OverLimit,
}

// What a refusal tells beside its row.
#[derive(Clone, Copy, PartialEq, Eq, Debug)]
enum Told {
    Nothing,
    // A name's number.
    Name(u16),
    // A label's name number, or NO_NAME where it is not spelled.
    Label(u16),
    // The entries needed.
    Needed(u32),
}

impl Refusal {
    // Stands for the name's number where a refusal names nothing, since C is told a number. It may also be one that is named: `named` tells
    // them apart.
    pub const NO_NAME: u16 = 65535;

    // The table of refusals, one line for each as in the definition: its row, and what it tells.
    fn says(self) -> (u16, Told)
        ensures { result ≡ says_of self }
    {
        match self {
            Refusal::Broken => (1, Told::Nothing),
            Refusal::Twice(n) => (2, Told::Name(n)),
            Refusal::Unbound(n) => (3, Told::Name(n)),
            Refusal::Class => (4, Told::Nothing),
            Refusal::Modes => (5, Told::Nothing),
            Refusal::Oneway => (6, Told::Nothing),
            Refusal::Circle(n) => (7, Told::Name(n)),
            Refusal::NoFunction => (8, Told::Nothing),
            Refusal::MethodNoFunction(n) => (9, Told::Name(n)),
            Refusal::NoService => (10, Told::Nothing),
            Refusal::Differs(n) => (11, Told::Name(n)),
            Refusal::ImportWithoutActor(n) => (12, Told::Name(n)),
            Refusal::ImportNoService(n) => (13, Told::Name(n)),
            Refusal::SameHash(n) => (14, Told::Name(n)),
            Refusal::Absent(n) => (15, Told::Name(n)),
            Refusal::Short(n) => (16, Told::Needed(n)),
            Refusal::NoActor => (17, Told::Nothing),
            Refusal::Repeated(n) => (18, Told::Label(n)),
            Refusal::OverLimit => (24, Told::Nothing),
        }
    }

    // Its row.
    pub fn number(self) -> u16
        ensures { result ≡ number_of self }
    {
        self.says().0
    }

    // The number that it names, if any, which need not be a name of the book.
    pub fn named(self) -> Option<u16>
        ensures { result ≡ cond (names_of self) (Some (name_of self)) None }
    {
        match self.says().1 {
            Told::Name(n) => Some(n),
            Told::Label(n) if n != Refusal::NO_NAME => Some(n),
            _ => None,
        }
    }

    // The name number that it gives, or NO_NAME.
    pub fn name(self) -> u16
        ensures { result ≡ name_of self }
    {
        self.named().unwrap_or(Refusal::NO_NAME)
    }

    // The entries needed, which only row 16 gives; else 0 and no Option, since that is what C is told.
    pub fn needed(self) -> u32
        ensures { result ≡ needed_of self }
    {
        match self.says().1 {
            Told::Needed(n) => n,
            _ => 0,
        }
    }
}

// What a check finds: it goes on, or the first refusal.
pub type Verdict = Result<(), Refusal>;

// What a question answers: how many entries stand at the front of the lent list, or why there are none.
pub type Answer = Result<usize, Refusal>;

// The names that an alias chain crosses: how many, and the last of them.
#[derive(Clone, Copy, PartialEq, Eq, Debug)]
pub struct Crossed {
    pub names: u16,
    pub last: u16,
}

// What the question about an alias chain answers.
pub type AliasAnswer = Result<Crossed, Refusal>;

// How many values a type has: a number, or many, which is more than a u32 holds.
#[derive(Clone, Copy, PartialEq, Eq, Debug)]
pub enum Count {
    Exactly(u32),
    Many,
}

// What the question about the values of a name answers.
pub type CountAnswer = Result<Count, Refusal>;

// A uses report: how many definitions are listed, for each of which a number of uses stands in the lent list, and the sum of these.
#[derive(Clone, Copy, PartialEq, Eq, Debug)]
pub struct UseCounts {
    pub listed: usize,
    pub total: u64,
}

// What the question about the uses of all listed definitions answers.
pub type UseCountsAnswer = Result<UseCounts, Refusal>;

// Hands a list over into a lent one; 16 where that is shorter.
pub fn hand(list: &[u16], out: &mut [u16]) -> Answer
    requires { length list.now < 4294967296 }
    ensures { HandedAs (given list.now) out.old out.new result }
{
    let n = list.len();
    if out.len() < n {
        return Err(Refusal::Short(n as u32));
    }
    out[..n].copy_from_slice(list);
    Ok(n)
}
