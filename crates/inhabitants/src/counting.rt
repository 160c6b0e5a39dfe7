// How many values the type at each node has. A type is counted once all of its parts are: the content of an opt, the fields of a record, the cases of
// a variant, the definition of a name; a vec asks only whether its content has a value. A node that does not fill has none and waits for nothing, so
// that no circle through it is one. What is never counted leads into a circle of types that fill, and has values without end.
ghost use Rattle.std.specs.Prelude.{◌≡◌, ◌<◌, ◌≤◌, replicate, get_or};
ghost use Rattle.listing.specs.Values.{capped, sum, product, first_of, count_of};
ghost use Rattle.inhabitants.specs.Counting.{numbers_in, number_at, CountedAs, counting_wait, OneType, CountedOf};

use crate::filling::fill;
use crate::waiting::{Wait, Waiting};
use book::kinds::Kind;
use book::read::Node;
use book::walks::Siblings;
use environment::root_of;
use environment::scope::Scope;
use format::Limits;
use refusals::Count;

// More than 4,294,967,295 values, as a number.
const MANY: u64 = 4294967296;

// How many values the primitive types have, in the order of their kinds.
const OF_PRIMITIVES: [u64; 18] = [
    1, 2, MANY, MANY, 256, 65536, MANY, MANY, 256, 65536, MANY, MANY, MANY, MANY, MANY, 1, 0, MANY,
];

// A number of values: more than many are many.
fn capped(n: u64) -> u64
    ensures { result ≡ capped n }
{
    if n < MANY { n } else { MANY }
}

// How many values the type at each node has. Until it is counted, and if it is never, that is many.
#[derive(Drop)]
pub struct NodeValues {
    numbers: [u64; Limits::NODES],
}

impl NodeValues {
    #[inline(always)]
    pub fn new() -> NodeValues
        ensures { result.numbers ≡ replicate 4096 4294967296 }
    {
        NodeValues {
            numbers: [MANY; Limits::NODES],
        }
    }

    // Of the first of these types; 0 where there is none.
    fn first(&self, types: Siblings) -> u64
        requires { types.until ≤ 4096 }
        ensures { result ≡ first_of (numbers_in self.now.numbers types.entry.rows.now types.entry.at types.entry.until) }
    {
        let mut types = types;
        match types.next() {
            Some((c, _)) => self.numbers[c],
            None => 0,
        }
    }

    // Of one of these types.
    fn sum(&self, types: Siblings) -> u64
        requires { types.until ≤ 4096 }
        ensures { result ≡ capped (sum (numbers_in self.now.numbers types.entry.rows.now types.entry.at types.entry.until)) }
    {
        let mut total = 0u64;
        for (c, _) in types {
            total = capped(total.saturating_add(self.numbers[c]));
        }
        total
    }

    // Of all of these types together.
    fn product(&self, types: Siblings) -> u64
        requires { types.until ≤ 4096 }
        ensures { result ≡ capped (product (numbers_in self.now.numbers types.entry.rows.now types.entry.at types.entry.until)) }
    {
        let mut total = 1u64;
        for (c, _) in types {
            total = capped(total.saturating_mul(self.numbers[c]));
        }
        total
    }

    // Of node n, by those of its parts.
    fn of_parts(&self, scope: Scope, n: usize) -> u64
        requires { n < scope.nodes }
        ensures { result ≡ number_at scope.entry.rows.now scope.entry.roots.now self.now.numbers n }
    {
        let t = Node::at(scope.rows, n);
        if t.kind < Kind::Var as u8 {
            return OF_PRIMITIVES[t.kind as usize];
        }
        if t.kind == Kind::Var as u8 {
            return match root_of(scope.roots, t.value as usize) {
                Some(root) => self.numbers[root],
                None => 0,
            };
        }
        let types = Siblings::new(scope.rows, n + 1, n + t.size);
        if t.kind == Kind::Opt as u8 {
            return capped(self.first(types).saturating_add(1));
        }
        if t.kind == Kind::Vec as u8 {
            return if self.first(types) == 0 { 1 } else { MANY };
        }
        if t.kind == Kind::Record as u8 {
            return self.product(types);
        }
        if t.kind == Kind::Variant as u8 {
            return self.sum(types);
        }
        MANY
    }

    // Node n is counted. One that does not fill has no value, and its parts need not be counted.
    fn count_node(&mut self, filling: &Waiting, scope: Scope, n: usize)
        requires { n < scope.nodes }
        ensures { CountedAs filling.now.left scope.entry.rows.now scope.entry.roots.now n self.old.numbers self.new.numbers }
    {
        self.numbers[n] = if filling.settled(n) {
            self.of_parts(scope, n)
        } else {
            0
        };
    }

    // All nodes of a scope.
    pub fn count(&mut self, scope: Scope)
        requires new { self.old.numbers ≡ replicate 4096 4294967296 }
        requires opts { OneType scope.rows.now scope.nodes }
        ensures { CountedOf scope.entry self.new.numbers }
    {
        let mut filling = Waiting::new();
        fill(&mut filling, scope);
        let mut counting = Waiting::new();
        for n in (0..scope.nodes).rev() {
            counting.enter(scope, n, wait_of(&filling, scope, n));
            if counting.settled(n) {
                self.count_node(&filling, scope, n);
            }
        }
        let mut told = 0;
        while told < counting.ready() {
            let n = counting.ready_at(told);
            self.count_node(&filling, scope, n);
            counting.tell_all(n);
            told += 1;
        }
    }

    // Of a node.
    pub fn of(&self, n: usize) -> Count
        requires { n < 4096 }
        ensures { result ≡ count_of (get_or self.now.numbers n 0) }
    {
        let number = self.numbers[n];
        if number < MANY {
            Count::Exactly(number as u32)
        } else {
            Count::Many
        }
    }
}

// What a node waits for, to be counted.
fn wait_of(filling: &Waiting, scope: Scope, n: usize) -> Wait
    requires { n < scope.nodes }
    ensures { result ≡ counting_wait filling.now.left scope.entry.rows.now n }
{
    if !filling.settled(n) {
        return Wait::Nothing;
    }
    let kind = Node::at(scope.rows, n).kind;
    if kind == Kind::Var as u8 {
        return Wait::Definition;
    }
    if kind == Kind::Opt as u8 || kind == Kind::Record as u8 || kind == Kind::Variant as u8 {
        return Wait::All;
    }
    Wait::Nothing
}
