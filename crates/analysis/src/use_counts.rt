// How many uses each name has: the lengths of the rows of `chase_def_use`, without the rows. First it is counted how often each type is used: as an
// argument of the actor's class, and as an argument or a result of a function, as often as chains of methods end at that. Then there is one walk for
// each type, and what it lists counts as often. Types that are one name are one type, and a primitive one needs no walk.
ghost use Rattle.std.specs.Prelude.{◌≡◌, List, ℕ, ◌+◌, ◌*◌, ◌≤◌, ◌<◌, get_or, replicate};
ghost use Rattle.format.specs.Book.{Definition};
ghost use Rattle.format.specs.Forest.{breadth};
ghost use Rattle.format.specs.Layout.{row_at, siblings};
ghost use Rattle.format.specs.Whole.{Whole};
ghost use Rattle.environment.specs.Tables.{Ended, Chains};
ghost use Rattle.analysis.specs.Reaching.{KeptFrom};
ghost use Rattle.analysis.specs.Tallies.{Amount, trees_tally, node_tally, type_at, method_tally, offered_tally, weighed, times_listed, no_counts, Countable, CountedIn, Stands, UsedIn, RoomFor, NoMore, Offering};

use crate::chase::chase_types;
use book::kinds::Kind;
use book::read::Node;
use book::tables::ByName;
use book::walks::Siblings;
use environment::scope::BookScope;
use format::Limits;
use syntax::interface::Interface;

// A number of uses for each name.
pub type Counts = [u32; Limits::NAMES];

// For each node how many methods there are whose chains end at it.
type MethodsOf = [u16; Limits::NODES];

// How often the type at each node is used. A type that is a name is counted at the first node met that is this name, of which there is one more than
// its number, or 0 for none.
#[derive(Drop)]
struct UsedTypes {
    times: [u32; Limits::NODES],
    of_name: ByName,
}

impl UsedTypes {
    fn new() -> UsedTypes
        ensures { (result.times ≡ replicate 4096 0) × (result.of_name ≡ replicate 1024 0) }
    {
        UsedTypes {
            times: [0; Limits::NODES],
            of_name: [0; Limits::NAMES],
        }
    }

    // The type at node n is used so often more.
    fn add(&mut self, book: BookScope, n: usize, times: u32)
        requires inside { n < book.scope.nodes }
        requires stands { Stands book.scope.rows.now book.scope.nodes self.old }
        requires room { RoomFor book.scope.rows.now self.old times (type_at book.scope.rows.now n) }
        ensures stands { Stands book.entry.scope.rows.now book.entry.scope.nodes self.new }
        ensures used { UsedIn book.entry.scope.rows.now self.old self.new times (type_at book.entry.scope.rows.now n) }
    {
        let t = Node::at(book.scope.rows, n);
        if t.kind < Kind::Var as u8 {
            return;
        }
        let mut at = n;
        if t.kind == Kind::Var as u8 {
            let v = t.value as usize;
            match self.of_name[v].checked_sub(1) {
                Some(first) => at = first as usize,
                None => self.of_name[v] = (n + 1) as u16,
            }
        }
        self.times[at] += times;
    }

    // The types of the nodes from `from` up to `until`.
    fn add_all(&mut self, book: BookScope, from: usize, until: usize, times: u32)
        requires trees { Whole book.scope.rows.now from until × (until ≤ book.scope.nodes) }
        requires stands { Stands book.scope.rows.now book.scope.nodes self.old }
        requires room { RoomFor book.scope.rows.now self.old times (trees_tally book.scope.rows.now from until) }
        ensures stands { Stands book.entry.scope.rows.now book.entry.scope.nodes self.new }
        ensures used { UsedIn book.entry.scope.rows.now self.old self.new times (trees_tally book.entry.scope.rows.now from until) }
    {
        for (n, _) in Siblings::new(book.scope.rows, from, until) {
            self.add(book, n, times);
        }
    }

    // The arguments and results of the function at node f; none where that is no function.
    fn add_function(&mut self, book: BookScope, f: usize, times: u32)
        requires inside { f < book.scope.nodes }
        requires stands { Stands book.scope.rows.now book.scope.nodes self.old }
        requires room { RoomFor book.scope.rows.now self.old times (node_tally book.scope.rows.now f) }
        ensures stands { Stands book.entry.scope.rows.now book.entry.scope.nodes self.new }
        ensures used { UsedIn book.entry.scope.rows.now self.old self.new times (node_tally book.entry.scope.rows.now f) }
    {
        if times == 0 {
            return;
        }
        let t = Node::at(book.scope.rows, f);
        if t.kind == Kind::Func as u8 {
            self.add_all(book, f + 1, f + t.size, times);
        }
    }
}

// Counts a service's methods at the nodes where their chains end. They are fewer than a book has nodes.
fn count_methods(rows: &[u8], ends: &[u32], service: usize, methods: &mut MethodsOf)
    requires { Ended rows.now ends.now service × NoMore methods.old 61440 }
    ensures few { (f : ℕ) → get_or methods.new f 0 ≤ get_or methods.old f 0 + 4096 }
    ensures kept { (x : Ended rows.now ends.now service) → KeptFrom x.count methods.old methods.new }
    ensures counted { (x : Ended rows.now ends.now service) (ds : List Definition) → Chains rows.now ends.now x.names ds → (f : Amount) →
        weighed (node_tally rows.now) 0 methods.new f ≡ weighed (node_tally rows.now) 0 methods.old f + method_tally f ds (siblings rows.now (service + 1) (service + (row_at rows.now service).size)) }
{
    let t = Node::at(rows, service);
    for (i, _) in Siblings::new(rows, service + 1, service + t.size) {
        let end = environment::end_of(rows, ends, i);
        if let Some(f) = end.node {
            methods[f as usize] += 1;
        }
    }
}

// What the walk from the type at node n lists, so many times; nothing for none.
fn count_type(book: BookScope, n: usize, times: u32, counts: &mut Counts)
    requires inside { n < book.scope.nodes }
    requires countable { Countable book.scope.rows.now book.scope.roots.now counts.old times (type_at book.scope.rows.now n) }
    ensures { CountedIn book.entry.scope.rows.now book.entry.scope.roots.now counts.old counts.new times (type_at book.entry.scope.rows.now n) }
{
    if times == 0 {
        return;
    }
    let t = Node::at(book.scope.rows, n);
    let Ok(walk) = chase_types(book, n, n + t.size) else {
        unreachable!();
    };
    for name in walk.listed.as_slice() {
        counts[*name as usize] += times;
    }
}

// The uses of all names by what an actor offers, in counts that have nothing.
pub fn count_uses(book: BookScope, ends: &[u32], offer: &Interface, counts: &mut Counts)
    requires { Offering book.scope.rows.now book.scope.roots.now ends.now book.scope.nodes offer.now.from offer.now.until offer.now.services × (counts.old ≡ no_counts) }
    ensures { (x : Offering book.entry.scope.rows.now book.entry.scope.roots.now ends.now book.entry.scope.nodes offer.now.from offer.now.until offer.now.services) →
        (n : ℕ) → n < 1024 → get_or counts.new n 0
        ≡ offered_tally book.entry.scope.rows.now x.counted.ds offer.now.from offer.now.until offer.now.services (times_listed x.counted.ds n) }
{
    let mut methods = [0; Limits::NODES];
    for s in offer.services.as_slice() {
        count_methods(book.scope.rows, ends, *s as usize, &mut methods);
    }
    let mut types = UsedTypes::new();
    types.add_all(book, offer.from, offer.until, 1);
    for f in 0..book.scope.nodes {
        types.add_function(book, f, u32::from(methods[f]));
    }
    for n in 0..book.scope.nodes {
        count_type(book, n, types.times[n], counts);
    }
}
