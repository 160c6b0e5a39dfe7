// The uses of a name: `chase_def_use` of analysis.rs, for one name. Its entries are put by one traversal, which its caller runs twice: with no
// places it counts them, and with places it writes them too. The trees from node i up to node e use the name exactly if near[i] < e: which entries
// are put is promised where these numbers are of a test of types (specs/Entries.antt).
ghost use Rattle.std.specs.Prelude.{◌≡◌, ◌++◌, ◌+◌, ◌-◌, ◌/◌, ◌%◌, ◌≤◌, ◌<◌, length, IfSome};
ghost use Rattle.format.specs.Forest.{breadth};
ghost use Rattle.format.specs.Layout.{row_at, siblings};
ghost use Rattle.format.specs.Whole.{WholeAt};
ghost use Rattle.environment.specs.Tables.{Ended};
ghost use Rattle.syntax.specs.Interfaces.{methods_in};
ghost use Rattle.listing.specs.Sites.{class_sites, func_sites, end_sites, method_sites};
ghost use Rattle.listing.specs.Offers.{indexed};
ghost use Rattle.analysis.specs.Entries.{uses_by, side_number, Puts, Adds, AtMost, AddsAtMost, Tested, SkipsTo, EndTested, Served, Offered};

use crate::places::Places;
use crate::reaching::Near;
use book::kinds::Kind;
use book::read::Node;
use book::walks::Siblings;
use syntax::interface::Interface;

// An entry's method where it is an argument of the actor's class: a number, as the C interface has it, since entries are handed over as numbers.
const CLASS: u16 = 65535;

// Where a function has a type: among its arguments or its results.
#[derive(Clone, Copy)]
enum Side {
    Argument,
    Result,
}

impl Side {
    // The number that an entry has for it, as the C interface wants it. A function, since no contract reads `as u16` of an enum.
    fn number(self) -> u16
        ensures { result ≡ side_number self }
    {
        self as u16
    }
}

// The node after the first `count` trees, or after all of them where they are fewer.
fn skip(trees: Siblings<'_>, count: usize) -> usize
    ensures { SkipsTo trees.entry.rows.now trees.entry.at trees.entry.until count result }
{
    let mut rest = trees;
    rest.nth(count).map_or(trees.until, |(n, _)| n)
}

// Where uses are looked for: a book's rows, where the chains of its aliases end, and the numbers that tell a use. No fact is asked by all methods:
// a function is to be whole, a service's methods to have ends. Fields for both would need the number of nodes, which nothing here reads.
#[derive(Clone, Copy)]
pub struct Searched<'a> {
    pub rows: &'a [u8],
    pub ends: &'a [u32],
    pub near: &'a Near,
}

impl Searched<'_> {
    // The entries of trees that use the name, as arguments or results of a method.
    fn put_trees(&self, trees: Siblings<'_>, method: u16, side: Side, uses: &mut Places<'_>)
        requires { uses.old.count + (trees.until - trees.at) ≤ 4294967295 }
        ensures same { uses.new.out.ghost_name ≡ uses.old.out.ghost_name }
        ensures most { AddsAtMost (trees.entry.until - trees.entry.at) uses.old uses.new }
        ensures adds { (x : Tested trees.entry.rows.now self.now.near.now trees.entry.at trees.entry.until) →
            Adds (uses_by x.used (indexed method (side_number side) 0 (siblings trees.entry.rows.now trees.entry.at trees.entry.until))) uses.old uses.new }
    {
        for (index, (i, t)) in trees.enumerate() {
            if (self.near[i] as usize) < i + t.size {
                uses.put(&[method, side.number(), index as u16]);
            }
        }
    }

    // The entries of the function at node f: its arguments, and then its results.
    fn put_func(&self, f: usize, method: u16, uses: &mut Places<'_>)
        requires { WholeAt self.now.rows.now f × (uses.old.count + 4096 ≤ 4294967295) }
        ensures same { uses.new.out.ghost_name ≡ uses.old.out.ghost_name }
        ensures most { AddsAtMost 4096 uses.old uses.new }
        ensures adds { (x : Tested self.now.rows.now self.now.near.now f (f + (row_at self.now.rows.now f).size)) →
            Adds (uses_by x.used (func_sites method ((row_at self.now.rows.now f).value % 65536) 0 (siblings self.now.rows.now (f + 1) (f + (row_at self.now.rows.now f).size))))
            uses.old uses.new }
    {
        let t = Node::at(self.rows, f);
        let until = f + t.size;
        let trees = Siblings::new(self.rows, f + 1, until);
        let from = skip(trees, (t.value % Node::HALF) as usize);
        let arguments = Siblings::new(self.rows, f + 1, from);
        let results = Siblings::new(self.rows, from, until);
        self.put_trees(arguments, method, Side::Argument, uses);
        self.put_trees(results, method, Side::Result, uses);
    }

    // The entries of a method whose chain ends at node e: none where there is none, or where that is no function.
    fn put_end(&self, e: Option<u16>, method: u16, uses: &mut Places<'_>)
        requires { IfSome e (λ f. WholeAt self.now.rows.now f) × (uses.old.count + 4096 ≤ 4294967295) }
        ensures same { uses.new.out.ghost_name ≡ uses.old.out.ghost_name }
        ensures most { AddsAtMost 4096 uses.old uses.new }
        ensures adds { (x : EndTested self.now.rows.now self.now.near.now e) → Adds (uses_by x.used (end_sites method x.reached)) uses.old uses.new }
    {
        let Some(f) = e else {
            return;
        };
        let f = f as usize;
        if Node::at(self.rows, f).kind == Kind::Func as u8 {
            self.put_func(f, method, uses);
        }
    }

    // The entries of the methods of a service, whose first one has position `first`. Gives the position after them, and so counts by hand: of
    // `enumerate` the count would have to be taken from a second walk.
    fn put_methods(&self, service: usize, first: usize, uses: &mut Places<'_>) -> usize
        requires { Ended self.now.rows.now self.now.ends.now service × (first ≤ 61440) × (uses.old.count + 16777216 ≤ 4294967295) }
        ensures position { result ≡ first + breadth (siblings self.now.rows.now (service + 1) (service + (row_at self.now.rows.now service).size)) }
        ensures same { uses.new.out.ghost_name ≡ uses.old.out.ghost_name }
        ensures most { AddsAtMost 16777216 uses.old uses.new }
        ensures adds { (x : Served self.now.rows.now self.now.ends.now self.now.near.now service) →
            Adds (uses_by x.used (method_sites x.definitions first (siblings self.now.rows.now (service + 1) (service + (row_at self.now.rows.now service).size))))
            uses.old uses.new }
    {
        let t = Node::at(self.rows, service);
        let mut m = first;
        for (i, _) in Siblings::new(self.rows, service + 1, service + t.size) {
            let end = environment::end_of(self.rows, self.ends, i);
            self.put_end(end.node, m as u16, uses);
            m += 1;
        }
        m
    }

    // The entries of an interface: of its class's arguments, and then of the methods of the services, in order. Gives how many there are; those that
    // have a place are written.
    pub fn put_uses(&self, offer: &Interface, out: &mut [u16]) -> usize
        requires { Offered self.now.rows.now self.now.ends.now self.now.near.now offer.now.from offer.now.until offer.now.services }
        ensures most { AtMost 268439552 0 out.old out.new result }
        ensures puts { (x : Offered self.now.rows.now self.now.ends.now self.now.near.now offer.now.from offer.now.until offer.now.services) →
            Puts (length out.old / 3) 0
            (uses_by x.used (class_sites 0 (siblings self.now.rows.now offer.now.from offer.now.until) ++ method_sites x.definitions 0 (methods_in self.now.rows.now offer.now.services)))
            out.old out.new result }
    {
        let mut uses = Places { out, count: 0 };
        let arguments = Siblings::new(self.rows, offer.from, offer.until);
        self.put_trees(arguments, CLASS, Side::Argument, &mut uses);
        let mut m = 0;
        for s in offer.services.as_slice() {
            m = self.put_methods(*s as usize, m, &mut uses);
        }
        uses.count
    }
}
