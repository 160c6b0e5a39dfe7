// Which methods use one of some names: the positions of the methods that have an entry in one of their rows of `chase_def_use`, without the entries.
// One test a method tells: a function is no name itself, so that what its tree uses its arguments and results do.
ghost use Rattle.std.specs.Prelude.{◌≡◌, List, ℕ, ◌++◌, ◌+◌, ◌≤◌, IfSome};
ghost use Rattle.arrayvec.specs.ArrayVec.{array_vec_len};
ghost use Rattle.format.specs.Forest.{breadth};
ghost use Rattle.format.specs.Layout.{row_at, siblings};
ghost use Rattle.format.specs.Whole.{WholeAt};
ghost use Rattle.format.specs.Labels.{method_names};
ghost use Rattle.environment.specs.Tables.{Ended};
ghost use Rattle.environment.specs.Trees.{Methods};
ghost use Rattle.syntax.specs.Interfaces.{methods_in};
ghost use Rattle.analysis.specs.Entries.{EndTested, Served, Offered};
ghost use Rattle.analysis.specs.Methods.{end_passes, positions_by};
ghost use Rattle.analysis.specs.Projecting.{Services};

use crate::def_use::Searched;
use arrayvec::ArrayVec;
use book::kinds::Kind;
use book::read::Node;
use book::walks::Siblings;
use format::Limits;
use syntax::interface::Interface;

// A number for each of some methods, of which there are no more than nodes: a position, or a name.
pub type OfMethods = ArrayVec<u16, { Limits::NODES }>;

impl Searched<'_> {
    // Whether a function stands at a chain's end that uses a name.
    fn is_used_at(&self, e: Option<u16>) -> bool
        requires { IfSome e (λ f. WholeAt self.now.rows.now f) }
        ensures { (x : EndTested self.now.rows.now self.now.near.now e) → result ≡ end_passes x.used x.reached }
    {
        let Some(f) = e else {
            return false;
        };
        let f = f as usize;
        let t = Node::at(self.rows, f);
        t.kind == Kind::Func as u8 && (self.near[f] as usize) < f + t.size
    }

    // Adds the positions of a service's methods that use a name, the first method having position `first`. Gives the position after the last.
    fn add_methods(&self, service: usize, first: usize, positions: &mut OfMethods) -> usize
        requires inside { Ended self.now.rows.now self.now.ends.now service }
        requires room { first + breadth (siblings self.now.rows.now (service + 1) (service + (row_at self.now.rows.now service).size)) ≤ 4096 }
        requires few { array_vec_len positions.old ≤ first }
        ensures position { result ≡ first + breadth (siblings self.now.rows.now (service + 1) (service + (row_at self.now.rows.now service).size)) }
        ensures few { array_vec_len positions.new ≤ result }
        ensures adds { (x : Served self.now.rows.now self.now.ends.now self.now.near.now service) →
            positions.new.items
            ≡ positions.old.items ++ positions_by x.used x.definitions first (siblings self.now.rows.now (service + 1) (service + (row_at self.now.rows.now service).size)) }
    {
        let t = Node::at(self.rows, service);
        let mut m = first;
        for (i, _) in Siblings::new(self.rows, service + 1, service + t.size) {
            let end = environment::end_of(self.rows, self.ends, i);
            if self.is_used_at(end.node) {
                positions.push(m as u16);
            }
            m += 1;
        }
        m
    }

    // The positions of an interface's methods that use a name, ascending.
    pub fn methods(&self, offer: &Interface) -> OfMethods
        requires offered { Offered self.now.rows.now self.now.ends.now self.now.near.now offer.now.from offer.now.until offer.now.services }
        requires few { breadth (methods_in self.now.rows.now offer.now.services) ≤ 4096 }
        ensures { (x : Offered self.now.rows.now self.now.ends.now self.now.near.now offer.now.from offer.now.until offer.now.services) →
            result.items ≡ positions_by x.used x.definitions 0 (methods_in self.now.rows.now offer.now.services) }
    {
        let mut positions = OfMethods::new();
        let mut m = 0;
        for s in offer.services.as_slice() {
            m = self.add_methods(*s as usize, m, &mut positions);
        }
        positions
    }
}

// Adds the names of methods that stand beside each other.
fn add_names(methods: Siblings<'_>, names: &mut OfMethods)
    requires methods { (roots : List ℕ) × (ends : List ℕ) × Methods methods.rows.now roots ends methods.at methods.until }
    requires room { array_vec_len names.old + breadth (siblings methods.rows.now methods.at methods.until) ≤ 4096 }
    ensures { names.new.items ≡ names.old.items ++ method_names (siblings methods.entry.rows.now methods.entry.at methods.entry.until) }
{
    for (_, t) in methods {
        names.push(t.label as u16);
    }
}

// The names of the methods of services, by their positions.
pub fn method_names(rows: &[u8], services: &[u16]) -> OfMethods
    requires services { Services rows.now services.now }
    requires few { breadth (methods_in rows.now services.now) ≤ 4096 }
    ensures { result.items ≡ method_names (methods_in rows.now services.now) }
{
    let mut names = OfMethods::new();
    for s in services {
        let s = *s as usize;
        let t = Node::at(rows, s);
        add_names(Siblings::new(rows, s + 1, s + t.size), &mut names);
    }
    names
}
