// What the names of a book stand for: its nodes, and a table of roots.
ghost use Rattle.std.specs.Prelude.{◌≡◌};
ghost use Rattle.format.specs.Layout.{nodes_part};
ghost use Rattle.environment.specs.Tables.{Nodes, Roots};
ghost use Rattle.environment.specs.Trees.{AllTrees};
ghost use Rattle.environment.specs.Props.{props};

use crate::{Alias, End, Link, chain_end, root_of};
use book::admitted::AdmittedBook;
use book::kinds::Kind;
use book::read::Node;
use refusals::{Refusal, Verdict};

// The nodes of an admitted book, and for each of its names the root of the definition, where it has one. Two lifetimes: tables are lent for less
// time than the book.
#[derive(Clone, Copy)]
pub struct Scope<'b, 't> {
    pub rows: &'b [u8],
    pub roots: &'t [u16],
    pub names: usize,
    pub nodes: usize,
    pub ghost whole: { Nodes rows.now names nodes } by { Prim.hlevel props },
    pub ghost bound: { Roots roots.now nodes } by { Prim.hlevel props },
}

impl<'b, 't> Scope<'b, 't> {
    ghost use Rattle.std.specs.Prelude.{List, ◌<◌, ◌≤◌, get_or, length};
    ghost use Rattle.format.specs.Book.{Definition};
    ghost use Rattle.format.specs.Whole.{tree_at};
    ghost use Rattle.judgement.specs.Aliases.{chain_from};
    ghost use Rattle.book.specs.Tables.{zero_table};
    ghost use Rattle.environment.specs.Tables.{Nodes, Roots, var_at, link_of, as_end, InRange, EndKnown};
    ghost use Rattle.environment.specs.Scopes.{IsBy, Defines, Opened, Ending, Follows, Notes, EndsOf};

    pub fn new(rows: &'b [u8], roots: &'t [u16], names: usize, nodes: usize) -> Scope<'b, 't>
        requires { Nodes rows.now names nodes × Roots roots.now nodes }
        ensures rows { result.rows ≡ rows.entry }
        ensures roots { result.roots ≡ roots.entry }
        ensures names { result.names ≡ names }
        ensures nodes { result.nodes ≡ nodes }
    {
        Scope {
            rows,
            roots,
            names,
            nodes,
        }
    }

    // Of an admitted book, beside a table of its definitions.
    pub fn of(book: AdmittedBook<'b>, roots: &'t [u16]) -> Scope<'b, 't>
        requires { Roots roots.now book.contents.nodes }
        ensures rows { result.rows.now ≡ nodes_part book.entry.bytes.now }
        ensures roots { result.roots ≡ roots.entry }
        ensures names { result.names ≡ book.entry.contents.names }
        ensures nodes { result.nodes ≡ book.entry.contents.nodes }
    {
        let c = book.contents;
        Scope::new(book.nodes(), roots, c.names, c.nodes)
    }

    // The name that a node is.
    #[tactic(auto, unfolding(crate::specs::Tables::var_at))]
    fn var_at(self, node: usize) -> Option<usize>
        requires { node < self.nodes }
        ensures { result ≡ var_at self.entry.rows.now node }
    {
        let t = Node::at(self.rows, node);
        if t.kind == Kind::Var as u8 {
            Some(t.value as usize)
        } else {
            None
        }
    }

    // Follows a name to the next, where it has a definition. Whoever follows an alias chain takes this step, in a loop.
    pub fn step(self, n: usize) -> Option<Link>
        requires { n < self.names }
        ensures { result ≡ link_of self.entry.rows.now (get_or self.entry.roots.now n 65535) }
    {
        let root = root_of(self.roots, n)?;
        let next = self.var_at(root);
        Some(Link { root, next })
    }

    // The end of the chain from a node, which crosses at most `left` names: with as many as there are definitions, one more never ends.
    pub fn alias_end(self, left: usize, node: usize) -> Alias
        requires { node < self.nodes }
        ensures within { InRange self.entry.nodes result.end }
        ensures is { (ds : List Definition) → IsBy self.entry ds →
            as_end self.entry.rows.now result.end ≡ (chain_from left ds (tree_at self.entry.rows.now node)).last }
        ensures crossed { (ds : List Definition) → IsBy self.entry ds →
            result.crossed ≡ length (chain_from left ds (tree_at self.entry.rows.now node)).crossed }
        ensures few { result.crossed ≤ left }
    {
        // Counted by hand: after a `for` over `left` names one more would have to be looked at, which makes a circle only if it has a definition.
        let mut at = node;
        let mut next = self.var_at(node);
        let mut crossed = 0;
        while let Some(n) = next {
            let Some(s) = self.step(n) else {
                return Alias {
                    crossed,
                    end: End::Unbound(n as u16),
                };
            };
            if crossed == left {
                return Alias {
                    crossed: left,
                    end: End::Circle,
                };
            }
            crossed += 1;
            at = s.root;
            next = s.next;
        }
        Alias {
            crossed,
            end: End::Ends(at),
        }
    }

    // Opens the ends of all names that have a definition, in a table that has nothing.
    #[tactic(auto, unfolding(crate::specs::Tables::end_before))]
    fn open_ends(self, ends: &mut [u32])
        requires { ends.old ≡ zero_table }
        ensures { Opened self.entry ends.new }
    {
        for n in 0..self.names {
            if root_of(self.roots, n).is_some() {
                ends[n] = chain_end::OPEN;
            }
        }
    }

    // Follows the chain of a name as far as the first name on it whose end is known, and answers what the table is to have; nothing if it never
    // ends. With at most 512 definitions no sum of CROSSED runs over.
    fn follow(self, ends: &[u32], definitions: usize, n: usize) -> Option<u32>
        requires ends { Ending self ends.now }
        requires name { n < self.names }
        requires defined { Defines self definitions }
        requires few { definitions ≤ 512 }
        ensures { Follows self.entry definitions n result }
    {
        let mut m = n;
        // Counted by hand: after a `for` over the names crossed the last one would have to be looked at again.
        let mut crossed = 0;
        while ends[m] == chain_end::OPEN {
            if crossed == definitions as u32 {
                return None;
            }
            let Some(s) = self.step(m) else {
                unreachable!();
            };
            let Some(next) = s.next else {
                return Some(chain_end::at(s.root) + crossed * chain_end::CROSSED);
            };
            crossed += 1;
            m = next;
        }
        Some(ends[m] + crossed * chain_end::CROSSED)
    }

    // Writes down what the table is to have for a name, and for each name on its chain, as far as the first whose end is known: each crosses one
    // name less than the one before it.
    fn note(self, n: usize, end: u32, ends: &mut [u32])
        requires ends { Ending self ends.old }
        requires name { n < self.names }
        requires known { EndKnown self.rows.now self.roots.now self.nodes n end }
        ensures { Notes self.entry n ends.old ends.new }
    {
        let mut m = n;
        let mut e = end;
        while ends[m] == chain_end::OPEN {
            ends[m] = e;
            let Some(s) = self.step(m) else {
                unreachable!();
            };
            let Some(next) = s.next else {
                return;
            };
            e -= chain_end::CROSSED;
            m = next;
        }
    }

    // Finds the alias ends of all names once, with how many names each chain crosses, in a table that has nothing: 7 with the lowest name whose
    // chain never ends. Then the table has nothing, as it was lent. The names that a chain crosses are noted with it, so that no later chain is
    // followed beyond them.
    pub fn find_ends(self, definitions: usize, ends: &mut [u32]) -> Verdict
        requires ends { ends.old ≡ zero_table }
        requires defined { Defines self definitions }
        requires few { definitions ≤ 512 }
        ensures { EndsOf self.entry definitions ends.new result }
    {
        self.open_ends(ends);
        for n in 0..self.names {
            let Some(end) = self.follow(ends, definitions, n) else {
                ends.fill(chain_end::NONE);
                return Err(Refusal::Circle(n as u16));
            };
            self.note(n, end, ends);
        }
        Ok(())
    }
}

// The scope of a whole book: all its nodes are trees at roots. A walk down from any node needs that; what follows names needs a Scope alone.
#[derive(Clone, Copy)]
pub struct BookScope<'b, 't> {
    pub scope: Scope<'b, 't>,
    pub ghost trees: { AllTrees scope.rows.now scope.names scope.nodes } by { Prim.hlevel props },
}

impl<'b, 't> BookScope<'b, 't> {
    // For who has the parts beside each other.
    pub fn new(rows: &'b [u8], roots: &'t [u16], names: usize, nodes: usize) -> BookScope<'b, 't>
        requires trees { AllTrees rows.now names nodes }
        requires bound { Roots roots.now nodes }
        ensures rows { result.scope.rows ≡ rows.entry }
        ensures roots { result.scope.roots ≡ roots.entry }
        ensures names { result.scope.names ≡ names }
        ensures nodes { result.scope.nodes ≡ nodes }
    {
        BookScope {
            scope: Scope::new(rows, roots, names, nodes),
        }
    }

    // Of an admitted book, beside a table of its definitions.
    pub fn of(book: AdmittedBook<'b>, roots: &'t [u16]) -> BookScope<'b, 't>
        requires { Roots roots.now book.contents.nodes }
        ensures rows { result.scope.rows.now ≡ nodes_part book.entry.bytes.now }
        ensures roots { result.scope.roots ≡ roots.entry }
        ensures names { result.scope.names ≡ book.entry.contents.names }
        ensures nodes { result.scope.nodes ≡ book.entry.contents.nodes }
    {
        BookScope {
            scope: Scope::of(book, roots),
        }
    }
}
