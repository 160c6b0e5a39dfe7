// The merge of two sets of definitions: type_env.rs, `merge`. Trees are the same as stored, but labels of fields compare by label number,
// so the numbers of all names are found once a call. Functions ask of their caller what an admitted book gives (specs/Merging.antt).
ghost use Rattle.std.specs.Prelude.{◌≡◌, List, ℕ, length, get_or};
ghost use Rattle.format.specs.Book.{Definition};
ghost use Rattle.format.specs.Node.{labelled};
ghost use Rattle.format.specs.Layout.{node_of, siblings};
ghost use Rattle.format.specs.Whole.{RowFits};
ghost use Rattle.book.specs.Reading.{as_row};
ghost use Rattle.format.specs.Labels.{same_label};
ghost use Rattle.judgement.specs.Environment.{same_forest};
ghost use Rattle.judgement.specs.Check.{merge_verdict};
ghost use Rattle.environment.specs.Tables.{Binds};
ghost use Rattle.book.specs.Tables.{HashesAgree};
ghost use Rattle.environment.specs.Merging.{NameIn, hash_in, same_node, ByNames, Compared, Mergeable, ComparedRoots, same_roots, either_root, MergedAs};

use crate::root_of;
use book::kinds::Kind;
use book::read::{Node, stored_root};
use book::walks::Siblings;
use format::{Limits, Place};
use labels::Label;
use refusals::{Refusal, Verdict};

// The nodes of a book, beside the label number of each of its names.
#[derive(Clone, Copy)]
struct Comparison<'a> {
    rows: &'a [u8],
    hashes: &'a [u32],
    ghost long: { length hashes.now ≡ 1024 },
}

impl<'a> Comparison<'a> {
    // The label number of the name that a label is; 0 of one that is no name.
    fn hash_of(self, label: Label) -> u32
        requires { NameIn label }
        ensures { result ≡ hash_in self.entry.hashes.now label }
    {
        match label {
            Label::Named(n) => self.hashes[n as usize],
            Label::Id(_) | Label::Unnamed(_) => 0,
        }
    }

    // Whether two labels at a place are the same: fields by number, methods by name.
    fn same_label(self, place: Place, a: Label, b: Label) -> bool
        requires { NameIn a × NameIn b }
        ensures { ByNames self.entry.hashes.now (λ names. result ≡ same_label names place (labelled a) (labelled b)) }
    {
        match place {
            Place::Root | Place::Inner => true,
            Place::Field => a.same(self.hash_of(a), b, self.hash_of(b)),
            Place::Method => a.value() == b.value(),
        }
    }

    // Whether two nodes at a place are the same but for what is below them. A derived comparison would tell the name of a field from the number that it
    // stands for.
    fn same_node(self, place: Place, a: Node, b: Node) -> bool
        requires { RowFits 1024 (as_row a) × RowFits 1024 (as_row b) }
        ensures { ByNames self.entry.hashes.now (λ names. result ≡ same_node names place (node_of (as_row a)) (node_of (as_row b))) }
    {
        if a.kind != b.kind || a.value != b.value {
            return false;
        }
        self.same_label(place, a.label(), b.label())
    }

    // Whether trees side by side are the same as others, where all stand at `place`.
    fn same_trees(self, place: Place, a: Siblings<'_>, b: Siblings<'_>) -> bool
        requires { Compared self.rows.now a b }
        ensures { ByNames self.entry.hashes.now (λ names.
            result ≡ same_forest names place (siblings self.entry.rows.now a.entry.at a.entry.until) (siblings self.entry.rows.now b.entry.at b.entry.until)) }
    {
        let mut others = b;
        for (i, t) in a {
            let Some((j, u)) = others.next() else {
                return false;
            };
            if !self.same_node(place, t, u) {
                return false;
            }
            let below = Kind::place_below(t.kind);
            let first = Siblings::new(self.rows, i + 1, i + t.size);
            let second = Siblings::new(self.rows, j + 1, j + u.size);
            if !self.same_trees(below, first, second) {
                return false;
            }
        }
        others.next().is_none()
    }

    // Whether the trees of a name by two tables of roots are the same, or one table has none.
    fn same_roots(self, init: &[u16], main: &[u16], n: usize) -> bool
        requires { ComparedRoots self.rows.now (get_or init.now n 65535) (get_or main.now n 65535) }
        ensures { ByNames self.entry.hashes.now (λ names.
            result ≡ same_roots names self.entry.rows.now (get_or init.now n 65535) (get_or main.now n 65535)) }
    {
        let (Some(i), Some(j)) = (root_of(init, n), root_of(main, n)) else {
            return true;
        };
        let t = Node::at(self.rows, i);
        let u = Node::at(self.rows, j);
        let first = Siblings::new(self.rows, i, i + t.size);
        let second = Siblings::new(self.rows, j, j + u.size);
        self.same_trees(Place::Root, first, second)
    }
}

// Whether two tables of roots agree; the lowest name on which they differ.
pub fn merge(rows: &[u8], hashes: &[u32], init: &[u16], main: &[u16], names: usize) -> Verdict
    requires { Mergeable rows.now hashes.now init.now main.now names }
    ensures { (ns : List (List ℕ)) (ids ds : List Definition) → HashesAgree hashes.now ns → length ns ≡ names →
        Binds rows.now init.now ids → Binds rows.now main.now ds → result ≡ merge_verdict ns ids ds }
{
    let trees = Comparison { rows, hashes };
    match (0..names).find(|n| !trees.same_roots(init, main, *n)) {
        None => Ok(()),
        Some(n) => Err(Refusal::Differs(n as u16)),
    }
}

// The first root, or the second where the first is none.
#[tactic(auto, unfolding(crate::specs::Merging::either_root, book::specs::Reading::stored_root))]
fn either_root(a: u16, b: u16) -> u16
    ensures { result ≡ either_root a b }
{
    if stored_root(a).is_some() { a } else { b }
}

// The table of both, into `both`: a name that both have keeps its first definition.
pub fn merged(init: &[u16], main: &[u16], both: &mut [u16])
    requires { (length init.now ≡ 1024) × (length main.now ≡ 1024) × (length both.old ≡ 1024) }
    ensures { MergedAs init.now main.now both.new }
{
    // By index: an adapter of `iter_mut`, as `zip`, tells a proof nothing of what is written through it.
    for n in 0..Limits::NAMES {
        both[n] = either_root(init[n], main[n]);
    }
}
