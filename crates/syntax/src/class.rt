// A class's arguments and what stands below its top, cut here alone.
ghost use Rattle.std.specs.Prelude.{ℕ, ◌+◌, ◌<◌, IfSome};
ghost use Rattle.environment.specs.Trees.{AllTrees};
ghost use Rattle.syntax.specs.Classes.{LastAs, TopFound};

use book::kinds::Kind;
use book::read::Node;
use book::walks::Siblings;

// The arguments of an actor that is a class are the trees from `from` up to `until`; what stands below a class's top is its last child, and
// another type itself.
#[derive(Clone, Copy)]
pub struct Top {
    pub from: usize,
    pub until: usize,
    pub below: usize,
}

// The last of these trees, of which there is one at least.
fn last_child(trees: Siblings) -> usize
    requires { trees.at < trees.until }
    ensures { LastAs trees.entry.rows.now trees.entry.at trees.entry.until result }
{
    trees.last().map_or(trees.at, |(n, _)| n)
}

// The top of an actor of this root; none where there is no root.
pub fn top_of(rows: &[u8], root: Option<usize>) -> Option<Top>
    requires { (names nodes : ℕ) × AllTrees rows.now names nodes × IfSome root (λ n. n < nodes) }
    ensures { (names nodes : ℕ) → AllTrees rows.now names nodes → IfSome root (λ n. n < nodes) → TopFound rows.now nodes root result }
{
    let n = root?;
    let t = Node::at(rows, n);
    if t.kind != Kind::Class as u8 {
        return Some(Top {
            from: 0,
            until: 0,
            below: n,
        });
    }
    let last = last_child(Siblings::new(rows, n + 1, n + t.size));
    Some(Top {
        from: n + 1,
        until: last,
        below: last,
    })
}
