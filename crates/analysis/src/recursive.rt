// The names to be boxed: `infer_rec`. A definition's rows are gone through in order, in the loop over the list itself. A name listed again is
// passed over: all that its definition refers to is seen by then.

use book::kinds::Kind;
use book::read::Node;
use book::tables::Flags;
use environment::scope::BookScope;
use format::Limits;
use refusals::Refusal;

// The names seen and those marked.
#[derive(Clone, Copy)]
pub struct Marks {
    pub seen: Flags,
    pub marked: Flags,
}

impl Marks {
    ghost use Rattle.std.specs.Prelude.{◌≡◌};
    ghost use Rattle.analysis.specs.Marking.{nothing_marked, Begun, InferredAs};

    // Marks before any name is listed.
    #[tactic(auto, unfolding(crate::specs::Marking::nothing_marked, book::specs::Tables::no_flags))]
    pub fn new() -> Marks
        ensures { result ≡ nothing_marked }
    {
        Marks {
            seen: [0; Limits::NAMES],
            marked: [0; Limits::NAMES],
        }
    }

    // Name by name of the list: what its definition refers to is marked, save what was seen, that is, listed before or marked already.
    // The first listed name without definition stops it.
    pub fn infer_rec(self, book: BookScope, list: &[u16]) -> Result<Marks, Refusal>
        requires { Begun book.scope.rows.now book.scope.roots.now self }
        ensures { InferredAs book.entry.scope.rows.now book.entry.scope.roots.now list.now self result }
    {
        let rows = book.scope.rows;
        let roots = book.scope.roots;
        let mut marks = self;
        let mut done: Flags = [0; Limits::NAMES];
        for name in list {
            let n = *name as usize;
            let from = environment::root_of(roots, n).ok_or(Refusal::Unbound(*name))?;
            if done[n] == 1 {
                continue;
            }
            let t = Node::at(rows, from);
            for k in from..from + t.size {
                let row = Node::at(rows, k);
                if row.kind != Kind::Var as u8 {
                    continue;
                }
                let met = row.value as usize;
                if marks.seen[met] != 1 {
                    marks.seen[met] = 1;
                    marks.marked[met] = 1;
                }
            }
            marks.seen[n] = 1;
            done[n] = 1;
        }
        Ok(marks)
    }
}
