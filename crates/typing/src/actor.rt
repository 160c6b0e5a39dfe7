// The walk over an actor: `check_actor` of typing.rs, on the interface of the resolved actor.

use crate::types::Walk;
use book::kinds::Kind;
use book::read::Node;
use refusals::{Refusal, Verdict};
use syntax::interface::{Actor, Interface};

impl Walk<'_, '_> {
    ghost use Rattle.std.specs.Prelude.{◌≡◌, false, List, ◌<◌, IsSome};
    ghost use Rattle.format.specs.Book.{Definition};
    ghost use Rattle.format.specs.Whole.{tree_at};
    ghost use Rattle.judgement.specs.Check.{check_forest, actor_verdict};
    ghost use Rattle.judgement.specs.WellFormed.{below_top};
    ghost use Rattle.syntax.specs.Interfaces.{IsMerged, interface_tree};
    ghost use Rattle.typing.specs.Types.{Under};
    ghost use Rattle.typing.specs.Actors.{ActorOf};

    // The children of a class, or another type.
    fn check_top(&self, n: usize) -> Verdict
        requires { n < self.now.env.scope.nodes }
        ensures { Under self.now (λ pre ds. result ≡ check_forest pre false ds (below_top (tree_at self.now.env.scope.rows.now n))) }
    {
        let t = Node::at(self.env.scope.rows, n);
        if t.kind == Kind::Class as u8 {
            self.check_types(false, n + 1, n + t.size)?;
            return Ok(());
        }
        self.check_type(n)
    }

    // An actor merged from services: main's arguments, and then the methods of each.
    fn check_merged(&self, interface: &Interface) -> Verdict
        requires { (ds : List Definition) × ActorOf self.now interface.now ds × IsMerged interface.now.actor }
        ensures { IsSome self.now.ends → Under self.now (λ pre ds. ActorOf self.now interface.now ds → IsMerged interface.now.actor →
            result ≡ actor_verdict ds (interface_tree self.now.env.scope.rows.now interface.now)) }
    {
        self.check_types(false, interface.from, interface.until)?;
        for service in interface.services.as_slice() {
            self.check_type(*service as usize)?;
        }
        Ok(())
    }

    // The actor, where there is one: 3, 4, 5, 6 and 9 in the walk, and then 10: one as written that is no service below its top has none.
    pub(crate) fn check_actor(&self, interface: &Interface) -> Verdict
        requires { (ds : List Definition) × ActorOf self.now interface.now ds }
        ensures { IsSome self.now.ends → Under self.now (λ pre ds. ActorOf self.now interface.now ds →
            result ≡ actor_verdict ds (interface_tree self.now.env.scope.rows.now interface.now)) }
    {
        match interface.actor {
            Actor::Absent => Ok(()),
            Actor::Written(root) => {
                self.check_top(root)?;
                if interface.services.is_empty() {
                    return Err(Refusal::NoService);
                }
                Ok(())
            }
            Actor::Merged(_) => self.check_merged(interface),
        }
    }
}
