// Which nodes fill: those that stand for a type with a value of finite height. A record waits for its fields, a variant for one of its cases, a name
// for its definition, `empty` for ever.
ghost use Rattle.inhabitants.specs.Waiting.{IsNew, kind_at};
ghost use Rattle.inhabitants.specs.Filling.{filling_wait, FillingOf};
ghost use Rattle.std.specs.Prelude.{◌≡◌, ◌<◌};

use crate::waiting::{Wait, Waiting};
use book::kinds::Kind;
use book::read::Node;
use environment::scope::Scope;

// What a node waits for.
#[tactic(auto, unfolding(crate::specs::Filling::filling_wait))]
fn wait_of(scope: Scope, n: usize) -> Wait
    requires { n < scope.nodes }
    ensures { result ≡ filling_wait (kind_at scope.entry.rows.now n) }
{
    let kind = Node::at(scope.rows, n).kind;
    if kind == Kind::Var as u8 {
        Wait::Definition
    } else if kind == Kind::Record as u8 {
        Wait::All
    } else if kind == Kind::Variant as u8 {
        Wait::One
    } else if kind == Kind::Empty as u8 {
        Wait::Ever
    } else {
        Wait::Nothing
    }
}

// Of all nodes of a scope, in tables that have nothing: a function that made them too would move them, which on a small book takes longer than all
// else. The list of those that are ready grows while it is gone through, so that no `for` goes through it.
pub(crate) fn fill(filling: &mut Waiting, scope: Scope)
    requires { IsNew filling.old }
    ensures { FillingOf scope.entry filling.new }
{
    for n in (0..scope.nodes).rev() {
        filling.enter(scope, n, wait_of(scope, n));
    }
    let mut told = 0;
    while told < filling.ready() {
        filling.tell_all(filling.ready_at(told));
        told += 1;
    }
}
