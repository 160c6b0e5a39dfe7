// What the actor of a book offers: the arguments of its class, and its methods.
ghost use Rattle.std.specs.Prelude.{◌≡◌};

use crate::by_file::ByFile;

// The actor that a book means. One as written stands at a node; one merged from several files' services has main's node, where main has an actor.
#[derive(Clone, Copy, PartialEq, Eq, Debug)]
pub enum Actor {
    Absent,
    Written(usize),
    Merged(Option<usize>),
}

// The actor, and what it offers: the arguments of main's class are the trees from `from` up to `until`, the methods those of the services. An actor
// as written that is no service has none.
// `from` and `until` are no Range, which is no Copy, and no Siblings, which would lend the nodes.
#[derive(Clone, Copy)]
pub struct Interface {
    pub actor: Actor,
    pub from: usize,
    pub until: usize,
    pub services: ByFile,
}

impl Interface {
    ghost use Rattle.syntax.specs.Interfaces.{main_of, is_present, no_interface};

    // No actor.
    pub fn none() -> Interface
        ensures { result ≡ no_interface }
    {
        Interface {
            actor: Actor::Absent,
            from: 0,
            until: 0,
            services: ByFile::new(),
        }
    }

    // Whether there is an actor.
    #[tactic(auto, unfolding(crate::specs::Interfaces::is_present))]
    pub fn has_actor(self) -> bool
        ensures { result ≡ is_present self.actor }
    {
        self.actor != Actor::Absent
    }

    // The node of main's own actor, where it has one.
    #[tactic(auto, unfolding(crate::specs::Interfaces::main_of))]
    pub fn main(self) -> Option<usize>
        ensures { result ≡ main_of self.actor }
    {
        match self.actor {
            Actor::Absent => None,
            Actor::Written(root) => Some(root),
            Actor::Merged(main) => main,
        }
    }
}
