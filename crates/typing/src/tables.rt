// What a check finds of the names of a book: for each the root of its definition, and where its alias chain ends.
ghost use Rattle.typing.specs.Tables.{IsBlank};

use book::read::Entry;
use environment::chain_end;
use format::Limits;

// Lent to the check and no part of its answer: by value all the way, a check of the smallest book took four times as long (docs/DECISIONS.md).
#[derive(Drop)]
pub struct Tables {
    pub roots: [u16; Limits::NAMES],
    pub ends: [u32; Limits::NAMES],
}

impl Tables {
    // They have nothing.
    pub fn new() -> Tables
        ensures { IsBlank result }
    {
        Tables {
            roots: [Entry::NO_ROOT; Limits::NAMES],
            ends: [chain_end::NONE; Limits::NAMES],
        }
    }
}
