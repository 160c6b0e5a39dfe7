// Numbers for some of a book's files, in order: at most one for each.
ghost use Rattle.std.specs.Prelude.{◌≡◌, List, [], ◌∷◌, ℕ, ◌+◌, ◌≤◌, ◌<◌, ◌++◌, length, eqb};

use format::Limits;
use std::marker::Model;

// The first `count` places hold them, and the others 0. A contract sees their list. It is no ArrayVec, which is no Copy: `Files`, `Interface` and
// typing's `Passed` hold these numbers, and without Copy they would ask more of who copies one.
#[derive(Clone, Copy)]
pub struct ByFile {
    count: usize,
    numbers: [u16; Limits::FILES],
}

impl Model for ByFile {
    ghost use Rattle.std.specs.Prelude.{List, ℕ};

    ghost Value = { List ℕ };

    ghost use Rattle.syntax.specs.ByFile.{numbers_of, filled, IsFilled, filled-back};

    ghost view = { numbers_of };

    ghost invariant = { IsFilled };

    ghost inverse = { filled };

    ghost inverse_ok = { filled-back };
}

impl From<Option<u16>> for ByFile {
    ghost use Rattle.std.specs.Prelude.{◌≡◌};
    ghost use Rattle.std.specs.Option.{option_to_list};

    ghost from_gives = { λ number b. b ≡ option_to_list number };

    fn from(number: Option<u16>) -> ByFile {
        let mut one = ByFile::new();
        if let Some(n) = number {
            one.push(n);
        }
        one
    }
}

impl ByFile {
    // None.
    pub fn new() -> ByFile
        ensures { result ≡ [] }
    {
        ByFile {
            count: 0,
            numbers: [0; Limits::FILES],
        }
    }

    // One more.
    pub fn push(&mut self, number: u16)
        requires { length self.old < 16 }
        ensures { self.new ≡ self.old ++ number ∷ [] }
    {
        self.numbers[self.count] = number;
        self.count += 1;
    }

    // All of them.
    pub fn as_slice(&self) -> &[u16]
        ensures all { result.now ≡ self.now }
        ensures few { length self.now ≤ 16 }
    {
        &self.numbers[..self.count]
    }

    // Whether there are none.
    pub fn is_empty(&self) -> bool
        ensures { result ≡ eqb (length self.now) 0 }
    {
        self.count == 0
    }
}
