// How many values a name's definition has. Who asks of several names, as the program values does, lets the book be counted once.
ghost use Rattle.std.specs.Prelude.{◌≡◌, replicate};
ghost use Rattle.refusals.specs.Handed.{count_answer};
ghost use Rattle.listing.specs.Values.{values};
ghost use Rattle.passed.specs.Values.{Counted};

use crate::CheckedBook;
use environment::scope::Scope;
use inhabitants::counting::NodeValues;
use refusals::{CountAnswer, Refusal};

impl CheckedBook<'_> {
    ghost use Rattle.passed.specs.Checked.{book_of};

    // Counts the values of all its definitions.
    pub fn count_values(&self, numbers: &mut NodeValues)
        requires { numbers.old.numbers ≡ replicate 4096 4294967296 }
        ensures { Counted self.now numbers.new }
    {
        numbers.count(Scope::of(self.book, &self.tables.roots));
    }

    // Those of one name, once they are counted.
    pub fn values_in(&self, numbers: &NodeValues, name: u16) -> CountAnswer
        requires { Counted self.now numbers.now }
        ensures { result ≡ count_answer (values (book_of self.now) name) }
    {
        let Some(root) = environment::root_of(&self.tables.roots, name as usize) else {
            return Err(Refusal::Unbound(name));
        };
        Ok(numbers.of(root))
    }

    pub fn values(&self, name: u16) -> CountAnswer
        ensures { result ≡ count_answer (values (book_of self.now) name) }
    {
        let mut numbers = NodeValues::new();
        self.count_values(&mut numbers);
        self.values_in(&numbers, name)
    }
}
