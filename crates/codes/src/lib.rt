// Verdicts and answers as one number each, for programs in other languages. Each coder promises the number (`answer`) and that the arithmetic
// of include/ludzepin.h gives back from it what is said (`read`).
#![tactic(auto)]

ghost use Rattle.std.specs.Prelude.{◌≡◌, ℕ, ◌≤◌, ◌<◌, ◌/◌, ◌%◌};
ghost use Rattle.refusals.specs.Refusal.{needed_of};
ghost use Rattle.codes.specs.Coded.{coded, low_of, coded_by, coded_answer, coded_uses, coded_alias, coded_count, listed_of, Below, small, wide, SaysAnswer, ReadVerdict, ReadAnswer, ReadUses, ReadAlias, ReadCount};

use refusals::{AliasAnswer, Answer, Count, CountAnswer, Refusal, UseCountsAnswer, Verdict};

// A refusal's number stands above what it tells: a name's number, or the entries needed. The C interface asks for one number, so this is no enum.
const BELOW: u64 = 65536;

// There may be more uses.
const BELOW_USES: u64 = 4294967296;

// A verdict as one number.
#[tactic(auto, unfolding(crate::specs::Coded::coded))]
pub fn code(v: Verdict) -> u32
    ensures answer { result ≡ coded v }
    ensures read { ReadVerdict v result }
{
    match v {
        Ok(()) => 0,
        Err(why) => (u64::from(why.number()) * BELOW + u64::from(why.name())) as u32,
    }
}

// The low bits of a refusal's number.
#[tactic(auto, unfolding(crate::specs::Coded::low_of))]
fn low(why: Refusal) -> u32
    ensures is { result ≡ low_of why }
    ensures below { (unit : ℕ) → 65536 ≤ unit → needed_of why < unit → result < unit }
{
    match why {
        Refusal::Short(needed) => needed,
        _ => u32::from(why.name()),
    }
}

// An answer as one number, where entries that are given or needed are below UNIT, and a refusal's number stands above. That they are is asked here and
// by the two of this that C has: a type of such answers would ask more of who has an Answer.
#[tactic(auto, unfolding(crate::specs::Coded::coded_by))]
fn by_unit<const UNIT: u64>(a: Answer) -> u64
    requires names { 65536 ≤ UNIT }
    requires fits { UNIT ≤ 4294967296 }
    requires entries { Below UNIT a }
    ensures answer { result ≡ coded_by UNIT a }
    ensures read { SaysAnswer a (result / UNIT) (result % UNIT) (result % UNIT) }
{
    match a {
        Ok(n) => n as u64,
        Err(why) => u64::from(why.number()) * UNIT + u64::from(low(why)),
    }
}

// An answer as one number.
pub fn answer_code(a: Answer) -> u32
    requires { Below small a }
    ensures answer { result ≡ coded_answer a }
    ensures read { ReadAnswer a result }
{
    by_unit::<BELOW>(a) as u32
}

// The same for uses. What is asked keeps entries apart from refusals.
pub fn uses_code(a: Answer) -> u64
    requires { Below wide a }
    ensures answer { result ≡ coded_uses a }
    ensures read { ReadUses a result }
{
    by_unit::<BELOW_USES>(a)
}

// The same for a uses report: how many definitions are listed. The total is the sum of what stands in the lent list.
#[tactic(auto, unfolding(crate::specs::Coded::listed_of))]
pub fn use_counts_code(a: UseCountsAnswer) -> u64
    requires { Below wide (listed_of a) }
    ensures answer { result ≡ coded_uses (listed_of a) }
    ensures read { ReadUses (listed_of a) result }
{
    match a {
        Ok(c) => uses_code(Ok(c.listed)),
        Err(why) => uses_code(Err(why)),
    }
}

// The same for an alias chain: the names crossed stand above the last of them.
#[tactic(auto, unfolding(crate::specs::Coded::coded_alias))]
pub fn alias_code(a: AliasAnswer) -> u64
    ensures answer { result ≡ coded_alias a }
    ensures read { ReadAlias a result }
{
    match a {
        Ok(c) => u64::from(c.names) * BELOW + u64::from(c.last),
        Err(why) => by_unit::<BELOW_USES>(Err(why)),
    }
}

// The same for the values of a name: many is the largest number that there is.
#[tactic(auto, unfolding(crate::specs::Coded::coded_count))]
pub fn count_code(a: CountAnswer) -> u64
    ensures answer { result ≡ coded_count a }
    ensures read { ReadCount a result }
{
    match a {
        Ok(Count::Exactly(n)) => u64::from(n),
        Ok(Count::Many) => u64::MAX,
        Err(why) => by_unit::<BELOW_USES>(Err(why)),
    }
}
