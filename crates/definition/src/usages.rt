// Usages of cycle heads.
ghost use Rattle.std.specs.Prelude.{◌≡◌};
ghost use Rattle.definition.specs.Usages.{add_counter, subtract_counter, counter_covers, no_usages, one_usage, add_usages, ignore_usages, usages_cover, is_empty, is_single};

use crate::paths::PathKind;

// How often a cycle head was used, by the kind of the cycle.
#[derive(Debug, Clone, Copy, PartialEq, Eq)]
pub struct HeadUsages {
    pub inductive: u64,
    pub unknown: u64,
    pub coinductive: u64,
    pub forced: u64,
}

// A counter that comes to the limit stays there.
const LIMIT: u64 = 4294967296;

// The sum of two counters, or the limit; a counter at the limit keeps its value. (By `saturating_add`
// and `min` the compiler adds the four counters of a head one by one: books with picks take 2 to 3 % more
// instructions.)
#[tactic(auto, using(crate::proofs::Counters::by_limit), unfolding(crate::specs::Usages::counter_limit))]
fn add(a: u64, b: u64) -> u64
    ensures { result ≡ add_counter a b }
{
    if LIMIT <= a {
        return a;
    }
    if LIMIT - a <= b {
        return LIMIT;
    }
    a + b
}

// The difference of two counters, 0 where b is larger; a counter at the limit keeps
// its value.
#[tactic(auto, using(crate::proofs::Counters::by_limit), unfolding(crate::specs::Usages::counter_limit))]
fn subtract(a: u64, b: u64) -> u64
    ensures { result ≡ subtract_counter a b }
{
    if LIMIT <= a {
        return a;
    }
    a.saturating_sub(b)
}

#[tactic(auto, using(crate::proofs::Counters::by_limit), unfolding(crate::specs::Usages::counter_limit))]
fn covers(a: u64, b: u64) -> bool
    ensures { result ≡ counter_covers a b }
{
    LIMIT <= a || b <= a
}

// One more; a counter at the limit keeps its value.
pub fn count_one(a: u64) -> u64
    ensures { result ≡ add_counter a 1 }
{
    add(a, 1)
}

impl HeadUsages {
    pub fn none() -> HeadUsages
        ensures { result ≡ no_usages }
    {
        HeadUsages {
            inductive: 0,
            unknown: 0,
            coinductive: 0,
            forced: 0,
        }
    }

    // One usage of a kind.
    pub fn one(kind: PathKind) -> HeadUsages
        ensures { result ≡ one_usage kind }
    {
        let mut usages = HeadUsages::none();
        match kind {
            PathKind::Inductive => usages.inductive = 1,
            PathKind::Unknown => usages.unknown = 1,
            PathKind::Coinductive => usages.coinductive = 1,
            PathKind::ForcedAmbiguity => usages.forced = 1,
        }
        usages
    }

    pub fn add_usages(self, other: HeadUsages) -> HeadUsages
        ensures { result ≡ add_usages self other }
    {
        self.joined(other, add)
    }

    pub fn ignore_usages(self, other: HeadUsages) -> HeadUsages
        ensures { result ≡ ignore_usages self other }
    {
        self.joined(other, subtract)
    }

    // The counters of both, joined kind by kind.
    fn joined<F: Fn(u64, u64) -> u64>(self, other: HeadUsages, join: F) -> HeadUsages
        requires { F.IsAlwaysCallable join }
        ensures inductive { F.post join self.inductive other.inductive result.inductive }
        ensures unknown { F.post join self.unknown other.unknown result.unknown }
        ensures coinductive { F.post join self.coinductive other.coinductive result.coinductive }
        ensures forced { F.post join self.forced other.forced result.forced }
    {
        HeadUsages {
            inductive: join(self.inductive, other.inductive),
            unknown: join(self.unknown, other.unknown),
            coinductive: join(self.coinductive, other.coinductive),
            forced: join(self.forced, other.forced),
        }
    }

    // Whether `ignore_usages` takes no more away than there is.
    pub fn covers(self, other: HeadUsages) -> bool
        ensures { result ≡ usages_cover self other }
    {
        covers(self.inductive, other.inductive)
            && covers(self.unknown, other.unknown)
            && covers(self.coinductive, other.coinductive)
            && covers(self.forced, other.forced)
    }

    pub fn is_empty(self) -> bool
        ensures { result ≡ is_empty self }
    {
        self == HeadUsages::none()
    }

    // Whether every usage is of one kind; none at all is single too. A head without usages
    // left, because those of its candidates were ignored, is at its fixpoint where its result
    // is the initial one: nothing read another.
    pub fn is_single(self, kind: PathKind) -> bool
        ensures { result ≡ is_single self kind }
    {
        match kind {
            PathKind::Inductive => self.unknown == 0 && self.coinductive == 0 && self.forced == 0,
            PathKind::Unknown => self.inductive == 0 && self.coinductive == 0 && self.forced == 0,
            PathKind::Coinductive => self.inductive == 0 && self.unknown == 0 && self.forced == 0,
            PathKind::ForcedAmbiguity => self.inductive == 0
                && self.unknown == 0
                && self.coinductive == 0,
        }
    }
}
