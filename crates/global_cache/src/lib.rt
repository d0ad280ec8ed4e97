// global_cache.rs, in bytes: document 01's notebook. For each goal T + 2 slots: the
// success slot, then an overflow slot for each required depth 0 to T.
#![tactic(auto)]

ghost use Rattle.std.specs.Prelude.{◌≡◌, List, ℕ, ◌+◌, ◌*◌, ◌≤◌, ◌<◌, length, OnErr};
ghost use Rattle.definition.specs.declared.answers.Answer.{Answer};
ghost use Rattle.definition.specs.declared.replies.Refusal.TheVariants.{CacheConflict};
ghost use Rattle.definition.specs.GlobalCache.{slot_at, slot_for, cache_insert};
ghost use Rattle.definition.specs.CacheForm.{cache_length};
ghost use Rattle.global_cache.specs.Cache.{header_with, Sizes, CacheBytes, overflow_slots, evaluated, inserted};

use definition::answers::Answer;
use definition::replies::Refusal;

pub mod form;
pub mod slot;

// The slot that a result belongs to holds a different one.
#[derive(Debug, Clone, Copy, PartialEq, Eq)]
pub struct Conflict;

impl From<Conflict> for Refusal {
    ghost from_gives = { λ _ refusal. refusal ≡ CacheConflict };

    fn from(_conflict: Conflict) -> Refusal {
        Refusal::CacheConflict
    }
}

pub fn cache_length(goals: usize, top: usize) -> usize
    requires { Sizes goals top }
    ensures { result ≡ cache_length (header_with goals top) }
{
    goals * (top + 2) * (goals + slot::FIELDS)
}

// Where the slot after `place` others starts.
fn start_of(goals: usize, top: usize, place: usize) -> usize
    requires { Sizes goals top × (place < goals * (top + 2)) }
    ensures { (result ≡ place * (goals + 4)) × (result + (goals + 4) ≤ goals * (top + 2) * (goals + 4)) × (result < 282880) }
{
    place * (goals + slot::FIELDS)
}

// The bytes stay the caller's, with the header's two sizes beside them: a struct of the three would
// be made anew at each call, once lent to read and once to write, and say no more.

// A goal's slot; nothing where it would lie past the end.
pub fn slot_at(cache: &[u8], goals: usize, top: usize, goal: usize, slot: usize) -> &[u8]
    requires { CacheBytes goals top cache.now × (goal < goals) }
    ensures { result.now ≡ slot_at (header_with goals top) cache.now goal slot }
{
    let first = goal * (top + 2);
    let all = goals * (top + 2);
    if all - first <= slot {
        return &cache[0..0];
    }
    let a = start_of(goals, top, first + slot);
    let e = a + (goals + slot::FIELDS);
    &cache[a..e]
}

// A goal's overflow slots, one behind the other.
fn overflow_slots(cache: &[u8], goals: usize, top: usize, goal: usize) -> &[u8]
    requires { CacheBytes goals top cache.now × (goal < goals) }
    ensures { result.now ≡ overflow_slots (header_with goals top) cache.now goal }
{
    let start = start_of(goals, top, goal * (top + 2) + 1);
    let end = start + (top + 1) * (goals + slot::FIELDS);
    &cache[start..end]
}

// The slot that a result belongs to.
fn slot_for(overflow: bool, required: usize) -> usize
    requires { required ≤ 63 }
    ensures { (result ≤ required + 1) × ((nested : List ℕ) (answer : Answer) (passes : ℕ) → result
        ≡ slot_for (evaluated overflow required nested answer passes)) }
{
    if overflow {
        return required + 1;
    }
    0
}

// GlobalCache::insert; an equal result replaces the entry.
// What is inserted stands in arguments of its own: a struct of them would be made for one call.
pub fn insert(
    cache: &mut [u8],
    goals: usize,
    top: usize,
    goal: usize,
    overflow: bool,
    required: usize,
    res: Answer,
    passes: usize,
    nested: &[u8],
) -> Result<(), Conflict>
    requires { CacheBytes goals top cache.old × (goal < goals) × (required ≤ top)
        × (passes < 256) × (length nested.now ≡ goals) }
    ensures passes_value { cache_insert (header_with goals top) cache.old goal
        (evaluated overflow required nested.now res passes) ≡ inserted result cache.new }
    ensures unchanged { OnErr result (cache.new ≡ cache.old) }
{
    let slot = slot_for(overflow, required);
    let place = goal * (top + 2) + slot;
    let a = start_of(goals, top, place);
    let e = a + (goals + slot::FIELDS);
    let n = u8::from(res);
    if slot::conflicts(&cache[a..e], n) {
        return Err(Conflict);
    }
    slot::write(&mut cache[a..e], n, required as u8, passes as u8, nested);
    Ok(())
}
