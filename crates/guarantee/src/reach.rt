// Which goals call which, and which reach which: a mask of goals for each goal.
ghost use Rattle.std.specs.Prelude.{◌≡◌, ◌&&◌, ◌<◌, length, get_or};
ghost use Rattle.definition.specs.Part.{Book};
ghost use Rattle.book.specs.Read.{IsAccepted, book_in};
ghost use Rattle.soundness.specs.Groups.{towards, reaches};
ghost use Rattle.guarantee.specs.Engine.{in_mask, meets, IsMask, CallMasks, ReachMasks, IsGroup};

use crate::steps;

// Whether two masks have a goal in common.
fn meet(a: u64, b: u64) -> bool
    ensures { result ≡ meets a b }
{
    a & b != 0
}

// For each goal the goals that its part calls. A goal beyond the masks calls nothing.
pub fn calls(book: &[u8]) -> [u64; 64]
    requires { IsAccepted book.now }
    ensures { CallMasks (book_in book.now) result }
{
    let mut masks = [0u64; 64];
    for s in steps::of_book(book) {
        if s.caller < 64 {
            masks[s.caller] = bits::with(masks[s.caller], s.goal);
        }
    }
    masks
}

// The goal itself, and the goals that call one of the mask. Masks are a slice of 64, as `masks` and `group` take them:
// they are public, and a `&[u64; 64]` would ask more of who calls them.
fn toward(calls: &[u64], goal: usize, m: u64) -> u64
    requires { (length calls.now ≡ 64) × (goal < 64) }
    ensures { (b : Book) → CallMasks b calls.now → IsMask (towards b goal (in_mask m)) result }
{
    let mut r = bits::with(0, goal);
    for i in 0..64 {
        if meet(calls[i], m) {
            r = bits::with(r, i);
        }
    }
    r
}

// The goals that reach a goal.
fn reaching(calls: &[u64], goals: usize, goal: usize) -> u64
    requires { (length calls.now ≡ 64) × (goal < 64) }
    ensures { (b : Book) → CallMasks b calls.now → b.header.goals ≡ goals
        → IsMask (λ from. reaches b from goal) result }
{
    let mut m = bits::with(0, goal);
    for _round in 0..goals {
        m = toward(calls, goal, m);
    }
    m
}

// For each goal the goals that reach it.
pub fn masks(calls: &[u64], goals: usize) -> [u64; 64]
    requires { length calls.now ≡ 64 }
    ensures { (b : Book) → CallMasks b calls.now → b.header.goals ≡ goals → ReachMasks b result }
{
    let mut masks = [0u64; 64];
    for goal in 0..64 {
        masks[goal] = reaching(calls, goals, goal);
    }
    masks
}

// Whether each of two goals reaches the other.
fn linked(reach: &[u64], g: usize, k: usize) -> bool
    requires { (g < length reach.now) × (k < length reach.now) }
    ensures { result ≡ in_mask (get_or reach.now k 0) g && in_mask (get_or reach.now g 0) k }
{
    bits::has(reach[k], g) && bits::has(reach[g], k)
}

// The goals that are linked to a goal.
pub fn group(reach: &[u64], g: usize) -> u64
    requires { length reach.now ≡ 64 }
    ensures { (b : Book) → ReachMasks b reach.now → g < 64 → IsGroup b g result }
{
    if 64 <= g {
        return 0;
    }
    let mut m = 0;
    for k in 0..64 {
        if linked(reach, g, k) {
            m = bits::with(m, k);
        }
    }
    m
}
