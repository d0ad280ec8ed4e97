// How often a goal's part was run for what the cache answers.
ghost use Rattle.std.specs.Prelude.{◌≡◌, ◌&&◌, leb};
ghost use Rattle.definition.specs.GlobalCache.{slot_held, slot_depth};
ghost use Rattle.book.specs.Read.{HeaderInRange};
ghost use Rattle.query.specs.Passes.{passes_from, passes_in, passes_of};

use definition::format::Header;
use global_cache::slot;

// Whether the success slot answers at a depth.
fn succeeds(s: &[u8], depth: usize) -> bool
    ensures { result ≡ (slot_held s.now && leb (slot_depth s.now) depth) }
{
    slot::is_held(s) && slot::depth_of(s) <= depth
}

// By the slot that answers at a depth: the success slot, or the overflow slot of that depth.
fn of_slots(success: &[u8], overflow: &[u8], depth: usize) -> u8
    ensures { result ≡ passes_from depth success.now overflow.now }
{
    if succeeds(success, depth) {
        return slot::passes_of(success);
    }
    if slot::is_held(overflow) {
        return slot::passes_of(overflow);
    }
    0
}

fn of_goal(cache: &[u8], h: Header, goal: usize, depth: usize) -> u8
    requires { HeaderInRange h }
    ensures { result ≡ passes_in h cache.now goal depth }
{
    let goals = h.goals;
    let top = h.top;
    if goals <= goal || top < depth || cache.len() != global_cache::cache_length(goals, top) {
        return 0;
    }
    let success = global_cache::slot_at(cache, goals, top, goal, 0);
    let overflow = global_cache::slot_at(cache, goals, top, goal, depth + 1);
    of_slots(success, overflow, depth)
}

// For the answer to a goal at a depth, after the query that left this cache; 0 where the
// cache has no answer, as the question program prints it.
pub fn of_answer(book: &[u8], cache: &[u8], goal: usize, depth: usize) -> u8
    ensures { result ≡ passes_of book.now cache.now goal depth }
{
    let mut starts = [0u16; 64];
    let read = book::read(book, &mut starts);
    match read {
        Err(_) => 0,
        Ok(h) => of_goal(cache, h, goal, depth),
    }
}
