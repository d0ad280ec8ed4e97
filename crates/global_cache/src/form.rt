// The form of a cache's bytes.
ghost use Rattle.std.specs.Prelude.{◌≡◌, ◌&&◌, ◌+◌, ◌≤◌, ◌<◌, eqb, leb, get_or, length, take};
ghost use Rattle.definition.specs.CacheForm.{all_at_most, depth_fits, passes_fit, slot_fits, slots_fit, cache_fits};
ghost use Rattle.global_cache.specs.Cache.{CacheBytes};

use definition::format::Header;
use layout::nested;

// Whether a required depth fits a goal's slot: any up to T the success slot, its own
// number an overflow slot.
fn depth_fits(h: Header, slot: usize, depth: usize) -> bool
    requires { depth < 256 }
    ensures { result ≡ depth_fits h slot depth }
{
    if slot == 0 {
        return depth <= h.top;
    }
    depth + 1 == slot
}

// Whether a part may have been run so often: once, or up to L times.
fn passes_fit(h: Header, passes: usize) -> bool
    ensures { result ≡ passes_fit h passes }
{
    1 <= passes && passes <= h.limit.max(1)
}

// Whether a slot is all zeros; `paths` are those to all nested goals together. The first
// four bytes are tested as one number.
fn is_vacant(s: &[u8], paths: u8) -> bool
    requires { 4 ≤ length s.now }
    ensures { result ≡ (all_at_most 0 (take 4 s.now) && eqb paths 0) }
{
    let low = buffer::load_pair(s, 0);
    let high = buffer::load_pair(s, 2);
    low + 65536 * high == 0 && paths == 0
}

// Whether a slot is held and in form; `paths` as above.
fn held_fits(s: &[u8], h: Header, slot: usize, paths: u8) -> bool
    requires { 4 ≤ length s.now }
    ensures { result
        ≡ (eqb (get_or s.now 0 0) 1 && leb (get_or s.now 1 0) 3 && depth_fits h slot (get_or s.now 2 0)
        && passes_fit h (get_or s.now 3 0) && leb paths 31) }
{
    s[0] == 1
        && s[1] <= 3
        && depth_fits(h, slot, usize::from(s[2]))
        && passes_fit(h, usize::from(s[3]))
        && paths <= 31
}

// Whether a slot is vacant, or held and in form. Its bytes are all read before the first
// test.
fn slot_fits(s: &[u8], h: Header, slot: usize) -> bool
    requires { 4 ≤ length s.now }
    ensures { result ≡ slot_fits h slot s.now }
{
    let paths = nested::all_paths(&s[crate::slot::FIELDS..]);
    is_vacant(s, paths) || held_fits(s, h, slot, paths)
}

// Whether the slots of a goal fit.
#[tactic(auto, using(crate::proofs::Fits::by_slot))]
fn slots_fit(cache: &[u8], h: Header, goal: usize) -> bool
    requires { CacheBytes h.goals h.top cache.now × (goal < h.goals) }
    ensures { result ≡ slots_fit h cache.now goal (h.top + 2) }
{
    let success = crate::slot_at(cache, h.goals, h.top, goal, 0);
    if !slot_fits(success, h, 0) {
        return false;
    }
    // most often no overflow slot is held
    let row = crate::overflow_slots(cache, h.goals, h.top, goal);
    if buffer::all_zero(row) {
        return true;
    }
    for slot in 1..h.top + 2 {
        let s = crate::slot_at(cache, h.goals, h.top, goal, slot);
        if !slot_fits(s, h, slot) {
            return false;
        }
    }
    true
}

// Whether every slot of a cache of the right length is in form.
#[tactic(auto, using(crate::proofs::Fits::by_goal))]
pub fn cache_fits(cache: &[u8], h: Header) -> bool
    requires { CacheBytes h.goals h.top cache.now }
    ensures { result ≡ cache_fits h cache.now }
{
    for goal in 0..h.goals {
        if !slots_fit(cache, h, goal) {
            return false;
        }
    }
    true
}
