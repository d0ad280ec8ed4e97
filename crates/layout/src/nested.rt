// Nested goals: a byte for each goal, the paths to it, 0 where it is not nested.
ghost use Rattle.std.specs.Prelude.{◌≡◌, ℕ, ◌+◌, ◌-◌, ◌^◌, ◌≤◌, leb, length, take, fold, bit_or};
ghost use Rattle.definition.specs.Nested.{nested_empty, insert_nested, extend_from_child};
ghost use Rattle.definition.specs.CacheForm.{all_at_most};
ghost use Rattle.layout.specs.Copied.{Extended};

use definition::paths;
use definition::paths::PathKind;

// Paths to a goal.
pub fn insert(nested: &mut [u8], goal: usize, paths: u8)
    ensures { nested.new ≡ insert_nested nested.old goal paths }
{
    let before = buffer::get(nested, goal);
    buffer::put(nested, goal, before | paths);
}

// The nested goals of a child, by one step more, as far as both go, and the paths to the child's
// together. What the step replaces is worked out before the loop.
fn extend(nested: &mut [u8], step: PathKind, child: &[u8]) -> u8
    ensures extended { nested.new ≡ extend_from_child nested.old step child.now }
    ensures joined { result ≡ fold bit_or 0 (take (length nested.old) child.now) }
{
    let weaker = step.weaker_flags();
    let flag = step.flag();
    let mut all = 0;
    for i in 0..nested.len().min(child.len()) {
        let paths = child[i];
        nested[i] |= paths::replace_weaker(paths, weaker, flag);
        all |= paths;
    }
    all
}

// The nested goals of a child, by one step more.
pub fn extend_from_child(nested: &mut [u8], step: PathKind, child: &[u8])
    ensures { nested.new ≡ extend_from_child nested.old step child.now }
{
    extend(nested, step, child);
}

// The same in one buffer: the goals from `to` on, with those of a child from `from` on. Whether
// the child has none.
pub fn extend_within(s: &mut [u8], to: usize, from: usize, goals: usize, step: PathKind) -> bool
    requires { (to + goals ≤ from) × (from + goals ≤ length s.old) }
    ensures { Extended to from goals step s.old s.new result }
{
    let (low, high) = s.split_at_mut(from);
    extend(&mut low[to..to + goals], step, &high[..goals]) == 0
}

// The paths to all of them together: they tell the bound 2 ^ k - 1 of every byte.
pub fn all_paths(nested: &[u8]) -> u8
    ensures { (k : ℕ) → leb result (2 ^ k - 1) ≡ all_at_most (2 ^ k - 1) nested.now }
{
    nested.iter().fold(0, |flags, paths| flags | paths)
}

// Whether no goal is nested.
pub fn is_empty(nested: &[u8]) -> bool
    ensures { result ≡ nested_empty nested.now }
{
    all_paths(nested) == 0
}
