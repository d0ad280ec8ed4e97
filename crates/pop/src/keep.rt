// Entries that are kept move to the front.
ghost use Rattle.std.specs.Prelude.{◌*◌, ◌≤◌, ◌<◌};
ghost use Rattle.layout.specs.Work.{entry_from};
ghost use Rattle.provisional_cache.specs.Entries.{EntriesBytes};
ghost use Rattle.pop.specs.Kept.{Compacted};
ghost use Rattle.pop.specs.Rebased.{EntryWritten};

use layout::{heads, offsets};

// Entry `from` takes the place of entry `to`, which does not come after it: its fields, and the
// heads that it has.
fn move_entry(bytes: &mut [u8], goals: usize, base: usize, from: usize, to: usize)
    requires { EntriesBytes goals base bytes.old × ((to ≤ from) × (from < 2 * goals)) }
    ensures { EntryWritten goals base to (entry_from goals base from bytes.old)
        bytes.old bytes.new }
{
    if from == to {
        return;
    }
    let source = offsets::entry_start_from(goals, base, from);
    let target = offsets::entry_start_from(goals, base, to);
    buffer::copy_within(bytes, source, target, offsets::ENTRY_HEADS);
    let a = source + offsets::ENTRY_HEADS;
    let b = target + offsets::ENTRY_HEADS;
    heads::copy(bytes, goals, a, b);
}

// Entry i is put after the `kept` first ones, where it is to be kept: how many these are
// then.
pub fn keep_if(
    bytes: &mut [u8],
    goals: usize,
    base: usize,
    keep: bool,
    i: usize,
    kept: usize,
) -> usize
    requires { EntriesBytes goals base bytes.old × ((kept ≤ i) × (i < 2 * goals)) }
    ensures { Compacted goals base i kept keep bytes.old bytes.new result }
{
    if !keep {
        return kept;
    }
    move_entry(bytes, goals, base, i, kept);
    kept + 1
}
