// Where parts of the work bytes stand, as ranges: a part is `&work[ranges::frame(goals, i)]`.
ghost use Rattle.std.specs.Prelude.{◌≡◌, ◌+◌, ◌≤◌};
ghost use Rattle.layout.specs.Blocks.{block_size};
ghost use Rattle.layout.specs.Frame.{frame_size};
ghost use Rattle.layout.specs.Entry.{entry_size};
ghost use Rattle.layout.specs.Work.{frame_start, entry_start_from, merged_start};

use crate::offsets;
use std::ops::Range;

// In the graph: frame i. (Each range has a start and a size of its own, which are all that one function
// for the three would take.)
pub fn frame(goals: usize, i: usize) -> Range<usize>
    requires few { goals ≤ 64 }
    requires low { i ≤ 64 }
    ensures start { result.start ≡ frame_start goals i }
    ensures end { result.end ≡ frame_start goals i + frame_size goals }
{
    let start = offsets::frame_start(goals, i);
    start..start + offsets::frame_size(goals)
}

// In bytes that hold the entries from `base` on: entry i.
pub fn entry_from(goals: usize, base: usize, i: usize) -> Range<usize>
    requires few { goals ≤ 64 }
    requires near { base ≤ 2097152 }
    requires low { i ≤ 128 }
    ensures start { result.start ≡ entry_start_from goals base i }
    ensures end { result.end ≡ entry_start_from goals base i + entry_size goals }
{
    let start = offsets::entry_start_from(goals, base, i);
    start..start + offsets::entry_size(goals)
}

// In the workspace: the merged usages of a pick at frame i.
pub fn merged(goals: usize, i: usize) -> Range<usize>
    requires few { goals ≤ 64 }
    requires low { i ≤ 64 }
    ensures start { result.start ≡ merged_start goals i }
    ensures end { result.end ≡ merged_start goals i + block_size goals }
{
    let start = offsets::merged_start(goals, i);
    start..start + offsets::block_size(goals)
}
