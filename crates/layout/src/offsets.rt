// Where frames, entries and merged usages start, and how long they are.
ghost use Rattle.std.specs.Prelude.{◌≡◌, ◌*◌, ◌≤◌};
ghost use Rattle.definition.specs.Query.{work_length};
ghost use Rattle.layout.specs.Blocks.{heads_size, block_size};
ghost use Rattle.layout.specs.Frame.{candidate_start, nested_start, counts_start, frame_size};
ghost use Rattle.layout.specs.Entry.{entry_size};
ghost use Rattle.layout.specs.Work.{frame_start, entries_start, entry_start_from, entry_start};
ghost use Rattle.layout.specs.Work.{graph_length, merged_start};

// ---- the fields of a frame: a byte each, flags and numbers, since C lends the buffer; `stack` hands
// them out as options and enums
pub const FRAME_INPUT: usize = 0;

pub const FRAME_STEP: usize = 1;

pub const FRAME_AVAILABLE: usize = 2;

pub const FRAME_REACHED: usize = 3;
// 0 where there is no provisional result, else one more than its number.
pub const FRAME_PROVISIONAL: usize = 4;

pub const FRAME_OVERFLOW: usize = 5;
// Whether there are usages: the frame is a cycle head.
pub const FRAME_IS_HEAD: usize = 6;
// Whether there are candidate usages: the frame tracks a candidate.
pub const FRAME_TRACKS: usize = 7;
// The fields end, and usages start.
pub const FRAME_USAGES: usize = 8;

pub const FRAME_HEADS: usize = 40;

// ---- the fields of an entry
pub const ENTRY_INPUT: usize = 0;

pub const ENTRY_OVERFLOW: usize = 1;

pub const ENTRY_PATH: usize = 2;

pub const ENTRY_RESULT: usize = 3;

pub const ENTRY_HEADS: usize = 4;

// ---- sizes and starts
pub fn heads_size(goals: usize) -> usize
    requires { goals ≤ 64 }
    ensures { result ≡ heads_size goals }
{
    8 + goals * 33
}

pub fn block_size(goals: usize) -> usize
    requires { goals ≤ 64 }
    ensures { result ≡ block_size goals }
{
    8 + goals * 32
}

// In a frame: candidate usages, nested goals, and the counts of steps.
pub fn candidate_start(goals: usize) -> usize
    requires { goals ≤ 64 }
    ensures { result ≡ candidate_start goals }
{
    48 + goals * 33
}

pub fn nested_start(goals: usize) -> usize
    requires { goals ≤ 64 }
    ensures { result ≡ nested_start goals }
{
    56 + goals * 65
}

pub fn counts_start(goals: usize) -> usize
    requires { goals ≤ 64 }
    ensures { result ≡ counts_start goals }
{
    56 + goals * 66
}

pub fn frame_size(goals: usize) -> usize
    requires { goals ≤ 64 }
    ensures { result ≡ frame_size goals }
{
    64 + goals * 66
}

pub fn entry_size(goals: usize) -> usize
    requires { goals ≤ 64 }
    ensures { result ≡ entry_size goals }
{
    12 + goals * 33
}

fn times(a: usize, b: usize) -> usize
    requires { (a ≤ 256) × (b ≤ 8192) }
    ensures { (result ≡ a * b) × (result ≤ 2097152) }
{
    a * b
}

// In the graph: a frame, the first entry, and any entry.
pub fn frame_start(goals: usize, i: usize) -> usize
    requires { (goals ≤ 64) × (i ≤ 64) }
    ensures { (result ≡ frame_start goals i) × (result ≤ 2097152) }
{
    times(i, frame_size(goals))
}

pub fn entries_start(goals: usize) -> usize
    requires { goals ≤ 64 }
    ensures { (result ≡ entries_start goals) × (result ≤ 2097152) }
{
    frame_start(goals, goals)
}

pub fn entry_start(goals: usize, i: usize) -> usize
    requires { (goals ≤ 64) × (i ≤ 128) }
    ensures { (result ≡ entry_start goals i) × (result ≤ 4194304) }
{
    entries_start(goals) + times(i, entry_size(goals))
}

// In bytes that hold the entries from `base` on: an entry.
pub fn entry_start_from(goals: usize, base: usize, i: usize) -> usize
    requires { (goals ≤ 64) × ((base ≤ 2097152) × (i ≤ 128)) }
    ensures { (result ≡ entry_start_from goals base i) × (result ≤ 4194304) }
{
    base + times(i, entry_size(goals))
}

pub fn graph_length(goals: usize) -> usize
    requires { goals ≤ 64 }
    ensures { (result ≡ graph_length goals) × (result ≤ 4194304) }
{
    entry_start(goals, 2 * goals)
}

// In the workspace: the merged usages of a pick at frame i.
pub fn merged_start(goals: usize, i: usize) -> usize
    requires { (goals ≤ 64) × (i ≤ 64) }
    ensures { (result ≡ merged_start goals i) × (result ≤ 6291456) }
{
    graph_length(goals) + times(i, block_size(goals))
}

pub fn work_length(goals: usize) -> usize
    requires { goals ≤ 64 }
    ensures { (result ≡ work_length goals) × (result ≤ 2097152) }
{
    times(4 * goals, 41 * goals + 24)
}
