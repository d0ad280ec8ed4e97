// The provisional cache: results that depend on goals which are still on the stack, in
// the order of insertion. How many there are is no byte of the graph.
#![tactic(auto)]

ghost use Rattle.std.specs.Prelude.{◌≡◌, ◌+◌, ◌*◌, ◌≤◌, ◌<◌};
ghost use Rattle.definition.specs.declared.replies.Refusal.TheVariants.{ProvisionalCacheFull};
ghost use Rattle.definition.specs.Lookup.{none_or_above, entry_matches, entry_applies, any_entry_applies};
ghost use Rattle.layout.specs.Copied.{HeadsCopied};
ghost use Rattle.layout.specs.Frame.{heads_start};
ghost use Rattle.layout.specs.Entry.{entry_heads_start, entry_of};
ghost use Rattle.layout.specs.Work.{frame_start, entry_start, stack_of, entries_of};
ghost use Rattle.stack.specs.Bytes.{GraphBytes, StackBytes, frame_at};
ghost use Rattle.provisional_cache.specs.Entries.{EntryBytes, EntriesBytes, entry_bytes_from, entry_bytes, entry_on};
ghost use Rattle.provisional_cache.specs.Matches.{lowest_head, hidden, NextOf, FirstMatch};
ghost use Rattle.provisional_cache.specs.Inserts.{path_from_highest, Appended, Inserted};

use definition::answers::Answer;
use definition::paths::{PathKind, PathsToNested};
use definition::replies::Refusal;
use layout::{heads, offsets};
use stack::frame;

pub mod entry;

// There was no room for an entry.
#[derive(Debug, Clone, Copy, PartialEq, Eq)]
pub struct Full;

impl From<Full> for Refusal {
    ghost from_gives = { λ _ refusal. refusal ≡ ProvisionalCacheFull };

    fn from(_full: Full) -> Refusal {
        Refusal::ProvisionalCacheFull
    }
}

// The bytes of entry i.
pub fn entry_at(graph: &[u8], goals: usize, i: usize) -> &[u8]
    requires { GraphBytes goals graph.now × (i < 2 * goals) }
    ensures { result.now ≡ entry_bytes goals i graph.now }
{
    let start = offsets::entry_start(goals, i);
    let end = start + offsets::entry_size(goals);
    &graph[start..end]
}

// The same in bytes that hold the entries from `base` on. `entry_at` is not this at a graph's
// base: with that the frame of `evaluate` is longer, and a query needs more of the machine's
// stack (measured; docs/DECISIONS.md, 40).
pub fn entry_from(bytes: &[u8], goals: usize, base: usize, i: usize) -> &[u8]
    requires { EntriesBytes goals base bytes.now × (i < 2 * goals) }
    ensures { result.now ≡ entry_bytes_from goals base i bytes.now }
{
    let start = offsets::entry_start_from(goals, base, i);
    let end = start + offsets::entry_size(goals);
    &bytes[start..end]
}

// is_none_or(|lowest| lowest > head), of the lowest head of the top frame
fn none_or_above(graph: &[u8], goals: usize, height: usize, head: usize) -> bool
    requires { GraphBytes goals graph.now × (height ≤ goals) }
    ensures { result ≡ none_or_above (lowest_head goals height graph.now) head }
{
    if height == 0 {
        return true;
    }
    let hs = frame::heads(stack::frame_at(graph, goals, height - 1), goals);
    if heads::is_empty(hs, goals) {
        return true;
    }
    head < bits::lowest(heads::mask(hs, goals))
}

// Whether the entry met overflow and is hidden for that. After an overflow a slot of the
// global cache may lean on goals that its nested goals do not name, and `any_applies` cannot
// look for them. So such an entry answers only inside its own cycle: where the top frame
// depends on the entry's highest head already, or on one below it.
fn is_hidden(entry: &[u8], graph: &[u8], goals: usize, height: usize, head: usize) -> bool
    requires { EntryBytes goals entry.now × (GraphBytes goals graph.now × (height ≤ goals)) }
    ensures { result ≡ hidden goals height graph.now head (entry_of goals entry.now) }
{
    entry::encountered_overflow(entry, goals) && none_or_above(graph, goals, height, head)
}

// Whether the entry answers the goal as it is reached here: its result is right only for
// paths of one kind from its highest head to the goal.
fn is_match(
    entry: &[u8],
    graph: &[u8],
    goals: usize,
    height: usize,
    goal: usize,
    step: PathKind,
) -> bool
    requires { EntryBytes goals entry.now × StackBytes goals height graph.now }
    ensures { result
        ≡ entry_matches (stack_of goals height graph.now) goal step (entry_of goals entry.now) }
{
    if entry::input(entry, goals) != goal {
        return false;
    }
    let head = entry::highest_head(entry, goals);
    if is_hidden(entry, graph, goals, height, head) {
        return false;
    }
    let path = entry::path_from_head(entry, goals);
    path == stack::cycle_path_kind(graph, goals, height, step, head)
}

// The first entry of the goal from entry `from` on.
// Most entries are of other goals: this loop reads one byte of each and no more.
fn next_of(graph: &[u8], goals: usize, entries: usize, goal: usize, from: usize) -> Option<usize>
    requires { GraphBytes goals graph.now × ((entries ≤ 2 * goals) × (from ≤ entries)) }
    ensures { NextOf goals entries goal from graph.now result }
{
    for k in from..entries {
        let entry = entry_at(graph, goals, k);
        if entry::input(entry, goals) == goal {
            return Some(k);
        }
    }
    None
}

// The first of the entries that answers the goal. Entries of one goal under different heads
// may all fit; which one is taken decides what the parent learns, so it is the one that was
// inserted first, as in mod.rs.
pub fn first_match(
    graph: &[u8],
    goals: usize,
    height: usize,
    entries: usize,
    goal: usize,
    step: PathKind,
) -> Option<usize>
    requires { StackBytes goals height graph.now × (entries ≤ 2 * goals) }
    ensures { FirstMatch goals height entries goal step graph.now result }
{
    // from match to match, so that this is no range; with `next_of` inside it is slower (DECISIONS 75)
    let mut next = next_of(graph, goals, entries, goal, 0);
    while let Some(i) = next {
        let entry = entry_at(graph, goals, i);
        if is_match(entry, graph, goals, height, goal, step) {
            return Some(i);
        }
        next = next_of(graph, goals, entries, goal, i + 1);
    }
    None
}

// Whether the entry would apply to one of the nested goals. One that met overflow would not:
// it is hidden outside its cycle.
fn applies(
    entry: &[u8],
    graph: &[u8],
    goals: usize,
    height: usize,
    step: PathKind,
    nested: &[u8],
) -> bool
    requires { EntryBytes goals entry.now × StackBytes goals height graph.now }
    ensures { result
        ≡ entry_applies (stack_of goals height graph.now) step nested.now
        (entry_of goals entry.now) }
{
    let paths = buffer::get(nested, entry::input(entry, goals));
    if paths == 0 || entry::encountered_overflow(entry, goals) {
        return false;
    }
    let head = entry::highest_head(entry, goals);
    let here = stack::cycle_path_kind(graph, goals, height, step, head);
    let full = PathsToNested { bits: paths }.extend_with(here);
    full.contains(entry::path_from_head(entry, goals))
}

// Whether one of the entries would apply to one of the nested goals.
pub fn any_applies(
    graph: &[u8],
    goals: usize,
    height: usize,
    entries: usize,
    step: PathKind,
    nested: &[u8],
) -> bool
    requires { StackBytes goals height graph.now × (entries ≤ 2 * goals) }
    ensures { result
        ≡ any_entry_applies (stack_of goals height graph.now) step nested.now
        (entries_of goals entries graph.now) }
{
    for i in 0..entries {
        let entry = entry_at(graph, goals, i);
        if applies(entry, graph, goals, height, step, nested) {
            return true;
        }
    }
    false
}

// The heads of the frame at index `height` become those of entry i.
fn copy_heads(graph: &mut [u8], goals: usize, height: usize, i: usize)
    requires { GraphBytes goals graph.old × ((height < goals) × (i < 2 * goals)) }
    ensures { HeadsCopied goals (frame_start goals height + heads_start) (entry_start goals i + entry_heads_start)
        graph.old graph.new }
{
    let a = offsets::frame_start(goals, height) + offsets::FRAME_HEADS;
    let b = offsets::entry_start(goals, i) + offsets::ENTRY_HEADS;
    heads::copy(graph, goals, a, b);
}

// Entry i becomes a new one, with the heads of the frame at index `height`.
fn write_entry(
    graph: &mut [u8],
    goals: usize,
    height: usize,
    i: usize,
    goal: usize,
    overflow: bool,
    path: PathKind,
    answer: Answer,
)
    requires { GraphBytes goals graph.old × ((height < goals) × ((i < 2 * goals) × (goal < 256))) }
    ensures { Appended goals i
        (entry_on goal overflow (frame_at goals height graph.old).heads path answer)
        graph.old graph.new }
{
    copy_heads(graph, goals, height, i);
    let start = offsets::entry_start(goals, i);
    let end = start + offsets::entry_size(goals);
    entry::start(&mut graph[start..end], goals, goal, overflow, path, answer);
}

// The kind of the path from the highest head of the frame at index `height` to it.
fn path_from_head(graph: &[u8], goals: usize, height: usize, step: PathKind) -> PathKind
    requires { StackBytes goals height graph.now × (height < goals) }
    ensures { result ≡ path_from_highest goals height step graph.now }
{
    let hs = frame::heads(stack::frame_at(graph, goals, height), goals);
    let highest = heads::highest(hs, goals);
    stack::cycle_path_kind(graph, goals, height, step, highest)
}

// The result of the goal whose frame stood at index `height` becomes the last entry,
// with the heads of that frame.
pub fn insert(
    graph: &mut [u8],
    goals: usize,
    height: usize,
    entries: usize,
    goal: usize,
    step: PathKind,
    overflow: bool,
    answer: Answer,
) -> Result<(), Full>
    requires { StackBytes goals height graph.old × ((height < goals) × (goal < 256)) }
    ensures { Inserted goals height entries goal step overflow answer
        graph.old graph.new result }
{
    if 2 * goals <= entries {
        return Err(Full);
    }
    let path = path_from_head(graph, goals, height, step);
    write_entry(graph, goals, height, entries, goal, overflow, path, answer);
    Ok(())
}
