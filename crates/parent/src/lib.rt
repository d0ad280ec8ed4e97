// update_parent_goal of mod.rs. The parent is the frame on top of the stack.
#![tactic(auto)]

ghost use Rattle.std.specs.Prelude.{false, ◌+◌, ◌*◌, ◌<◌, ◌≤◌};
ghost use Rattle.definition.specs.Paths.{flag_of};
ghost use Rattle.definition.specs.Usages.{one_usage};
ghost use Rattle.definition.specs.Heads.{no_heads, insert_head};
ghost use Rattle.definition.specs.Parent.{add_heads, Ordinary, CycleOnStack, ProvisionalCacheHit};
ghost use Rattle.stack.specs.Bytes.{GraphBytes, frame_at};
ghost use Rattle.stack.specs.Written.{TopChanged};
ghost use Rattle.parent.specs.Updated.{HeadsAbove, heads_in, entry_heads, nested_at, NestedJoined, Updated};

use definition::paths::PathKind;
use layout::{heads, nested, offsets, ranges};
use stack::frame::child;

// ---- the frame at index `own`, on top

// The heads of the nested goal, in the block at `start` of the graph, behind the frame.
fn add_heads(graph: &mut [u8], goals: usize, own: usize, step: PathKind, start: usize)
    requires { GraphBytes goals graph.old × ((own < goals) × HeadsAbove goals own start graph.old) }
    ensures { TopChanged goals own (add_heads step own (heads_in goals start graph.old))
        graph.old graph.new }
{
    let end = start + offsets::heads_size(goals);
    let mask = heads::mask(&graph[start..end], goals);
    for i in bits::places(mask) {
        let head = heads::record(&graph[start..end], goals, i);
        let frame = &mut graph[ranges::frame(goals, own)];
        child::add_head(frame, goals, own, step, i, head);
    }
}

// The nested goals, with those of the frame above; whether that frame has none.
fn extend_nested(graph: &mut [u8], goals: usize, own: usize, step: PathKind) -> bool
    requires { GraphBytes goals graph.old × (own + 1 < goals) }
    ensures { NestedJoined goals own step graph.old graph.new result }
{
    let start = offsets::frame_start(goals, own);
    let to = start + offsets::nested_start(goals);
    let from = to + offsets::frame_size(goals);
    nested::extend_within(graph, to, from, goals, step)
}

// ---- the parent

// After a goal that was found in the global cache.
pub fn update_from_slot(
    graph: &mut [u8],
    goals: usize,
    height: usize,
    step: PathKind,
    overflow: bool,
    nested: &[u8],
    reached: usize,
)
    requires { GraphBytes goals graph.old × (height ≤ goals) }
    ensures { Updated goals height step (no_heads goals) overflow (Ordinary nested.now) reached
        graph.old graph.new }
{
    if height == 0 {
        return;
    }
    let frame = &mut graph[ranges::frame(goals, height - 1)];
    child::add_ordinary(frame, goals, step, overflow, nested, reached);
}

// After a goal that was found in the provisional cache, at entry i.
pub fn update_from_entry(
    graph: &mut [u8],
    goals: usize,
    height: usize,
    step: PathKind,
    i: usize,
    overflow: bool,
    reached: usize,
)
    requires { GraphBytes goals graph.old × ((height ≤ goals) × (i < 2 * goals)) }
    ensures { Updated goals height step (entry_heads goals i graph.old) overflow ProvisionalCacheHit
        reached graph.old graph.new }
{
    if height == 0 {
        return;
    }
    let start = offsets::entry_start(goals, i) + offsets::ENTRY_HEADS;
    add_heads(graph, goals, height - 1, step, start);
    let frame = &mut graph[ranges::frame(goals, height - 1)];
    child::add_entry(frame, goals, step, overflow, reached);
}

// After a goal that is on the stack, at index `head`.
pub fn update_from_cycle(
    graph: &mut [u8],
    goals: usize,
    height: usize,
    step: PathKind,
    head: usize,
    kind: PathKind,
    goal: usize,
    reached: usize,
)
    requires { GraphBytes goals graph.old × ((height ≤ goals) × (head < height)) }
    ensures { Updated goals height step (insert_head (no_heads goals) head (flag_of step) (one_usage kind)) false
        (CycleOnStack goal) reached graph.old graph.new }
{
    if height == 0 {
        return;
    }
    let own = height - 1;
    let frame = &mut graph[ranges::frame(goals, own)];
    child::count_head(frame, goals, own, step, head, kind);
    child::add_cycle(frame, goals, step, goal, reached);
}

// After the goal whose frame stood above the parent, with that frame's heads and nested goals.
pub fn update_from_frame(
    graph: &mut [u8],
    goals: usize,
    height: usize,
    step: PathKind,
    overflow: bool,
    reached: usize,
)
    requires { GraphBytes goals graph.old × (height < goals) }
    ensures { Updated goals height step (frame_at goals height graph.old).heads overflow
        (Ordinary (nested_at goals height graph.old)) reached graph.old graph.new }
{
    if height == 0 {
        return;
    }
    let start = offsets::frame_start(goals, height) + offsets::FRAME_HEADS;
    add_heads(graph, goals, height - 1, step, start);
    let none = extend_nested(graph, goals, height - 1, step);
    let frame = &mut graph[ranges::frame(goals, height - 1)];
    child::add_evaluated(frame, goals, overflow, none, reached);
}
