// The popped frame p: the paths to it, and its heads, in the graph's bytes from p on (`rest`).
ghost use Rattle.std.specs.Prelude.{◌≡◌, false, ◌++◌, ◌-◌, ◌<◌, replicate};
ghost use Rattle.definition.specs.declared.heads.CycleHead.{CycleHead};
ghost use Rattle.bits.specs.Masks.{flags};
ghost use Rattle.buffer.specs.Regions.{region};
ghost use Rattle.layout.specs.Blocks.{heads_size, present};
ghost use Rattle.layout.specs.Frame.{heads_start};
ghost use Rattle.layout.specs.Work.{stack_of};
ghost use Rattle.stack.specs.Bytes.{StackBytes, frame_at};
ghost use Rattle.pop.specs.Popped.{FrameFirst, popped_bytes, popped_frame, PoppedHead, PathsFrom};

use definition::endings::RebaseReason;
use definition::heads::CycleHead;
use definition::paths::PathKind;
use layout::{heads, offsets};
use stack::frame;

// What is known of p, whichever entry is looked at.
#[derive(Clone, Copy)]
pub struct Popped {
    pub goals: usize,
    // Where the entries start, in the bytes from p on.
    pub base: usize,
    // The index of p.
    pub index: usize,
    // The kind of the path to p from each frame below it.
    pub paths: [PathKind; 64],
    // What those paths allow of an entry that used p.
    pub lowest: PathKind,
    pub reason: RebaseReason,
    ghost index_in: { index < goals },
}

// The kind of the path hp from each frame below p to it, and of p's own step at the other
// indices. An entry can come to stand under any frame below p, not under a head of p alone.
pub fn paths_to_popped(graph: &[u8], goals: usize, popped: usize) -> [PathKind; 64]
    requires { StackBytes goals popped graph.now × (popped < goals) }
    ensures { PathsFrom (stack_of goals popped graph.now)
        (frame_at goals popped graph.now) result }
{
    let step = frame::step_kind(stack::frame_at(graph, goals, popped), goals);
    let mut paths = [step; 64];
    for i in 0..popped {
        paths[i] = stack::cycle_path_kind(graph, goals, popped, step, i);
    }
    paths
}

// The block of the heads of p.
fn popped_heads(rest: &[u8], goals: usize) -> &[u8]
    requires { FrameFirst goals rest.now }
    ensures { result.now ≡ region heads_start (heads_size goals) (popped_bytes goals rest.now) }
{
    let end = offsets::frame_size(goals);
    frame::heads(&rest[0..end], goals)
}

// The indices of the heads of p.
pub fn popped_mask(rest: &[u8], goals: usize) -> u64
    requires { FrameFirst goals rest.now }
    ensures { flags 64 result
        ≡ present (popped_frame goals rest.now).heads ++ replicate (64 - goals) false }
{
    heads::mask(popped_heads(rest, goals), goals)
}

// The head of p at index i, where there is one.
pub fn popped_head(rest: &[u8], goals: usize, i: usize) -> CycleHead
    requires { FrameFirst goals rest.now × (i < goals) }
    ensures { (c : CycleHead) → PoppedHead goals rest.now i c → result ≡ c }
{
    heads::record(popped_heads(rest, goals), goals, i)
}
