// What a nested goal leaves in its parent's frame: update_parent_goal of mod.rs, on one frame's
// bytes.
ghost use Rattle.std.specs.Prelude.{false, ◌<◌};
ghost use Rattle.definition.specs.Parent.{add_rest, Ordinary, CycleOnStack, ProvisionalCacheHit};
ghost use Rattle.stack.specs.Bytes.{FrameBytes, FrameChanged};
ghost use Rattle.stack.specs.Child.{track_at, join_used, HeadBegun, use_own, use_at, add_head_at, cycle_head};
ghost use Rattle.stack.specs.Child.{reach_frame, insert_goal, insert_own, extend_nested, finish_nested};

use crate::frame;
use definition::heads::CycleHead;
use definition::paths::{PathKind, PathsToNested};
use definition::usages::HeadUsages;
use layout::used::Used;
use layout::{candidate, heads, nested, offsets, records};

// ---- a head that the nested goal used: by the usages that it had of it, or once

// In the candidate that the frame tracks, if any.
fn track<U: Used>(frame: &mut [u8], goals: usize, i: usize, used: U)
    requires { FrameBytes goals frame.old × (i < goals) }
    ensures { FrameChanged goals (track_at i (U.uses used)) frame.old frame.new }
{
    if !frame::tracks(frame, goals) {
        return;
    }
    let start = offsets::candidate_start(goals);
    let end = offsets::nested_start(goals);
    candidate::add_from_nested(&mut frame[start..end], goals, i, used);
}

// Among the parent's heads.
fn join<U: Used>(frame: &mut [u8], goals: usize, i: usize, paths: u8, used: U)
    requires { FrameBytes goals frame.old × (i < goals) }
    ensures { FrameChanged goals (join_used i paths (U.uses used)) frame.old frame.new }
{
    let end = offsets::candidate_start(goals);
    heads::insert(&mut frame[offsets::FRAME_HEADS..end], goals, i, paths, used);
}

// The parent is a head; its usages start at none where it was none before.
fn become_head(frame: &mut [u8], goals: usize)
    requires { FrameBytes goals frame.old }
    ensures { HeadBegun goals frame.old frame.new }
{
    if frame::is_head(frame, goals) {
        return;
    }
    records::write_usages(
        &mut frame[offsets::FRAME_USAGES..offsets::FRAME_HEADS],
        HeadUsages::none(),
    );
    frame[offsets::FRAME_IS_HEAD] = 1;
}

// The parent itself is the head.
fn use_itself<U: Used>(frame: &mut [u8], goals: usize, used: U)
    requires { FrameBytes goals frame.old }
    ensures { FrameChanged goals (use_own (U.uses used)) frame.old frame.new }
{
    become_head(frame, goals);
    used.count(&mut frame[offsets::FRAME_USAGES..offsets::FRAME_HEADS]);
}

// The head at index i, reached by `paths`; the parent's own index is `own`.
fn add<U: Used>(frame: &mut [u8], goals: usize, own: usize, i: usize, paths: u8, used: U)
    requires { FrameBytes goals frame.old × (i < goals) }
    ensures { FrameChanged goals (use_at own i paths (U.uses used)) frame.old frame.new }
{
    track(frame, goals, i, used);
    if i < own {
        join(frame, goals, i, paths, used);
        return;
    }
    if i == own {
        use_itself(frame, goals, used);
    }
}

// A head of the nested goal, at index i, by one step more.
pub fn add_head(
    frame: &mut [u8],
    goals: usize,
    own: usize,
    step: PathKind,
    i: usize,
    head: CycleHead,
)
    requires { FrameBytes goals frame.old × (i < goals) }
    ensures { FrameChanged goals (add_head_at step own i head) frame.old frame.new }
{
    let paths = PathsToNested { bits: head.paths };
    let extended = paths.extend_with(step);
    add(frame, goals, own, i, extended.bits, head.usages);
}

// A goal on the stack, at index `head`, by a cycle of a kind: one counter is touched.
pub fn count_head(
    frame: &mut [u8],
    goals: usize,
    own: usize,
    step: PathKind,
    head: usize,
    kind: PathKind,
)
    requires { FrameBytes goals frame.old × (head < goals) }
    ensures { FrameChanged goals (add_head_at step own head (cycle_head step kind)) frame.old
        frame.new }
{
    add(frame, goals, own, head, step.flag(), kind);
}

// ---- the rest

// Overflow, and the depth that was reached.
fn reach(frame: &mut [u8], goals: usize, overflow: bool, reached: usize)
    requires { FrameBytes goals frame.old }
    ensures { FrameChanged goals (reach_frame overflow reached) frame.old frame.new }
{
    let met = frame::overflow(frame, goals) || overflow;
    frame[offsets::FRAME_OVERFLOW] = u8::from(met);
    let before = usize::from(frame[offsets::FRAME_REACHED]);
    frame[offsets::FRAME_REACHED] = before.min(reached) as u8;
}

// Paths to a nested goal.
fn insert_nested(frame: &mut [u8], goals: usize, goal: usize, paths: u8)
    requires { FrameBytes goals frame.old }
    ensures { FrameChanged goals (insert_goal goal paths) frame.old frame.new }
{
    let start = offsets::nested_start(goals);
    let end = start + goals;
    nested::insert(&mut frame[start..end], goal, paths);
}

// The frame's own goal is among its nested goals.
fn insert_itself(frame: &mut [u8], goals: usize)
    requires { FrameBytes goals frame.old }
    ensures { FrameChanged goals insert_own frame.old frame.new }
{
    let goal = frame::input(frame, goals);
    insert_nested(frame, goals, goal, 1);
}

// The nested goals, with those of a child.
fn extend(frame: &mut [u8], goals: usize, step: PathKind, child: &[u8])
    requires { FrameBytes goals frame.old }
    ensures { FrameChanged goals (extend_nested step child.now) frame.old
        frame.new }
{
    let start = offsets::nested_start(goals);
    let end = start + goals;
    nested::extend_from_child(&mut frame[start..end], step, child);
}

// Beside the heads, after a goal that was evaluated or found in the global cache, with
// its nested goals.
pub fn add_ordinary(
    frame: &mut [u8],
    goals: usize,
    step: PathKind,
    overflow: bool,
    child: &[u8],
    reached: usize,
)
    requires { FrameBytes goals frame.old }
    ensures { FrameChanged goals (add_rest step overflow (Ordinary child.now) reached)
        frame.old frame.new }
{
    reach(frame, goals, overflow, reached);
    extend(frame, goals, step, child);
    if nested::is_empty(child) {
        return;
    }
    insert_itself(frame, goals);
}

// Beside the heads and the nested goals, after a goal that was evaluated; `none`: it has no nested
// goals.
pub fn add_evaluated(frame: &mut [u8], goals: usize, overflow: bool, none: bool, reached: usize)
    requires { FrameBytes goals frame.old }
    ensures { FrameChanged goals (finish_nested overflow none reached) frame.old
        frame.new }
{
    reach(frame, goals, overflow, reached);
    if none {
        return;
    }
    insert_itself(frame, goals);
}

// Beside the heads, after a goal that was found in the provisional cache.
pub fn add_entry(frame: &mut [u8], goals: usize, step: PathKind, overflow: bool, reached: usize)
    requires { FrameBytes goals frame.old }
    ensures { FrameChanged goals (add_rest step overflow ProvisionalCacheHit reached) frame.old
        frame.new }
{
    reach(frame, goals, overflow, reached);
    insert_itself(frame, goals);
}

// Beside the heads, after a goal that is on the stack.
pub fn add_cycle(frame: &mut [u8], goals: usize, step: PathKind, goal: usize, reached: usize)
    requires { FrameBytes goals frame.old }
    ensures { FrameChanged goals (add_rest step false (CycleOnStack goal) reached) frame.old
        frame.new }
{
    reach(frame, goals, false, reached);
    let paths = PathsToNested::from(step);
    insert_nested(frame, goals, goal, paths.bits);
    insert_itself(frame, goals);
}
