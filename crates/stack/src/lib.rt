// stack.rs: the frames of the goals that are being evaluated, at their index in the
// graph. How many there are is no byte of it, and no field of a struct beside it: the height
// changes from call to call, and the graph is lent now to be read and now to be written, so that
// a struct of the three would be made anew for each call.
#![tactic(auto)]

ghost use Rattle.std.specs.Prelude.{◌≡◌, ◌<◌, ◌≤◌};
ghost use Rattle.definition.specs.Steps.{count_steps};
ghost use Rattle.definition.specs.Stack.{step_kinds, cycle_path_kind};
ghost use Rattle.definition.specs.Parent.{handle_overflow};
ghost use Rattle.definition.specs.Task.{rerun_frame};
ghost use Rattle.definition.specs.Evaluate.{new_frame};
ghost use Rattle.definition.specs.Lookup.{any_on_stack};
ghost use Rattle.layout.specs.Steps.{packed};
ghost use Rattle.layout.specs.Work.{stack_of};
ghost use Rattle.stack.specs.Bytes.{GraphBytes, StackBytes, frame_bytes};
ghost use Rattle.stack.specs.Places.{Placed};
ghost use Rattle.stack.specs.Results.{Found, NestedDepth};
ghost use Rattle.stack.specs.Written.{TopWritten, StackChanged, TopChanged};

use definition::answers::Answer;
use definition::paths::PathKind;
use layout::{ranges, steps};

pub mod frame;

// What `find` finds: the index of the goal's frame, and its provisional result.
#[derive(Debug, Clone, Copy, PartialEq, Eq)]
pub struct OnStack {
    pub index: usize,
    pub provisional_result: Option<Answer>,
}

// The bytes of frame i.
pub fn frame_at(graph: &[u8], goals: usize, i: usize) -> &[u8]
    requires { GraphBytes goals graph.now × (i < goals) }
    ensures { result.now ≡ frame_bytes goals i graph.now }
{
    &graph[ranges::frame(goals, i)]
}

// The steps of each kind on a stack of some height.
fn steps_of(graph: &[u8], goals: usize, height: usize) -> u64
    requires { StackBytes goals height graph.now }
    ensures { result ≡ packed (count_steps (step_kinds (stack_of goals height graph.now))) }
{
    if height == 0 {
        return 0;
    }
    frame::steps(frame_at(graph, goals, height - 1), goals)
}

// A new frame on top.
pub fn push(
    graph: &mut [u8],
    goals: usize,
    height: usize,
    goal: usize,
    step: PathKind,
    available: usize,
)
    requires { StackBytes goals height graph.old × ((height < goals) × ((goal < 256) × (available < 256))) }
    ensures { TopWritten goals height
        (new_frame goals goal step available (stack_of goals height graph.old))
        graph.old graph.new }
{
    let below = steps_of(graph, goals, height);
    let all = steps::with(below, step);
    let frame = &mut graph[ranges::frame(goals, height)];
    frame::start(frame, goals, goal, step, available, all);
}

// The frame at index `own`, on top again, before its next iteration.
pub fn reset_for_rerun(graph: &mut [u8], goals: usize, own: usize, answer: Answer)
    requires { GraphBytes goals graph.old × (own < goals) }
    ensures { TopChanged goals own (λ f. rerun_frame f answer) graph.old graph.new }
{
    frame::reset(&mut graph[ranges::frame(goals, own)], goals, answer);
}

// handle_overflow: the top frame met overflow.
pub fn mark_top_overflow(graph: &mut [u8], goals: usize, height: usize)
    requires { GraphBytes goals graph.old × (height ≤ goals) }
    ensures { StackChanged goals height handle_overflow graph.old graph.new }
{
    if height == 0 {
        return;
    }
    frame::mark_overflow(&mut graph[ranges::frame(goals, height - 1)], goals);
}

// Stack::find: the goal's place tells where its frame can be, if there is one.
pub fn find(
    graph: &[u8],
    goals: usize,
    places: &[u8; 64],
    height: usize,
    goal: usize,
) -> Option<OnStack>
    requires graph_bytes { GraphBytes goals graph.now × ((height ≤ goals) × (goal < goals)) }
    requires placed { Placed (stack_of goals height graph.now) places.now }
    ensures { Found goals height graph.now goal result }
{
    let index = usize::from(places[goal]);
    if height <= index {
        return None;
    }
    let f = frame_at(graph, goals, index);
    if frame::input(f, goals) != goal {
        return None;
    }
    let provisional_result = frame::provisional_result(f, goals);
    Some(OnStack {
        index,
        provisional_result,
    })
}

// cycle_path_kind: the kind of the path from a head to the top of the stack and on by
// one step; the head's own step is left out. The steps above the head are those of the whole
// stack without those up to the head, and the latest kind among them is the path's.
pub fn cycle_path_kind(
    graph: &[u8],
    goals: usize,
    height: usize,
    step: PathKind,
    head: usize,
) -> PathKind
    requires { StackBytes goals height graph.now }
    ensures { result ≡ cycle_path_kind (stack_of goals height graph.now) step head }
{
    if height <= head {
        return step;
    }
    let above = steps_of(graph, goals, height) - steps_of(graph, goals, head + 1);
    steps::latest(steps::with(above, step))
}

// Whether one of the nested goals is on the stack.
pub fn any_on_stack(graph: &[u8], goals: usize, height: usize, nested: &[u8]) -> bool
    requires { GraphBytes goals graph.now × (height ≤ goals) }
    ensures { result ≡ any_on_stack (stack_of goals height graph.now) nested.now }
{
    for i in (0..height).rev() {
        let f = frame_at(graph, goals, i);
        if buffer::get(nested, frame::input(f, goals)) != 0 {
            return true;
        }
    }
    false
}

// allowed_depth_for_nested; `lower` is LowerAvailableDepth::Yes.
pub fn allowed_depth_for_nested(
    graph: &[u8],
    goals: usize,
    divisor: usize,
    root: usize,
    height: usize,
    lower: bool,
) -> Option<usize>
    requires { GraphBytes goals graph.now × ((height ≤ goals) × ((0 < divisor) × (root < 256))) }
    ensures { NestedDepth root divisor (stack_of goals height graph.now) lower result }
{
    if height == 0 {
        return Some(root);
    }
    let f = frame_at(graph, goals, height - 1);
    frame::nested_depth(f, goals, divisor, lower)
}
