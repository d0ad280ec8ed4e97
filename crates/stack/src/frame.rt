// One frame's bytes: `layout::offsets` says where its fields and blocks stand. They are bytes at
// fixed places, and no struct, since they lie in memory that a caller lends. Nor is a frame a struct
// of its bytes and the number of goals: it is cut out of the graph anew at each use, so that
// `frame::input(f, goals)` would become `Frame { bytes: f, goals }.input()`.
ghost use Rattle.std.specs.Prelude.{◌≡◌, [], ◌∷◌, ℕ, ◌<◌, length};
ghost use Rattle.definition.specs.Paths.{kind_number};
ghost use Rattle.definition.specs.Steps.{count_steps};
ghost use Rattle.definition.specs.Stack.{Stack, step_kinds, required_depth_of};
ghost use Rattle.definition.specs.Parent.{or_no_usages, mark_overflow};
ghost use Rattle.definition.specs.Task.{rerun_frame};
ghost use Rattle.definition.specs.Evaluate.{new_frame};
ghost use Rattle.definition.specs.Options.{maybe_of};
ghost use Rattle.buffer.specs.Regions.{region};
ghost use Rattle.layout.specs.Blocks.{heads_size};
ghost use Rattle.layout.specs.Frame.{heads_start, frame_of};
ghost use Rattle.layout.specs.Steps.{unpacked};
ghost use Rattle.stack.specs.Bytes.{FrameBytes, FrameChanged};
ghost use Rattle.stack.specs.Results.{is_some, NestedDepth};

use definition::answers::Answer;
use definition::paths::PathKind;
use definition::usages::HeadUsages;
use layout::{heads, nested, offsets, records};

pub mod child;
mod fields;
pub mod tracked;

// ---- reads

pub fn input(frame: &[u8], goals: usize) -> usize
    requires { FrameBytes goals frame.now }
    ensures { (result ≡ (frame_of goals frame.now).input) × (result < 256) }
{
    usize::from(frame[offsets::FRAME_INPUT])
}

pub fn step_kind(frame: &[u8], goals: usize) -> PathKind
    requires { FrameBytes goals frame.now }
    ensures { result ≡ (frame_of goals frame.now).step_kind_from_parent }
{
    PathKind::from(frame[offsets::FRAME_STEP])
}

pub fn available(frame: &[u8], goals: usize) -> usize
    requires { FrameBytes goals frame.now }
    ensures { (result ≡ (frame_of goals frame.now).available_depth) × (result < 256) }
{
    usize::from(frame[offsets::FRAME_AVAILABLE])
}

// The least available depth that a nested goal reached.
pub fn reached(frame: &[u8], goals: usize) -> usize
    requires { FrameBytes goals frame.now }
    ensures { (result ≡ (frame_of goals frame.now).min_reached_available_depth) × (result < 256) }
{
    usize::from(frame[offsets::FRAME_REACHED])
}

pub fn provisional_result(frame: &[u8], goals: usize) -> Option<Answer>
    requires { FrameBytes goals frame.now }
    ensures { maybe_of result ≡ (frame_of goals frame.now).provisional_result }
{
    let n = frame[offsets::FRAME_PROVISIONAL];
    if n == 0 {
        return None;
    }
    Some(Answer::from(n - 1))
}

pub fn overflow(frame: &[u8], goals: usize) -> bool
    requires { FrameBytes goals frame.now }
    ensures { result ≡ (frame_of goals frame.now).encountered_overflow }
{
    frame[offsets::FRAME_OVERFLOW] != 0
}

// Whether it has usages as a cycle head.
pub fn is_head(frame: &[u8], goals: usize) -> bool
    requires { FrameBytes goals frame.now }
    ensures { result ≡ is_some (frame_of goals frame.now).usages }
{
    frame[offsets::FRAME_IS_HEAD] != 0
}

// Whether it tracks the usages of a candidate.
pub fn tracks(frame: &[u8], goals: usize) -> bool
    requires { FrameBytes goals frame.now }
    ensures { result ≡ is_some (frame_of goals frame.now).candidate_usages }
{
    frame[offsets::FRAME_TRACKS] != 0
}

// The usages as a cycle head, none where it is no head.
pub fn own_usages(frame: &[u8], goals: usize) -> HeadUsages
    requires { FrameBytes goals frame.now }
    ensures { result ≡ or_no_usages (frame_of goals frame.now).usages }
{
    if frame[offsets::FRAME_IS_HEAD] == 0 {
        return HeadUsages::none();
    }
    records::read_usages(&frame[offsets::FRAME_USAGES..offsets::FRAME_HEADS])
}

// The block of heads.
pub fn heads(frame: &[u8], goals: usize) -> &[u8]
    requires { FrameBytes goals frame.now }
    ensures { result.now ≡ region heads_start (heads_size goals) frame.now }
{
    let end = offsets::candidate_start(goals);
    &frame[offsets::FRAME_HEADS..end]
}

// The nested goals.
pub fn nested(frame: &[u8], goals: usize) -> &[u8]
    requires { FrameBytes goals frame.now }
    ensures { result.now ≡ (frame_of goals frame.now).nested_goals }
{
    let start = offsets::nested_start(goals);
    let end = start + goals;
    &frame[start..end]
}

// How many steps of each kind lie at or below it.
pub fn steps(frame: &[u8], goals: usize) -> u64
    requires { FrameBytes goals frame.now }
    ensures { unpacked result ≡ (frame_of goals frame.now).step_counts }
{
    buffer::read_u64(frame, offsets::counts_start(goals))
}

// StackEntry::required_depth
pub fn required_depth(frame: &[u8], goals: usize) -> usize
    requires { FrameBytes goals frame.now }
    ensures { (result ≡ required_depth_of (frame_of goals frame.now)) × (result < 256) }
{
    available(frame, goals).saturating_sub(reached(frame, goals))
}

// The depth that the frame allows a nested goal, none where that is overflow; `lower` is LowerAvailableDepth::Yes.
pub fn nested_depth(frame: &[u8], goals: usize, divisor: usize, lower: bool) -> Option<usize>
    requires { FrameBytes goals frame.now × (0 < divisor) }
    ensures { (root : ℕ) (fs : Stack) → NestedDepth root divisor (frame_of goals frame.now ∷ fs)
        lower result }
{
    let depth = available(frame, goals);
    if !lower {
        return Some(depth);
    }
    if depth == 0 {
        return None;
    }
    if overflow(frame, goals) {
        return Some(depth / divisor);
    }
    Some(depth - 1)
}

// ---- writes

// The first eight bytes of a new frame.
fn start_fields(b: &mut [u8], goal: usize, step: PathKind, available: usize)
    requires { (length b.old ≡ 8) × ((goal < 256) × (available < 256)) }
    ensures { b.new ≡ goal ∷ kind_number step ∷ available ∷ available ∷ 0 ∷ 0 ∷ 0 ∷ 0 ∷ [] }
{
    b[offsets::FRAME_INPUT] = goal as u8;
    b[offsets::FRAME_STEP] = u8::from(step);
    b[offsets::FRAME_AVAILABLE] = available as u8;
    b[offsets::FRAME_REACHED] = available as u8;
    b[offsets::FRAME_PROVISIONAL] = 0;
    b[offsets::FRAME_OVERFLOW] = 0;
    b[offsets::FRAME_IS_HEAD] = 0;
    b[offsets::FRAME_TRACKS] = 0;
}

// A new frame, on a stack s; `steps` are those of s and its own.
pub fn start(
    frame: &mut [u8],
    goals: usize,
    goal: usize,
    step: PathKind,
    available: usize,
    steps: u64,
)
    requires { FrameBytes goals frame.old × ((goal < 256) × (available < 256)) }
    ensures { (s : Stack) → unpacked steps ≡ count_steps (step ∷ step_kinds s)
        → frame_of goals frame.new ≡ new_frame goals goal step available s }
{
    start_fields(&mut frame[0..offsets::FRAME_USAGES], goal, step, available);
    let c = offsets::candidate_start(goals);
    heads::clear(&mut frame[offsets::FRAME_HEADS..c], goals);
    let start = offsets::nested_start(goals);
    let end = start + goals;
    buffer::fill_zero(&mut frame[start..end]);
    buffer::write_u64(frame, offsets::counts_start(goals), steps);
}

// Before the next iteration: the provisional result is the last one's. Heads, nested goals
// and the depth reached are read only when the evaluation ends, so they are kept and grow.
// Overflow is met anew. Usages start at none, and not absent: provisional entries that name
// the frame without using its result are still there, and must be rebased at the end.
pub fn reset(frame: &mut [u8], goals: usize, answer: Answer)
    requires { FrameBytes goals frame.old }
    ensures { FrameChanged goals (λ f. rerun_frame f answer) frame.old frame.new }
{
    frame[offsets::FRAME_PROVISIONAL] = u8::from(answer) + 1;
    frame[offsets::FRAME_OVERFLOW] = 0;
    frame[offsets::FRAME_IS_HEAD] = 1;
    frame[offsets::FRAME_TRACKS] = 0;
    records::write_usages(
        &mut frame[offsets::FRAME_USAGES..offsets::FRAME_HEADS],
        HeadUsages::none(),
    );
}

// The frame met overflow; its own goal is among its nested goals then.
pub fn mark_overflow(frame: &mut [u8], goals: usize)
    requires { FrameBytes goals frame.old }
    ensures { FrameChanged goals mark_overflow frame.old frame.new }
{
    fields::mark_bytes(&mut frame[0..offsets::FRAME_USAGES]);
    let goal = input(frame, goals);
    let start = offsets::nested_start(goals);
    let end = start + goals;
    nested::insert(&mut frame[start..end], goal, 1);
}
