// The usages of cycle heads in the candidates of a pick: enter_single_candidate,
// finish_single_candidate and ignore_candidate_head_usages of mod.rs, on the frame at
// index `own`, the top of the stack. The merged usages of a pick lie behind the graph.
#![tactic(auto)]

ghost use Rattle.std.specs.Prelude.{◌≡◌, ◌+◌, ◌<◌, ◌≤◌};
ghost use Rattle.std.proofs.Math.Option.{none, some};
ghost use Rattle.definition.specs.Usages.{merge_usages};
ghost use Rattle.definition.specs.Candidates.{no_candidate_usages, set_candidate_usages, candidate_usages_of, heads_cover, can_ignore, ignore_on_top};
ghost use Rattle.layout.specs.Blocks.{UsagesBlock, candidate_of};
ghost use Rattle.layout.specs.Frame.{frame_of};
ghost use Rattle.layout.specs.Work.{merged_of};
ghost use Rattle.stack.specs.Bytes.{FrameBytes, GraphBytes};
ghost use Rattle.stack.specs.Written.{StackChanged};
ghost use Rattle.evaluation.specs.Workspace.{WorkBytes, stack_in};
ghost use Rattle.stack.specs.Tracked.{ignore_heads};
ghost use Rattle.candidates.specs.Written.{MergedWritten, MergedChanged, WorkWritten, WorkTopChanged};

use layout::{candidate, ranges};
use stack::frame::tracked;

// ---- one candidate: two functions, as in mod.rs, a line each

pub fn enter_single_candidate(graph: &mut [u8], goals: usize, own: usize)
    requires { GraphBytes goals graph.old × (own < goals) }
    ensures { StackChanged goals (own + 1) (set_candidate_usages (some (no_candidate_usages goals)))
        graph.old graph.new }
{
    tracked::enter(&mut graph[ranges::frame(goals, own)], goals);
}

pub fn finish_single_candidate(graph: &mut [u8], goals: usize, own: usize)
    requires { GraphBytes goals graph.old × (own < goals) }
    ensures { StackChanged goals (own + 1) (set_candidate_usages none) graph.old graph.new }
{
    tracked::finish(&mut graph[ranges::frame(goals, own)], goals);
}

// ---- merged usages

// A pick begins: nothing is merged.
pub fn start(work: &mut [u8], goals: usize, own: usize)
    requires { WorkBytes goals work.old × (own < goals) }
    ensures { MergedWritten goals own (no_candidate_usages goals) work.old work.new }
{
    candidate::clear(&mut work[ranges::merged(goals, own)], goals);
}

// The usages of the candidate that is tracked are merged.
pub fn merge(work: &mut [u8], goals: usize, own: usize)
    requires { WorkBytes goals work.old × (own < goals) }
    ensures { MergedChanged goals own
        (λ us. merge_usages us (candidate_usages_of goals (stack_in goals (own + 1) work.old))) work.old
        work.new }
{
    let mask = tracked::mask(&work[ranges::frame(goals, own)], goals);
    for i in bits::places(mask) {
        let u = tracked::usages(&work[ranges::frame(goals, own)], goals, i);
        candidate::add(&mut work[ranges::merged(goals, own)], goals, i, u);
    }
}

// ---- ignore_candidate_head_usages, of the merged usages

// Whether usages can be taken from the heads below the frame f.
fn heads_cover(f: &[u8], b: &[u8], goals: usize, own: usize) -> bool
    requires { FrameBytes goals f.now × (UsagesBlock goals b.now × (own ≤ goals)) }
    ensures { result ≡ heads_cover own (frame_of goals f.now).heads
        (candidate_of goals b.now) }
{
    let below = bits::below(candidate::mask(b, goals), own);
    for i in bits::places(below) {
        let u = candidate::usages(b, goals, i);
        if !tracked::head_covers(f, goals, i, u) {
            return false;
        }
    }
    true
}

// Whether no subtraction fails where the merged usages are ignored.
pub fn can_ignore(work: &[u8], goals: usize, own: usize) -> bool
    requires { WorkBytes goals work.now × (own < goals) }
    ensures { result ≡ can_ignore (merged_of goals own work.now) (stack_in goals (own + 1) work.now) }
{
    let f = &work[ranges::frame(goals, own)];
    let b = &work[ranges::merged(goals, own)];
    let u = candidate::usages(b, goals, own);
    heads_cover(f, b, goals, own) && tracked::own_covers(f, goals, u)
}

// The merged usages are taken from the heads.
fn ignore_at_heads(work: &mut [u8], goals: usize, own: usize)
    requires { WorkBytes goals work.old × (own < goals) }
    ensures { WorkTopChanged goals own (ignore_heads (merged_of goals own work.old))
        work.old work.new }
{
    let mask = candidate::mask(&work[ranges::merged(goals, own)], goals);
    for i in bits::places(mask) {
        let u = candidate::usages(&work[ranges::merged(goals, own)], goals, i);
        tracked::ignore_head(&mut work[ranges::frame(goals, own)], goals, i, u);
    }
}

// The merged usages are ignored.
pub fn ignore(work: &mut [u8], goals: usize, own: usize)
    requires { WorkBytes goals work.old × (own < goals) }
    ensures { WorkWritten goals (own + 1)
        (ignore_on_top (merged_of goals own work.old) (stack_in goals (own + 1) work.old))
        work.old work.new }
{
    ignore_at_heads(work, goals, own);
    let u = candidate::usages(&work[ranges::merged(goals, own)], goals, own);
    tracked::ignore_own(&mut work[ranges::frame(goals, own)], goals, u);
}
