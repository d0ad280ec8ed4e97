// What stands between the calls of the cycle. It needs the graph alone, which is the first
// part of the workspace. One function that lends the graph to a closure would be no plainer:
// each closure would have to say what its call says here.
ghost use Rattle.std.specs.Prelude.{◌≤◌, ◌<◌};
ghost use Rattle.definition.specs.Stack.{CountsTrue};
ghost use Rattle.evaluation.specs.Workspace.{WorkBytes, stack_in};
ghost use Rattle.evaluation.specs.Outcomes.{CountsIn, FewEntries};
ghost use Rattle.search_graph.specs.Between.{Looking, LookedUp, Pushed, IterationEnded, Finishing, Finished};

use definition::format::Header;
use definition::paths::PathKind;
use definition::replies::Refusal;
use evaluation::{Outcome, TaskOutcome};
use layout::offsets;
use lookup::Found;
use task::Iteration;

pub fn look_up(
    cache: &[u8],
    work: &mut [u8],
    places: &[u8; 64],
    h: Header,
    root: usize,
    height: usize,
    entries: usize,
    goal: usize,
    step: PathKind,
    lower: bool,
) -> Found
    requires { Looking h root height entries goal work.old cache.now places.now }
    ensures { LookedUp h root height entries goal step lower work.old work.new
        cache.now result }
{
    let n = offsets::graph_length(h.goals);
    lookup::lookup(
        cache,
        &mut work[0..n],
        places,
        h,
        root,
        height,
        entries,
        goal,
        step,
        lower,
    )
}

pub fn push(
    work: &mut [u8],
    goals: usize,
    height: usize,
    goal: usize,
    step: PathKind,
    available: usize,
)
    requires work_bytes { WorkBytes goals work.old × CountsTrue (stack_in goals height work.old) }
    requires height_lt_goals { (height < goals) × ((goal < 256) × (available < 256)) }
    ensures { Pushed goals height goal step available work.old work.new }
{
    let n = offsets::graph_length(goals);
    stack::push(&mut work[0..n], goals, height, goal, step, available);
}

pub fn end_iteration(
    o: Outcome,
    work: &mut [u8],
    goals: usize,
    height: usize,
    left: usize,
    overflow: bool,
) -> Result<Iteration, Refusal>
    requires work_bytes { WorkBytes goals work.old × CountsIn (stack_in goals height work.old) o }
    requires le_height { (1 ≤ height) × ((height ≤ goals) × FewEntries goals o) }
    ensures { IterationEnded goals height left overflow o work.old work.new result }
{
    let n = offsets::graph_length(goals);
    task::end_iteration(o, &mut work[0..n], goals, height, left, overflow)
}

pub fn finish(
    o: TaskOutcome,
    cache: &mut [u8],
    work: &mut [u8],
    h: Header,
    height: usize,
    goal: usize,
    step: PathKind,
    available: usize,
) -> Outcome
    requires { Finishing h height goal o work.old cache.old }
    ensures { Finished h height goal step available o work.old work.new
        cache.old cache.new result }
{
    let n = offsets::graph_length(h.goals);
    task::finish(o, cache, &mut work[0..n], h, height, goal, step, available)
}
