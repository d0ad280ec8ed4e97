// The result of a goal goes to one of the caches. Its frame stood at index `height`.
ghost use Rattle.std.specs.Prelude.{◌≡◌, ◌<◌};
ghost use Rattle.definition.specs.Heads.{heads_empty};
ghost use Rattle.stack.specs.Bytes.{GraphBytes, frame_at};
ghost use Rattle.task.specs.Places.{Popped, Room};
ghost use Rattle.task.specs.Results.{InGlobalCache, InProvisionalCache, InCache};

use definition::format::Header;
use definition::paths::PathKind;
use definition::replies::Refusal;
use evaluation::{Done, Evaluated, Outcome, Ran};
use layout::heads;
use stack::frame;

// The nested goals of the frame.
fn nested_at(graph: &[u8], goals: usize, height: usize) -> &[u8]
    requires { GraphBytes goals graph.now × (height < goals) }
    ensures { result.now ≡ (frame_at goals height graph.now).nested_goals }
{
    frame::nested(stack::frame_at(graph, goals, height), goals)
}

// Whether the frame has no heads.
fn is_headless(graph: &[u8], goals: usize, height: usize) -> bool
    requires { GraphBytes goals graph.now × (height < goals) }
    ensures { result ≡ heads_empty (frame_at goals height graph.now).heads }
{
    heads::is_empty(
        frame::heads(stack::frame_at(graph, goals, height), goals),
        goals,
    )
}

fn in_global_cache(
    cache: &mut [u8],
    graph: &[u8],
    h: Header,
    height: usize,
    goal: usize,
    ran: Ran,
) -> Outcome
    requires { Popped h height goal graph.now cache.old ran }
    ensures { InGlobalCache h height goal ran graph.now cache.old cache.new result }
{
    let goals = h.goals;
    let top = h.top;
    let required = frame::required_depth(stack::frame_at(graph, goals, height), goals);
    if top < required {
        return Err(Refusal::Unreachable);
    }
    let Evaluated {
        answer,
        overflow,
        entries,
    } = ran.evaluated;
    let nested = nested_at(graph, goals, height);
    global_cache::insert(
        cache, goals, top, goal, overflow, required, answer, ran.passes, nested,
    )?;
    Ok(Done { answer, entries })
}

fn in_provisional_cache(
    graph: &mut [u8],
    h: Header,
    height: usize,
    goal: usize,
    step: PathKind,
    evaluated: Evaluated,
) -> Outcome
    requires { Room h height evaluated.entries goal graph.old }
    ensures { InProvisionalCache h height goal step evaluated graph.old graph.new result }
{
    let Evaluated {
        answer,
        overflow,
        entries,
    } = evaluated;
    provisional_cache::insert(
        graph, h.goals, height, entries, goal, step, overflow, answer,
    )?;
    Ok(Done {
        answer,
        entries: entries + 1,
    })
}

// insert_global_cache where the frame has no heads, else insert_provisional_cache: a result
// that leans on frames below holds only as long as they are on the stack.
pub fn result(
    cache: &mut [u8],
    graph: &mut [u8],
    h: Header,
    height: usize,
    goal: usize,
    step: PathKind,
    ran: Ran,
) -> Outcome
    requires { Popped h height goal graph.old cache.old ran }
    ensures { InCache h height goal step ran cache.old cache.new graph.old graph.new result }
{
    if is_headless(graph, h.goals, height) {
        return in_global_cache(cache, graph, h, height, goal, ran);
    }
    let evaluated = ran.evaluated;
    if h.provisional {
        return in_provisional_cache(graph, h, height, goal, step, evaluated);
    }
    Ok(Done {
        answer: evaluated.answer,
        entries: evaluated.entries,
    })
}
