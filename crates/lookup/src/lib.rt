// What evaluate_goal of mod.rs tries before it pushes a frame: the allowed depth, the two
// caches, a cycle on the stack.
#![tactic(auto)]

ghost use Rattle.std.specs.Prelude.{◌≡◌, ◌*◌, ◌<◌, ◌≤◌};
ghost use Rattle.definition.specs.Lookup.{cycle_result};
ghost use Rattle.definition.specs.Options.{maybe_of};
ghost use Rattle.layout.specs.Work.{stack_of};
ghost use Rattle.stack.specs.Bytes.{GraphBytes, StackBytes};
ghost use Rattle.stack.specs.Places.{Placed};
ghost use Rattle.lookup.specs.Lookups.{Counted, AskedAt, Asked, applicable, overflow_applies, success_applies};
ghost use Rattle.lookup.specs.Hits.{EntryUsed, EntriesTried, SlotUsed, SlotsTried, CycleClosed, StackTried};
ghost use Rattle.lookup.specs.Answers.{AnsweredAt, Answered};

use definition::answers::Answer;
use definition::format::Header;
use definition::paths::PathKind;
use global_cache::slot;
use layout::nested;
use provisional_cache::entry;
use stack::OnStack;

// The goal's answer, or the available depth of the frame to push. Neither is an error or an
// absence, so that names of their own say more than a Result or an Option.
#[derive(Debug, Clone, Copy, PartialEq, Eq)]
pub enum Found {
    Known(Answer),
    Push(usize),
}

// ---- lookup_provisional_cache

// Entry i answers the goal.
fn use_entry(
    graph: &mut [u8],
    goals: usize,
    height: usize,
    step: PathKind,
    available: usize,
    i: usize,
) -> Answer
    requires { GraphBytes goals graph.old × ((height ≤ goals) × (i < 2 * goals)) }
    ensures { EntryUsed goals height step available i graph.old graph.new result }
{
    let entry = provisional_cache::entry_at(graph, goals, i);
    let overflow = entry::encountered_overflow(entry, goals);
    let answer = entry::result(entry, goals);
    parent::update_from_entry(graph, goals, height, step, i, overflow, available);
    answer
}

pub fn lookup_provisional_cache(
    graph: &mut [u8],
    h: Header,
    height: usize,
    entries: usize,
    goal: usize,
    step: PathKind,
    available: usize,
) -> Option<Answer>
    requires { Counted h.goals height entries graph.old }
    ensures { EntriesTried h height entries goal step available
        graph.old graph.new result }
{
    if !h.provisional {
        return None;
    }
    let i = provisional_cache::first_match(graph, h.goals, height, entries, goal, step)?;
    Some(use_entry(graph, h.goals, height, step, available, i))
}

// ---- lookup_global_cache

// Whether a slot with these nested goals applies here. Its result was found where none of
// them was on the stack. If one is now, an evaluation would close a cycle there; if an entry
// would answer one of them, the evaluation would take the entry's result, which leans on the
// stack as well. Either may change the answer, so that the slot does not count.
fn candidate_is_applicable(
    graph: &[u8],
    goals: usize,
    height: usize,
    entries: usize,
    step: PathKind,
    nested: &[u8],
) -> bool
    requires { Counted goals height entries graph.now }
    ensures { result ≡ applicable goals height entries graph.now step nested.now }
{
    if nested::is_empty(nested) {
        return true;
    }
    if stack::any_on_stack(graph, goals, height, nested) {
        return false;
    }
    !provisional_cache::any_applies(graph, goals, height, entries, step, nested)
}

// Whether the overflow slot is held and applies here.
fn overflow_applies(
    s: &[u8],
    graph: &[u8],
    goals: usize,
    height: usize,
    entries: usize,
    step: PathKind,
) -> bool
    requires { Counted goals height entries graph.now }
    ensures { result ≡ overflow_applies goals height entries graph.now step s.now }
{
    slot::is_held(s)
        && candidate_is_applicable(graph, goals, height, entries, step, slot::nested_of(s))
}

// Whether the success slot is held, needs no more than the available depth and applies.
fn success_applies(
    s: &[u8],
    graph: &[u8],
    goals: usize,
    height: usize,
    entries: usize,
    step: PathKind,
    available: usize,
) -> bool
    requires { Counted goals height entries graph.now }
    ensures { result ≡ success_applies goals height entries graph.now step available s.now }
{
    slot::is_held(s)
        && slot::depth_of(s) <= available
        && candidate_is_applicable(graph, goals, height, entries, step, slot::nested_of(s))
}

// The slot answers the goal.
fn use_slot(
    s: &[u8],
    graph: &mut [u8],
    h: Header,
    height: usize,
    step: PathKind,
    available: usize,
    overflow: bool,
) -> Answer
    requires { GraphBytes h.goals graph.old × (height ≤ h.goals) }
    ensures { SlotUsed h height step available s.now overflow
        graph.old graph.new result }
{
    let reached = available.saturating_sub(slot::depth_of(s));
    let nested = slot::nested_of(s);
    parent::update_from_slot(graph, h.goals, height, step, overflow, nested, reached);
    slot::result_of(s)
}

pub fn lookup_global_cache(
    cache: &[u8],
    graph: &mut [u8],
    h: Header,
    height: usize,
    entries: usize,
    goal: usize,
    step: PathKind,
    available: usize,
) -> Option<Answer>
    requires { AskedAt h cache.now graph.old height entries goal available }
    ensures { SlotsTried h height entries goal step available cache.now
        graph.old graph.new result }
{
    let success = global_cache::slot_at(cache, h.goals, h.top, goal, 0);
    if success_applies(success, graph, h.goals, height, entries, step, available) {
        return Some(use_slot(success, graph, h, height, step, available, false));
    }
    let overflow = global_cache::slot_at(cache, h.goals, h.top, goal, available + 1);
    if overflow_applies(overflow, graph, h.goals, height, entries, step) {
        return Some(use_slot(overflow, graph, h, height, step, available, true));
    }
    None
}

// ---- check_cycle_on_stack

// The provisional result, or the initial one in the first iteration.
fn cycle_result(provisional: Option<Answer>, kind: PathKind) -> Answer
    ensures { result ≡ cycle_result (maybe_of provisional) kind }
{
    provisional.unwrap_or(Answer::initial_result(kind))
}

// The goal is on the stack, in the frame `head`: a cycle. It counts in the kind of the whole way
// round, not in that of its last step.
fn close_cycle(
    graph: &mut [u8],
    h: Header,
    height: usize,
    goal: usize,
    step: PathKind,
    available: usize,
    head: OnStack,
) -> Answer
    requires { StackBytes h.goals height graph.old × (head.index < height) }
    ensures { CycleClosed h height goal step available head graph.old graph.new result }
{
    let kind = stack::cycle_path_kind(graph, h.goals, height, step, head.index);
    parent::update_from_cycle(
        graph, h.goals, height, step, head.index, kind, goal, available,
    );
    cycle_result(head.provisional_result, kind)
}

pub fn check_cycle_on_stack(
    graph: &mut [u8],
    places: &[u8; 64],
    h: Header,
    height: usize,
    goal: usize,
    step: PathKind,
    available: usize,
) -> Option<Answer>
    requires stack_bytes { StackBytes h.goals height graph.old × (goal < h.goals) }
    requires placed { Placed (stack_of h.goals height graph.old) places.now }
    ensures { StackTried h height goal step available graph.old graph.new result }
{
    let head = stack::find(graph, h.goals, places, height, goal)?;
    Some(close_cycle(graph, h, height, goal, step, available, head))
}

// ---- all of them

fn lookup_at_depth(
    cache: &[u8],
    graph: &mut [u8],
    places: &[u8; 64],
    h: Header,
    height: usize,
    entries: usize,
    goal: usize,
    step: PathKind,
    available: usize,
) -> Found
    requires asked_at { AskedAt h cache.now graph.old height entries goal available }
    requires placed { Placed (stack_of h.goals height graph.old) places.now }
    ensures { AnsweredAt h height entries goal step available cache.now
        graph.old graph.new result }
{
    let provisional = lookup_provisional_cache(graph, h, height, entries, goal, step, available);
    if let Some(answer) = provisional {
        return Found::Known(answer);
    }
    let global = lookup_global_cache(cache, graph, h, height, entries, goal, step, available);
    if let Some(answer) = global {
        return Found::Known(answer);
    }
    let cycle = check_cycle_on_stack(graph, places, h, height, goal, step, available);
    if let Some(answer) = cycle {
        return Found::Known(answer);
    }
    Found::Push(available)
}

pub fn lookup(
    cache: &[u8],
    graph: &mut [u8],
    places: &[u8; 64],
    h: Header,
    root: usize,
    height: usize,
    entries: usize,
    goal: usize,
    step: PathKind,
    lower: bool,
) -> Found
    requires asked { Asked h cache.now graph.old root height entries goal }
    requires placed { Placed (stack_of h.goals height graph.old) places.now }
    ensures { Answered h root height entries goal step lower cache.now
        graph.old graph.new result }
{
    let depth = stack::allowed_depth_for_nested(graph, h.goals, h.divisor, root, height, lower);
    if let Some(available) = depth {
        return lookup_at_depth(
            cache, graph, places, h, height, entries, goal, step, available,
        );
    }
    stack::mark_top_overflow(graph, h.goals, height);
    Found::Known(Answer::Overflow)
}
