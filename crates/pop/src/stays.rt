// Whether an entry e that used the popped frame p stays; ep, ph and hp are the paths between e, p
// and the heads h of p.
ghost use Rattle.std.specs.Prelude.{◌≡◌, ◌*◌, ◌<◌, not, ◌||◌, leb};
ghost use Rattle.definition.specs.Paths.{kind_number, contains_path, extend, iter_paths};
ghost use Rattle.definition.specs.Stack.{Stack};
ghost use Rattle.definition.specs.ProvisionalCache.{fixpoint_keeps, reason_keeps};
ghost use Rattle.layout.specs.Work.{entry_from};
ghost use Rattle.pop.specs.Popped.{FrameFirst, RestBytes, popped_frame, PathsFrom};
ghost use Rattle.pop.specs.Popped.{bound_keeps, Decides, lowest_of};
ghost use Rattle.pop.specs.Heads.{entry_stays};

use crate::popped;
use crate::popped::Popped;
use definition::answers::Answer;
use definition::endings::{Fixpoint, RebaseReason};
use definition::paths::{PathKind, PathsToNested};
use definition::usages::HeadUsages;
use provisional_cache::entry;

// The kinds of paths, the lowest first.
const PATH_KINDS: [PathKind; 4] = [
    PathKind::Inductive,
    PathKind::Unknown,
    PathKind::Coinductive,
    PathKind::ForcedAmbiguity,
];

// The lowest kind of a path among `paths`; where there is none, the highest, which no path is
// above.
fn lowest_kind(paths: PathsToNested) -> PathKind
    ensures { kind_number result ≡ lowest_of (iter_paths paths.bits) }
{
    if paths.contains(PathKind::Inductive) {
        return PathKind::Inductive;
    }
    if paths.contains(PathKind::Unknown) {
        return PathKind::Unknown;
    }
    if paths.contains(PathKind::Coinductive) {
        return PathKind::Coinductive;
    }
    PathKind::ForcedAmbiguity
}

// The lowest kind of a path hph, from a head h of p to p and on to h again; the highest where there is
// none.
//
// As a goal nested in e, p closes its cycles by way of e. What a cycle is given depends on its
// kind: p would come to the same result there only if each cycle by way of e has the kind that it
// had without e. A path by way of e has all the steps of hph, and ep and the path of e besides. Its
// kind is the highest of theirs, so it is that of hph only where none of the latter is higher. The
// lowest hph allows the least, so it alone decides, and for every entry.
pub fn lowest_cycle(rest: &[u8], goals: usize, paths: &[PathKind; 64]) -> PathKind
    requires { FrameFirst goals rest.now }
    ensures { (s : Stack) → PathsFrom s (popped_frame goals rest.now) paths.now
        → Decides s (popped_frame goals rest.now) (kind_number result) }
{
    let mut lowest = PathKind::ForcedAmbiguity;
    let mask = popped::popped_mask(rest, goals);
    for i in bits::places(mask) {
        let head = popped::popped_head(rest, goals, i);
        let phs = PathsToNested { bits: head.paths };
        let kind = lowest_kind(phs).max(paths[i]);
        lowest = lowest.min(kind);
    }
    lowest
}

// Whether ep, where it is among the paths, and the path of e are no higher than the lowest cycle.
fn ep_keeps(lowest: PathKind, path: PathKind, eps: PathsToNested, ep: PathKind) -> bool
    ensures { result ≡ (not (contains_path eps.bits ep)
        || leb (kind_number (extend ep path)) (kind_number lowest)) }
{
    !eps.contains(ep) || ep.extend(path) <= lowest
}

// Whether the paths from each head of p keep their kind by way of e.
fn paths_keep_kind(lowest: PathKind, path: PathKind, eps: PathsToNested) -> bool
    ensures { result ≡ bound_keeps (kind_number lowest) path (iter_paths eps.bits) }
{
    PATH_KINDS.iter().all(|ep| ep_keeps(lowest, path, eps, *ep))
}

// Whether the fixpoint lets an entry with these usages of p stay. At the first one the entry was
// given the initial result of a kind, so it must have used p in that kind alone.
fn fixpoint_keeps(fixpoint: Fixpoint, usages: HeadUsages) -> bool
    ensures { result ≡ fixpoint_keeps fixpoint usages }
{
    match fixpoint {
        Fixpoint::First(kind) => usages.is_single(kind),
        Fixpoint::Later => true,
    }
}

// Whether the reason lets an entry with this result and these usages of p stay. The entry was
// given the provisional result of p, which is what p came to only at a fixpoint. Without one it
// stays only where p is ambiguous, and it is so in the same way.
fn reason_keeps(reason: RebaseReason, res: Answer, usages: HeadUsages) -> bool
    ensures { result ≡ reason_keeps reason res usages }
{
    match reason {
        RebaseReason::NoCycleUsages => false,
        RebaseReason::Ambiguity(kind) => res.is_ambiguous() && res == kind,
        RebaseReason::ReachedFixpoint(fixpoint) => fixpoint_keeps(fixpoint, usages),
    }
}

// Whether entry k, which used p, stays.
pub fn stays(rest: &[u8], p: &Popped, k: usize, usages: HeadUsages, eps: PathsToNested) -> bool
    requires { RestBytes p.now.goals p.now.base rest.now × (k < 2 * p.now.goals) }
    ensures { (s : Stack) → Decides s (popped_frame p.now.goals rest.now) (kind_number p.now.lowest)
        → result ≡ entry_stays s (popped_frame p.now.goals rest.now) p.now.reason
        (entry_from p.now.goals p.now.base k rest.now) usages eps.bits }
{
    let entry = provisional_cache::entry_from(rest, p.goals, p.base, k);
    let path = entry::path_from_head(entry, p.goals);
    let res = entry::result(entry, p.goals);
    paths_keep_kind(p.lowest, path, eps) && reason_keeps(p.reason, res, usages)
}
