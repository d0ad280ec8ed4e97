// One entry's bytes: `layout::offsets` says where its fields and its heads stand. They are bytes at
// fixed places, and no struct, since they lie in memory that a caller lends.
ghost use Rattle.std.specs.Prelude.{◌≡◌, ◌<◌};
ghost use Rattle.buffer.specs.Regions.{region};
ghost use Rattle.definition.specs.Graph.{with_path_from_head};
ghost use Rattle.definition.specs.Heads.{highest_index};
ghost use Rattle.definition.specs.ProvisionalCache.{survives_rerun};
ghost use Rattle.layout.specs.Blocks.{heads_size};
ghost use Rattle.layout.specs.Entry.{entry_heads_start, entry_of};
ghost use Rattle.provisional_cache.specs.Entries.{EntryBytes, with_fields};
ghost use Rattle.provisional_cache.specs.Entries.{without_head, with_joined_head, with_longer_path};

use definition::answers::Answer;
use definition::heads::CycleHead;
use definition::paths::PathKind;
use layout::offsets;

// ---- reads

pub fn input(entry: &[u8], goals: usize) -> usize
    requires { EntryBytes goals entry.now }
    ensures { (result ≡ (entry_of goals entry.now).input) × (result < 256) }
{
    usize::from(entry[offsets::ENTRY_INPUT])
}

pub fn encountered_overflow(entry: &[u8], goals: usize) -> bool
    requires { EntryBytes goals entry.now }
    ensures { result ≡ (entry_of goals entry.now).encountered_overflow }
{
    entry[offsets::ENTRY_OVERFLOW] != 0
}

pub fn path_from_head(entry: &[u8], goals: usize) -> PathKind
    requires { EntryBytes goals entry.now }
    ensures { result ≡ (entry_of goals entry.now).path_from_head }
{
    PathKind::from(entry[offsets::ENTRY_PATH])
}

pub fn result(entry: &[u8], goals: usize) -> Answer
    requires { EntryBytes goals entry.now }
    ensures { result ≡ (entry_of goals entry.now).result }
{
    Answer::from(entry[offsets::ENTRY_RESULT])
}

// The block of heads.
pub fn heads(entry: &[u8], goals: usize) -> &[u8]
    requires { EntryBytes goals entry.now }
    ensures { result.now ≡ region entry_heads_start (heads_size goals) entry.now }
{
    let end = offsets::ENTRY_HEADS + offsets::heads_size(goals);
    &entry[offsets::ENTRY_HEADS..end]
}

pub fn highest_head(entry: &[u8], goals: usize) -> usize
    requires { EntryBytes goals entry.now }
    ensures { result ≡ highest_index (entry_of goals entry.now).heads }
{
    layout::heads::highest(heads(entry, goals), goals)
}

// Whether it does not depend on the result of the frame at index `rerun`.
pub fn survives_rerun(entry: &[u8], goals: usize, rerun: usize) -> bool
    requires { EntryBytes goals entry.now × (rerun < goals) }
    ensures { result ≡ survives_rerun rerun (entry_of goals entry.now) }
{
    if highest_head(entry, goals) != rerun {
        return true;
    }
    let usages = layout::heads::usages(heads(entry, goals), goals, rerun);
    usages.is_empty()
}

// ---- writes

// The small fields of a new entry; its heads are left alone.
pub fn start(
    entry: &mut [u8],
    goals: usize,
    goal: usize,
    overflow: bool,
    path: PathKind,
    answer: Answer,
)
    requires { EntryBytes goals entry.old × (goal < 256) }
    ensures { entry_of goals entry.new
        ≡ with_fields (entry_of goals entry.old) goal overflow path answer }
{
    entry[offsets::ENTRY_INPUT] = goal as u8;
    entry[offsets::ENTRY_OVERFLOW] = u8::from(overflow);
    entry[offsets::ENTRY_PATH] = u8::from(path);
    entry[offsets::ENTRY_RESULT] = u8::from(answer);
}

// The path from the highest head.
pub fn set_path(entry: &mut [u8], goals: usize, kind: PathKind)
    requires { EntryBytes goals entry.old }
    ensures { entry_of goals entry.new ≡ with_path_from_head (entry_of goals entry.old) kind }
{
    entry[offsets::ENTRY_PATH] = u8::from(kind);
}

// The path from the highest head goes on by a path of a kind.
pub fn extend_path(entry: &mut [u8], goals: usize, kind: PathKind)
    requires { EntryBytes goals entry.old }
    ensures { entry_of goals entry.new ≡ with_longer_path (entry_of goals entry.old) kind }
{
    let before = path_from_head(entry, goals);
    set_path(entry, goals, before.extend(kind));
}

// The head at index i is taken out.
pub fn remove_head(entry: &mut [u8], goals: usize, i: usize)
    requires { EntryBytes goals entry.old × (i < goals) }
    ensures { entry_of goals entry.new ≡ without_head (entry_of goals entry.old) i }
{
    let end = offsets::ENTRY_HEADS + offsets::heads_size(goals);
    layout::heads::remove(&mut entry[offsets::ENTRY_HEADS..end], goals, i);
}

// The head at index i is joined with `head`.
pub fn join_head(entry: &mut [u8], goals: usize, i: usize, head: CycleHead)
    requires { EntryBytes goals entry.old × (i < goals) }
    ensures { entry_of goals entry.new ≡ with_joined_head (entry_of goals entry.old) i head }
{
    let end = offsets::ENTRY_HEADS + offsets::heads_size(goals);
    layout::heads::insert(
        &mut entry[offsets::ENTRY_HEADS..end],
        goals,
        i,
        head.paths,
        head.usages,
    );
}
