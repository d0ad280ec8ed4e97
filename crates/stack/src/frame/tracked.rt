// The usages of the candidate that a frame tracks, on one frame's bytes:
// enter_single_candidate, finish_single_candidate and ignore_candidate_head_usages of mod.rs.
ghost use Rattle.std.specs.Prelude.{◌≡◌, ◌<◌, get_or};
ghost use Rattle.std.proofs.Math.Option.{none, some};
ghost use Rattle.definition.specs.Usages.{no_usages, usages_cover};
ghost use Rattle.definition.specs.Heads.{usages_at};
ghost use Rattle.definition.specs.Stack.{with_candidate_usages};
ghost use Rattle.definition.specs.Parent.{or_no_usages};
ghost use Rattle.definition.specs.Candidates.{no_candidate_usages};
ghost use Rattle.buffer.specs.Regions.{region};
ghost use Rattle.layout.specs.Blocks.{block_size};
ghost use Rattle.layout.specs.Frame.{candidate_start, frame_of};
ghost use Rattle.stack.specs.Bytes.{FrameBytes, FrameChanged};
ghost use Rattle.layout.specs.AtIndex.{Names};
ghost use Rattle.stack.specs.Tracked.{tracked_of, ignore_head_at, ignore_own};

use crate::frame;
use definition::usages::HeadUsages;
use layout::{candidate, heads, offsets, records};

// enter_single_candidate
pub fn enter(frame: &mut [u8], goals: usize)
    requires { FrameBytes goals frame.old }
    ensures { FrameChanged goals (λ f. with_candidate_usages f (some (no_candidate_usages goals)))
        frame.old frame.new }
{
    let start = offsets::candidate_start(goals);
    let end = offsets::nested_start(goals);
    candidate::clear(&mut frame[start..end], goals);
    frame[offsets::FRAME_TRACKS] = 1;
}

// finish_single_candidate, which forgets the candidate's usages
pub fn finish(frame: &mut [u8], goals: usize)
    requires { FrameBytes goals frame.old }
    ensures { FrameChanged goals (λ f. with_candidate_usages f none) frame.old frame.new }
{
    frame[offsets::FRAME_TRACKS] = 0;
}

// The block of the candidate's usages.
fn block(frame: &[u8], goals: usize) -> &[u8]
    requires { FrameBytes goals frame.now }
    ensures { result.now ≡ region (candidate_start goals) (block_size goals) frame.now }
{
    let start = offsets::candidate_start(goals);
    let end = offsets::nested_start(goals);
    &frame[start..end]
}

// The indices that the candidate used.
pub fn mask(frame: &[u8], goals: usize) -> u64
    requires { FrameBytes goals frame.now }
    ensures { Names goals result (tracked_of goals (frame_of goals frame.now)) }
{
    if !frame::tracks(frame, goals) {
        return 0;
    }
    candidate::mask(block(frame, goals), goals)
}

// How the candidate used the head at index i; not at all where the frame tracks none.
pub fn usages(frame: &[u8], goals: usize, i: usize) -> HeadUsages
    requires { FrameBytes goals frame.now × (i < goals) }
    ensures { result ≡ get_or (tracked_of goals (frame_of goals frame.now)) i no_usages }
{
    if !frame::tracks(frame, goals) {
        return HeadUsages::none();
    }
    candidate::usages(block(frame, goals), goals, i)
}

// Whether the usages u can be taken from the head at index i.
pub fn head_covers(frame: &[u8], goals: usize, i: usize, u: HeadUsages) -> bool
    requires { FrameBytes goals frame.now × (i < goals) }
    ensures { result ≡ usages_cover (usages_at (frame_of goals frame.now).heads i) u }
{
    let usages = heads::usages(frame::heads(frame, goals), goals, i);
    usages.covers(u)
}

// Whether the usages u can be taken from the frame's own.
pub fn own_covers(frame: &[u8], goals: usize, u: HeadUsages) -> bool
    requires { FrameBytes goals frame.now }
    ensures { result ≡ usages_cover (or_no_usages (frame_of goals frame.now).usages) u }
{
    let usages = frame::own_usages(frame, goals);
    usages.covers(u)
}

// The usages u are taken from the head at index i, if there is one.
pub fn ignore_head(frame: &mut [u8], goals: usize, i: usize, u: HeadUsages)
    requires { FrameBytes goals frame.old × (i < goals) }
    ensures { FrameChanged goals (ignore_head_at i u) frame.old frame.new }
{
    let end = offsets::candidate_start(goals);
    heads::ignore(&mut frame[offsets::FRAME_HEADS..end], goals, i, u);
}

// The usages u are taken from the frame's own, if it is a head.
pub fn ignore_own(frame: &mut [u8], goals: usize, u: HeadUsages)
    requires { FrameBytes goals frame.old }
    ensures { FrameChanged goals (ignore_own u) frame.old frame.new }
{
    if !frame::is_head(frame, goals) {
        return;
    }
    let before = frame::own_usages(frame, goals);
    records::write_usages(
        &mut frame[offsets::FRAME_USAGES..offsets::FRAME_HEADS],
        before.ignore_usages(u),
    );
}
