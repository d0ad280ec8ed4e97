// How a frame ends, and why provisional entries are rebased.
use crate::answers::Answer;
use crate::paths::PathKind;

// A fixpoint: at the first one the cycles were given the initial result of a kind, at a later one
// the provisional result. The Rust has an `Option` of a kind, whose `None` does not say that.
#[derive(Debug, Clone, Copy, PartialEq, Eq)]
pub enum Fixpoint {
    First(PathKind),
    Later,
}

// Why provisional entries are rebased.
#[derive(Debug, Clone, Copy, PartialEq, Eq)]
pub enum RebaseReason {
    NoCycleUsages,
    Ambiguity(Answer),
    ReachedFixpoint(Fixpoint),
}

// What follows when a frame is taken off the stack: nothing for a goal that heads no ring, rebasing
// for one of four reasons, or clearing the entries that depend on it before it runs again.
#[derive(Debug, Clone, Copy, PartialEq, Eq)]
pub enum Ending {
    Nothing,
    Fixpoint(Fixpoint),
    NoUsages,
    Ambiguity(Answer),
    Overflow,
    Rerun,
}
