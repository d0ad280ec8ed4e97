// Cycle heads.
use crate::usages::HeadUsages;

// A cycle head: `paths_to_head`, as flags in a byte, which the definition's record has too, and
// its usages.
#[derive(Debug, Clone, Copy, PartialEq, Eq)]
pub struct CycleHead {
    pub paths: u8,
    pub usages: HeadUsages,
}
