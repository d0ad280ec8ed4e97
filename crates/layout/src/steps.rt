// Counts of steps in one number: 16 bits for each kind, the latest kind highest. (No struct of four
// counts: a frame has 8 bytes for them, and `latest` compares the number as it is.)
ghost use Rattle.std.specs.Prelude.{◌≡◌};
ghost use Rattle.definition.specs.Steps.{count_step};
ghost use Rattle.layout.specs.Steps.{weight_of, unpacked, Few, latest_kind};

use definition::paths::PathKind;

// One step of each kind but the first, whose steps count 1.
const UNKNOWN: u64 = 1 << 16;

const COINDUCTIVE: u64 = 1 << 32;

const FORCED: u64 = 1 << 48;

// One step of a kind.
fn one(kind: PathKind) -> u64
    ensures { result ≡ weight_of kind }
{
    match kind {
        PathKind::Inductive => 1,
        PathKind::Unknown => UNKNOWN,
        PathKind::Coinductive => COINDUCTIVE,
        PathKind::ForcedAmbiguity => FORCED,
    }
}

// One step more.
pub fn with(steps: u64, kind: PathKind) -> u64
    requires { Few (unpacked steps) }
    ensures { unpacked result ≡ count_step kind (unpacked steps) }
{
    steps + one(kind)
}

// The latest kind of which there is a step.
pub fn latest(steps: u64) -> PathKind
    ensures { result ≡ latest_kind (unpacked steps) }
{
    if FORCED <= steps {
        return PathKind::ForcedAmbiguity;
    }
    if COINDUCTIVE <= steps {
        return PathKind::Coinductive;
    }
    if UNKNOWN <= steps {
        return PathKind::Unknown;
    }
    PathKind::Inductive
}
