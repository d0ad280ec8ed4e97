// A book's first line.
ghost use Rattle.std.specs.Prelude.{◌≡◌};
ghost use Rattle.definition.specs.Reader.{header_in_range, header_of};

use definition::format::{Header, Line};

pub fn in_range(l: Line) -> bool
    ensures { result ≡ header_in_range l }
{
    l.code <= 1
        && 1 <= l.first
        && l.first <= 64
        && l.second <= 63
        && l.third <= 99
        && 1 <= l.fourth
        && l.fourth <= 99
}

pub fn of_line(l: Line) -> Header
    ensures { result ≡ header_of l }
{
    Header {
        provisional: l.code == 1,
        goals: usize::from(l.first),
        top: usize::from(l.second),
        limit: usize::from(l.third),
        divisor: usize::from(l.fourth),
    }
}
