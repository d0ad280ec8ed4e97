// Masks of 64 bits: sets of places. A contract speaks of a mask's flags, the lowest
// bit first.
#![tactic(auto)]

ghost use Rattle.std.specs.Prelude.{◌≡◌, true, false, ◌++◌, ◌-◌, ◌<◌, get_or, set, take, replicate};
ghost use Rattle.std.specs.Iterator.{at_most};
ghost use Rattle.bits.specs.Masks.{flags, first_place, last_place, place_or};
ghost use Rattle.bits.specs.Lowest.{TakesLowest};

// The lowest place, or 64 where there is none. (A number and no Option, as its contract says: every
// place is below 64, so a test `i < lowest(m)` needs no case of its own for no place.)
pub fn lowest(m: u64) -> usize
    ensures { result ≡ place_or 64 (first_place (flags 64 m)) }
{
    u64::trailing_zeros(m) as usize
}

// The highest place, or 0 where there is none: a number too, since no caller tells 0 from none.
pub fn highest(m: u64) -> usize
    ensures { result ≡ place_or 0 (last_place (flags 64 m)) }
{
    (63 - u64::leading_zeros(m | 1)) as usize
}

pub fn has(m: u64, i: usize) -> bool
    ensures { result ≡ get_or (flags 64 m) i false }
{
    if 64 <= i {
        return false;
    }
    (m >> i) & 1 == 1
}

pub fn with(m: u64, i: usize) -> u64
    ensures { flags 64 result ≡ set (flags 64 m) i true }
{
    if 64 <= i {
        return m;
    }
    m | (1u64 << i)
}

pub fn without(m: u64, i: usize) -> u64
    ensures { flags 64 result ≡ set (flags 64 m) i false }
{
    if 64 <= i {
        return m;
    }
    m & !(1u64 << i)
}

// The places below i.
pub fn below(m: u64, i: usize) -> u64
    ensures { flags 64 result ≡ take i (flags 64 m) ++ replicate (64 - i) false }
{
    if 64 <= i {
        return m;
    }
    m & ((1u64 << i) - 1)
}

// All places but the lowest.
pub fn without_lowest(m: u64) -> u64
    requires { 0 < m }
    ensures { (flags 64 result ≡ set (flags 64 m) (place_or 64 (first_place (flags 64 m))) false) × (result < m) }
{
    m & (m - 1)
}

// The places of a mask that are still to come, the lowest first.
#[derive(Debug, Drop)]
pub struct PlacesLeft {
    pub mask: u64,
}

// The places of a mask, one by one, the lowest first.
pub fn places(m: u64) -> PlacesLeft
    ensures { result.mask ≡ m }
{
    PlacesLeft { mask: m }
}

impl Iterator for PlacesLeft {
    type Item = usize;

    ghost next_gives = { λ old place new. TakesLowest old.mask place new.mask };

    ghost remaining = { λ places. at_most places.mask };

    fn next(&mut self) -> Option<usize> {
        if self.mask == 0 {
            return None;
        }
        let place = lowest(self.mask);
        self.mask = without_lowest(self.mask);
        Some(place)
    }
}
