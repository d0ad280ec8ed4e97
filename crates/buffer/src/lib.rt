// Bytes in a borrowed buffer.
#![tactic(auto)]

ghost use Rattle.std.specs.Prelude.{◌≡◌, ◌+◌, ◌*◌, ◌<◌, ◌≤◌, length, get_or, set, replicate};
ghost use Rattle.buffer.specs.Numbers.{number_of, bytes_of};
ghost use Rattle.buffer.specs.Regions.{region, overwrite, all_zero};

// The byte at a place, 0 past the end.
pub fn get(s: &[u8], i: usize) -> u8
    ensures { result ≡ get_or s.now i 0 }
{
    s.get(i).copied().unwrap_or(0)
}

// Writes the byte at a place; past the end it does nothing. (Through `get_mut` the proof did not
// close: its contract does not say what the slice is after the write.)
pub fn put(s: &mut [u8], i: usize, v: u8)
    ensures { s.new ≡ set s.old i v }
{
    if i < s.len() {
        s[i] = v;
    }
}

// Two bytes as a number.
pub fn load_pair(b: &[u8], i: usize) -> u64
    requires { i + 1 < length b.now }
    ensures { (result ≡ get_or b.now i 0 + 256 * get_or b.now (i + 1) 0) × (result < 65536) }
{
    u64::from(u16::from_le_bytes([b[i], b[i + 1]]))
}

// The number in the 8 bytes from `at` on, the lowest byte first.
pub fn read_u64(s: &[u8], at: usize) -> u64
    requires { at + 8 ≤ length s.now }
    ensures { result ≡ number_of (region at 8 s.now) }
{
    let b = &s[at..at + 8];
    u64::from_le_bytes([b[0], b[1], b[2], b[3], b[4], b[5], b[6], b[7]])
}

// Writes a number to the 8 bytes from `at` on.
pub fn write_u64(s: &mut [u8], at: usize, n: u64)
    requires { at + 8 ≤ length s.old }
    ensures { s.new ≡ overwrite s.old at (bytes_of 8 n) }
{
    s[at..at + 8].copy_from_slice(&n.to_le_bytes());
}

pub fn fill_zero(s: &mut [u8])
    ensures { s.new ≡ replicate (length s.old) 0 }
{
    s.fill(0);
}

// Moves n bytes down.
pub fn copy_within(s: &mut [u8], from: usize, to: usize, n: usize)
    requires { (to ≤ from) × (from + n ≤ length s.old) }
    ensures { s.new ≡ overwrite s.old to (region from n s.old) }
{
    s.copy_within(from..from + n, to);
}

// Whether every byte is 0: 8 at once, the last 8 again, so that none is left over. (As one fold over the
// bytes, which the compiler takes 16 at once, a cached query takes 2 to 4 % more instructions.)
pub fn all_zero(s: &[u8]) -> bool
    ensures { result ≡ all_zero s.now }
{
    let n = s.len();
    if n < 8 {
        return s.iter().all(|b| *b == 0);
    }
    let words = n / 8;
    let mut all = read_u64(s, n - 8);
    for i in 0..words {
        all |= read_u64(s, 8 * i);
    }
    all == 0
}
