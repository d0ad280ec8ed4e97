// A line of a book: 16 bytes, five fields of three columns and a newline.
ghost use Rattle.std.specs.Prelude.{◌≡◌, ◌&&◌, ◌+◌, ◌≤◌, ◌<◌, eqb, length};
ghost use Rattle.definition.specs.Line.{is_space, is_leading_digit, is_field, digit_value, field_value};
ghost use Rattle.definition.specs.Reader.{lines_of};
ghost use Rattle.book.specs.Lines.{field_in, line_in, field_fits, line_fits, lines_if};

use definition::format::Line;

// A digit that can stand first.
fn is_leading_digit(c: u8) -> bool
    ensures { result ≡ is_leading_digit c }
{
    matches!(c, b'1'..=b'9')
}

// Whether two columns are spaces, by one comparison.
fn both_spaces(x: u8, y: u8) -> bool
    ensures { result ≡ is_space x && is_space y }
{
    u32::from(x) + 256 * u32::from(y) == 8224
}

// Whether three columns are a field: right-justified after spaces, no leading zero.
pub fn is_field(x: u8, y: u8, z: u8) -> bool
    ensures { result ≡ is_field x y z }
{
    if !z.is_ascii_digit() {
        return false;
    }
    if both_spaces(x, y) {
        return true;
    }
    if x != b' ' {
        return is_leading_digit(x) && y.is_ascii_digit();
    }
    is_leading_digit(y)
}

// The value of a column; a space counts as 0.
fn digit(c: u8) -> u16
    ensures { (result ≡ digit_value c) × (result ≤ 207) }
{
    u16::from(c.saturating_sub(b'0'))
}

// The number that a field says.
pub fn field(x: u8, y: u8, z: u8) -> u16
    ensures { result ≡ field_value x y z }
{
    if both_spaces(x, y) {
        return digit(z);
    }
    digit(x) * 100 + digit(y) * 10 + digit(z)
}

// Whether a field says 0: no column is above '0'.
fn is_zero(x: u8, y: u8, z: u8) -> bool
    ensures { result ≡ eqb (field_value x y z) 0 }
{
    z <= b'0' && (both_spaces(x, y) || x <= b'0' && y <= b'0')
}

// The number of the field whose first column is at place i. (`is_zero_at` and `fits_at` hand the same
// columns to another function: one that takes the function would be no shorter.)
pub fn field_at(s: &[u8], i: usize) -> u16
    requires { i + 2 < length s.now }
    ensures { result ≡ field_in s.now i }
{
    field(s[i], s[i + 1], s[i + 2])
}

// The same where it has one digit: the columns before the last say nothing.
pub fn digit_at(s: &[u8], i: usize) -> u16
    requires { (i + 2 < length s.now) × (field_in s.now i ≤ 9) }
    ensures { result ≡ field_in s.now i }
{
    digit(s[i + 2])
}

// Whether the field whose first column is at place i says 0.
pub fn is_zero_at(s: &[u8], i: usize) -> bool
    requires { i + 2 < length s.now }
    ensures { result ≡ eqb (field_in s.now i) 0 }
{
    is_zero(s[i], s[i + 1], s[i + 2])
}

// The numbers of the first line.
#[tactic(auto, unfolding(crate::specs::Lines::line_in))]
pub fn first(s: &[u8]) -> Line
    requires { 16 ≤ length s.now }
    ensures { result ≡ line_in s.now }
{
    Line {
        code: field_at(s, 0),
        first: field_at(s, 3),
        second: field_at(s, 6),
        third: field_at(s, 9),
        fourth: field_at(s, 12),
    }
}

// Whether a field stands at place i.
fn fits_at(s: &[u8], i: usize) -> bool
    requires { i + 2 < length s.now }
    ensures { result ≡ field_fits s.now i }
{
    is_field(s[i], s[i + 1], s[i + 2])
}

// Whether the first line is well-formed.
#[tactic(auto, unfolding(crate::specs::Lines::line_fits))]
fn first_fits(s: &[u8]) -> bool
    requires { 16 ≤ length s.now }
    ensures { result ≡ line_fits s.now }
{
    fits_at(s, 0)
        && fits_at(s, 3)
        && fits_at(s, 6)
        && fits_at(s, 9)
        && fits_at(s, 12)
        && s[15] == b'\n'
}

// Whether every line of a book is well-formed.
pub fn all_fit(book: &[u8]) -> bool
    ensures { lines_of book.now ≡ lines_if result book.now }
{
    for t in book.chunks_exact(16) {
        if !first_fits(t) {
            return false;
        }
    }
    true
}
