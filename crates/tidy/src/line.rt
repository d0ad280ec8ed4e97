// A line, written.
ghost use Rattle.std.specs.Prelude.{◌≡◌, ◌++◌, ◌+◌, ◌≤◌, length, drop};
ghost use Rattle.tidy.specs.Write.{line_with, write_line};
ghost use Rattle.tidy.specs.Engine.{put_columns};

use book::columns;
use definition::format::Line;

// A number in the three columns from place i on.
fn put(s: &mut [u8], i: usize, n: u16)
    requires { i + 3 ≤ length s.old }
    ensures { s.new ≡ put_columns s.old i n }
{
    s[i..i + 3].copy_from_slice(&columns::of_number(n));
}

fn fill(s: &mut [u8], l: Line)
    requires { length s.old ≡ 16 }
    ensures { s.new ≡ write_line l }
{
    put(s, 0, l.code);
    put(s, 3, l.first);
    put(s, 6, l.second);
    put(s, 9, l.third);
    put(s, 12, l.fourth);
    s[15] = b'\n';
}

// Writes a line to the first 16 bytes.
pub fn write(out: &mut [u8], l: Line)
    requires { 16 ≤ length out.old }
    ensures { out.new ≡ write_line l ++ drop 16 out.old }
{
    fill(&mut out[..16], l);
}

// The same of a line that uses its code and one number.
pub fn write_with(out: &mut [u8], code: u16, n: u16)
    requires { 16 ≤ length out.old }
    ensures { out.new ≡ write_line (line_with code n) ++ drop 16 out.old }
{
    write(
        out,
        Line {
            code,
            first: n,
            second: 0,
            third: 0,
            fourth: 0,
        },
    );
}
