// A number in three columns, written.
ghost use Rattle.std.specs.Prelude.{◌≡◌};
ghost use Rattle.definition.specs.Line.{leading_column, last_column, columns};

// A number's last column: its last digit.
pub fn last(n: u16) -> u8
    ensures { result ≡ last_column n }
{
    b'0' + (n % 10) as u8
}

// A column before the last: the last digit of what is left of the number, or a space
// where nothing is.
pub fn leading(n: u16) -> u8
    ensures { result ≡ leading_column n }
{
    if n == 0 { b' ' } else { last(n) }
}

// All three.
pub fn of_number(n: u16) -> [u8; 3]
    ensures { result ≡ columns n }
{
    [leading(n / 100), leading(n / 10), last(n)]
}
