// The numbers of a line, in decimal.
ghost use Rattle.std.specs.Prelude.{◌+◌, ◌<◌, ◌^◌, ◌≤◌, length};

// Where the digits end that begin at `at`.
pub(crate) fn number_end(s: &[u8], at: usize) -> usize
    ensures { result ≤ at + length s.now }
{
    let digits = s.iter().skip(at).take_while(|b| b.is_ascii_digit());
    at + digits.count()
}

// A number with one more digit. Behind 100,000,000 no more digits count: no room is so large.
fn with_digit(n: u32, digit: u8) -> u32 {
    if 100_000_000 < n {
        return n;
    }
    10 * n + (digit % 16) as u32
}

// The number whose digits begin at `at`.
pub(crate) fn read_number(s: &[u8], at: usize) -> u32 {
    let mut n = 0;
    for b in s.iter().skip(at) {
        if !b.is_ascii_digit() {
            return n;
        }
        n = with_digit(n, *b);
    }
    n
}
