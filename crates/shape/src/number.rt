// The number that a seed's text is.
ghost use Rattle.std.specs.Prelude.{not, ◌≡◌};
ghost use Rattle.yaml_job.specs.Job.{well_led};
ghost use Rattle.shape.specs.Number.{number_from, number_in};

use chars::class::is_digit;

// Whether a zero stands before other digits, or there is no digit at all.
fn badly_led(s: &[u8]) -> bool
    ensures { result ≡ not (well_led s.now) }
{
    match s {
        [] => true,
        [_] => false,
        [first, ..] => *first == b'0',
    }
}

// The value of digits; none where a byte is no digit, or the value is too large.
fn digits_value(s: &[u8]) -> Option<u32>
    ensures { result ≡ number_from 0 s.now }
{
    let mut v: u32 = 0;
    for c in s {
        if !is_digit(*c as u32) {
            return None;
        }
        v = v.checked_mul(10)?.checked_add((*c - b'0') as u32)?;
    }
    Some(v)
}

// Digits without a leading zero, but for 0 itself; from 0 to 4,294,967,295.
pub(crate) fn number_in(s: &[u8]) -> Option<u32>
    ensures { result ≡ number_in s.now }
{
    if badly_led(s) {
        return None;
    }
    digits_value(s)
}
