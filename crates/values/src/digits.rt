// Runs of digits: whether a run is short, and the number that a short run writes.
ghost use Rattle.std.specs.Prelude.{◌≡◌, ◌&&◌, ◌+◌, ◌*◌, ◌-◌, ◌<◌, ◌≤◌, leb};
ghost use Rattle.label.specs.Bytes.{digit_zero};
ghost use Rattle.label.specs.Limits.{most_digits, number_from, number};
ghost use Rattle.label.specs.Ranges.{digits_in, Inside};
ghost use Rattle.values.specs.Bounds.{number_bound};

use label::{DigitRange, MOST_DIGITS};

// Whether a run has at most four digits.
pub fn is_short(d: DigitRange) -> bool
    requires { d.start ≤ d.end }
    ensures { result ≡ leb (d.end - d.start) most_digits }
{
    d.end - d.start <= MOST_DIGITS
}

// Whether two runs have at most four digits each.
pub fn are_short(a: DigitRange, b: DigitRange) -> bool
    requires start_le_end { a.start ≤ a.end }
    requires start_le_end_2 { b.start ≤ b.end }
    ensures { result ≡ (leb (a.end - a.start) most_digits && leb (b.end - b.start) most_digits) }
{
    is_short(a) && is_short(b)
}

// What a byte counts as a digit: 0 where it is below the digits.
fn digit_value(c: u8) -> u32
    ensures { (result ≡ c - digit_zero) × (result ≤ 207) }
{
    u32::from(c.saturating_sub(b'0'))
}

// The number that a short run of digits writes after the number `n`. specs/Bounds.antt says why it
// has its bound.
#[tactic(auto, using(crate::proofs::Numbers::run_length, crate::proofs::Numbers::passed_none, crate::proofs::Numbers::passed_size, crate::proofs::Numbers::passed_room, crate::proofs::Numbers::passed_end))]
pub fn number_from(s: &[u8], n: u32, d: DigitRange) -> u32
    requires inside { Inside s.now d }
    requires start_bound { d.end - d.start ≤ most_digits }
    requires n_lt_number_bound { n < number_bound }
    ensures value { result ≡ number_from n (digits_in s.now d) }
    ensures size { result + 23 ≤ (n + 23) * 10000 }
{
    let digits = &s[d.start..d.end];
    let mut value = n;
    for c in digits {
        value = value * 10 + digit_value(*c);
    }
    value
}

// The number that a short run of digits writes.
#[tactic(auto, unfolding(label::specs::Limits::number))]
pub fn number(s: &[u8], d: DigitRange) -> u32
    requires inside { Inside s.now d }
    requires start_bound { d.end - d.start ≤ most_digits }
    ensures value { result ≡ number (digits_in s.now d) }
    ensures size { result < number_bound }
{
    number_from(s, 0, d)
}
