// Runs of bytes of one class.
ghost use Rattle.std.specs.Prelude.{◌≤◌, ℕ, Bool, length};
ghost use Rattle.label.specs.Bytes.{letter, digit};
ghost use Rattle.scan.specs.Runs.{Run, Decides, is_space, is_zero};

use crate::class::{is_digit, is_letter};

// The end of the run of bytes of a class that starts at `at`.
fn run<F: Fn(u8) -> bool>(s: &[u8], at: usize, class: F) -> usize
    requires at_in_bounds { at ≤ length s.now }
    requires callable { F.IsAlwaysCallable class }
    ensures { (p : ℕ → Bool) → Decides (F.post class) p → Run p s.now at result }
{
    match s[at..].iter().position(|c| !class(*c)) {
        Some(n) => at + n,
        None => s.len(),
    }
}

// The end of the run of letters that starts at `at`.
pub fn letters(s: &[u8], at: usize) -> usize
    requires { at ≤ length s.now }
    ensures { Run letter s.now at result }
{
    run(s, at, is_letter)
}

// The end of the run of digits that starts at `at`.
pub fn digits(s: &[u8], at: usize) -> usize
    requires { at ≤ length s.now }
    ensures { Run digit s.now at result }
{
    run(s, at, is_digit)
}

// The end of the run of spaces that starts at `at`.
pub fn spaces(s: &[u8], at: usize) -> usize
    requires { at ≤ length s.now }
    ensures { Run is_space s.now at result }
{
    run(s, at, |c| c == b' ')
}

// The end of the run of the digit 0 that starts at `at`.
pub fn zeros(s: &[u8], at: usize) -> usize
    requires { at ≤ length s.now }
    ensures { Run is_zero s.now at result }
{
    run(s, at, |c| c == b'0')
}
