// Classes of bytes. Each function is a call of the library whose contract gives its value in the words of label/specs.
ghost use Rattle.std.specs.Prelude.{◌≡◌, get_or};
ghost use Rattle.label.specs.Parse.{sign};
ghost use Rattle.label.specs.Bytes.{within, letter, digit, nonzero};

// The byte at `at`, or 0 from the end of the label on. No byte that is tested for is 0.
pub fn byte_at(s: &[u8], at: usize) -> u8
    ensures { result ≡ get_or s.now at 0 }
{
    s.get(at).copied().unwrap_or(0)
}

pub fn within(c: u8, low: u8, high: u8) -> bool
    ensures { result ≡ within low high c }
{
    (low..=high).contains(&c)
}

#[tactic(auto, unfolding(label::specs::Bytes::letter))]
pub fn is_letter(c: u8) -> bool
    ensures { result ≡ letter c }
{
    c.is_ascii_alphabetic()
}

#[tactic(auto, unfolding(label::specs::Bytes::digit))]
pub fn is_digit(c: u8) -> bool
    ensures { result ≡ digit c }
{
    c.is_ascii_digit()
}

#[tactic(auto, unfolding(label::specs::Bytes::nonzero))]
pub fn is_nonzero(c: u8) -> bool
    ensures { result ≡ nonzero c }
{
    within(c, b'1', b'9')
}

// A plus or a minus.
pub fn is_sign(c: u8) -> bool
    ensures { result ≡ sign c }
{
    c == b'+' || c == b'-'
}
