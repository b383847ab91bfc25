// The bytes that a label may have.
ghost use Rattle.std.specs.Prelude.{◌≡◌};
ghost use Rattle.label.specs.Bytes.{admitted, all};

use scan::class::within;

// Whether every byte lies from hexadecimal 20 to 7E.
pub fn all_admitted(s: &[u8]) -> bool
    ensures { result ≡ all admitted s.now }
{
    s.iter().all(|c| within(*c, b' ', b'~'))
}
