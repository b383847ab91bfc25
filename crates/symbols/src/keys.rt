// Spellings as numbers: their keys, their comparison with a symbol of a table, sets of notations; and where a spelling has a quote.
ghost use Rattle.std.specs.Prelude.{◌≡◌, ◌≤◌, length};
ghost use Rattle.symbols.specs.Keys.{key_of, letter_at, spelling, agrees, pairs_looked_at, most_letters};
ghost use Rattle.symbols.specs.Sets.{has_bit};
ghost use Rattle.symbols.specs.Views.{FirstQuote};

use crate::Comparison;
use slices::find;

// How many letters a key can hold.
pub const MOST_LETTERS: usize = 8;

// A code is made of bytes: it is divided by these.
pub const ONE_BYTE: u32 = 256;

pub const TWO_BYTES: u32 = 256 * ONE_BYTE;

// The largest number of a notation that a set can have.
const MOST_NOTATIONS: u8 = 8;

// The bytes of a spelling as one number in base 256, the first byte highest.
pub fn key(spelling: &[u8]) -> u64
    requires { length spelling.now ≤ most_letters }
    ensures { result ≡ key_of spelling.now }
{
    let mut number = 0;
    for byte in spelling {
        number = number * 256 + u64::from(*byte);
    }
    number
}

// The letter of a key that has `after` letters after it. A key has eight bytes, and nothing but 0 before them.
fn letter(number: u64, after: usize) -> u64
    ensures { result ≡ letter_at after number }
{
    if MOST_LETTERS <= after {
        return 0;
    }
    (number >> (8 * after as u64)) % 256
}

// Compares a spelling of that size and key with a symbol of a table, of which size and key are given too: the sizes first, then letter by
// letter up to the first difference. This is the one place where a spelling is compared with a symbol.
pub fn compare(size: usize, number: u64, symbol_size: usize, symbol_number: u64) -> Comparison
    ensures equal_value { result.equal ≡ agrees size number symbol_size symbol_number }
    ensures pairs_value { result.pairs ≡ pairs_looked_at (spelling size number) (spelling symbol_size symbol_number) }
{
    if size != symbol_size {
        return Comparison {
            equal: false,
            pairs: 0,
        };
    }
    // The turn's number is part of both answers, which a search would leave to be made after it.
    for pairs in 0..size {
        let after = size - pairs - 1;
        if letter(number, after) != letter(symbol_number, after) {
            return Comparison {
                equal: false,
                pairs: pairs + 1,
            };
        }
    }
    Comparison {
        equal: true,
        pairs: size,
    }
}

// Whether `n` is a notation of the set. A set is a byte, a bit for each notation, as the tables have it.
pub fn has_notation(n: u8, set: u8) -> bool
    ensures { result ≡ has_bit n set }
{
    1 <= n && n <= MOST_NOTATIONS && (set >> (n - 1)) % 2 == 1
}

// Where the first quote from `start` up to `end` is, or `end`.
pub fn first_quote(s: &[u8], start: usize, end: usize) -> usize
    requires { (start ≤ end) × (end ≤ length s.now) }
    ensures { FirstQuote s.now start end result }
{
    find(s, start, end, b'\'')
}
