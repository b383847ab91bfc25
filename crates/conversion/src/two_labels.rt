// The exponents of two labels: those of the bases compared, and those of 2, 3, 5 and 487 in first over second.
ghost use Rattle.std.specs.Prelude.{◌≡◌, map};
ghost use Rattle.label.specs.Reading.{exponent};
ghost use Rattle.label.specs.Conversion.{over, same_exponents};
ghost use Rattle.content.specs.Views.{scale_in};
ghost use Rattle.conversion.specs.Answers.{LimitedScale, ReadSums, ratio_in, SmallRatio};

use crate::fraction::ScaleRatio;
use content::sums::Sums;
use label::Refusal;
use reading::read::{Answer, Content, read};

// Where the exponents of 2, 3, 5 and 487 are among those of the primes.
const TWOS: usize = 0;

const THREES: usize = 1;

const FIVES: usize = 2;

const OTHERS: usize = 3;

// What reading the text `s` in notation `n` answers, and the exponent of each base and of 2, 3, 5 and 487, or the refusal. The rest of the
// content goes with this call, so that one content at a time takes room.
pub fn read_sums(n: u32, s: &[u8]) -> Result<(Answer, Sums), Refusal>
    ensures { ReadSums n s.now result }
{
    let mut content = Content::none();
    let a = read(n, s, &mut content)?;
    Ok((a, content.sums))
}

// Whether every base has the same exponent in both.
pub fn same_bases(first: &Sums, second: &Sums) -> bool
    ensures { result ≡ same_exponents (map exponent first.now.bases) (map exponent second.now.bases) }
{
    first.bases == second.bases
}

// The exponents of 2, 3, 5 and 487 in first over second.
pub fn first_over_second(first: &Sums, second: &Sums) -> ScaleRatio
    requires { LimitedScale first.now.primes × LimitedScale second.now.primes }
    ensures { (ratio_in result ≡ over (scale_in first.now.primes) (scale_in second.now.primes)) × SmallRatio result }
{
    ScaleRatio {
        twos: first.primes[TWOS] - second.primes[TWOS],
        threes: first.primes[THREES] - second.primes[THREES],
        fives: first.primes[FIVES] - second.primes[FIVES],
        others: first.primes[OTHERS] - second.primes[OTHERS],
    }
}
