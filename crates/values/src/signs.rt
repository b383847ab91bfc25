// A number under a sign.
ghost use Rattle.std.specs.Prelude.{◌≡◌, ◌<◌, ◌^◌};
ghost use Rattle.label.specs.Limits.{signed};

// The number `n` under a sign.
pub fn signed(negative: bool, n: u32) -> i32
    requires { n < 2 ^ 31 }
    ensures { result ≡ signed negative n }
{
    let size = n as i32;
    if negative { -size } else { size }
}
