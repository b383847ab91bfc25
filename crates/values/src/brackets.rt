// How many brackets are open at once.
ghost use Rattle.std.specs.Prelude.{◌≡◌, ◌<◌};
ghost use Rattle.label.specs.Limits.{opened, deepest};

// How many brackets are open after the byte `c`, where `depth` were open before it.
fn opened(depth: usize, c: u8) -> usize
    requires { depth < 18446744073709551615 }
    ensures { result ≡ opened depth c }
{
    match c {
        b'(' => depth + 1,
        b')' => depth.saturating_sub(1),
        _ => depth,
    }
}

// The most brackets that are open at once. A bracket that closes nothing does not count.
#[tactic(auto, using(crate::proofs::OpenBrackets::counted_none, crate::proofs::OpenBrackets::counted_more, crate::proofs::OpenBrackets::counted_end))]
pub fn deepest(s: &[u8]) -> usize
    ensures { result ≡ deepest s.now }
{
    let mut most = 0;
    let mut depth = 0;
    for c in s {
        let next = opened(depth, *c);
        most = most.max(next);
        depth = next;
    }
    most
}
