// A column of a table: what it has for a row.
ghost use Rattle.std.specs.Prelude.{◌≡◌, get_or};

// The element at `i`, or what is given past the last one.
pub(crate) fn element<T: Copy>(column: &[T], i: usize, past: T) -> T
    ensures { result ≡ get_or column.now i past }
{
    column.get(i).copied().unwrap_or(past)
}
