// The letters of a key.
ghost use Rattle.rewriting.specs.Texts.{Writes};
ghost use Rattle.rewriting.specs.Letters.{letters_of};

use crate::text::Text;

// Writes the letters of a key, `most` at most. Unlike the digits of `push_figures` there may be none; each contract names its own definition.
pub fn push_key<const N: usize>(text: &mut Text<N>, most: u8, key: u64)
    ensures { Writes N text.old (letters_of most key) text.new }
{
    if most > 0 && key > 0 {
        push_key(text, most - 1, key / 256);
        text.push((key % 256) as u8);
    }
}
