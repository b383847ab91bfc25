// Words that are written into a text one after the other, each after a space.
ghost use Rattle.std.specs.Prelude.{[], ◌∷◌};
ghost use Rattle.words.specs.Speech.{SaysWords};

use rewriting::text::Text;

// Writes a word.
pub fn say<const N: usize>(text: &mut Text<N>, word: &[u8])
    ensures { SaysWords N text.old (word.now ∷ []) text.new }
{
    text.push(b' ');
    text.append(word);
}
