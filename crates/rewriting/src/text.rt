// A text that is written piece by piece into an array.
ghost use Rattle.std.specs.Prelude.{[], ◌∷◌, ◌≡◌, Ok, Err, MatchResult};
ghost use Rattle.label.specs.Choice.{pick};
ghost use Rattle.rewriting.specs.declared.text.Unkept.TheVariants.{WithoutForm};
ghost use Rattle.rewriting.specs.Texts.{Writes};

use std::marker::Model;

// A spelling of 255 letters with a prefix and quotes fits.
pub const ROOM: usize = 260;

// Why a text is not kept.
#[derive(Clone, Copy)]
pub enum Unkept {
    // It is longer than the array.
    Overlong,
    // A piece of it has no form.
    WithoutForm,
}

// A text in an array of `N` bytes. A longer one is not kept, nor one without a form.
#[derive(Drop)]
pub struct Text<const N: usize> {
    bytes: [u8; N],
    // How many of the bytes are written, where the text is kept.
    length: Result<usize, Unkept>,
}

impl<const N: usize> Model for Text<N> {
    ghost use Rattle.std.specs.Prelude.{ℕ, ◌≤◌, List, take, Result, IfOk};
    ghost use Rattle.std.specs.Result.{result_map_both};
    ghost use Rattle.rewriting.specs.declared.text.Unkept.{Unkept};

    ghost Value = { Result (List ℕ) Unkept };

    ghost view = { λ t. result_map_both (λ n. take n t.bytes) (λ e. e) t.length };

    ghost invariant = { λ t. IfOk t.length (λ n. n ≤ N) };
}

impl<const N: usize> Text<N> {
    // An empty text.
    pub fn new() -> Self
        ensures { result ≡ Ok [] }
    {
        Text {
            bytes: [0; N],
            length: Ok(0),
        }
    }

    // Writes a byte.
    pub fn push(&mut self, byte: u8)
        ensures { Writes N self.old (byte ∷ []) self.new }
    {
        self.length = match self.length {
            Ok(length) if length < N => {
                self.bytes[length] = byte;
                Ok(length + 1)
            }
            Ok(_) => Err(Unkept::Overlong),
            Err(unkept) => Err(unkept),
        };
    }

    // Writes the bytes of `s`.
    pub fn append(&mut self, s: &[u8])
        ensures { Writes N self.old s.now self.new }
    {
        for byte in s {
            self.push(*byte);
        }
    }

    // Writes the bytes of `s` where they are wanted.
    pub fn append_if(&mut self, wanted: bool, s: &[u8])
        ensures { Writes N self.old (pick wanted s.now []) self.new }
    {
        if wanted {
            self.append(s);
        }
    }

    // Takes back all that was written.
    pub fn clear(&mut self)
        ensures { self.new ≡ Ok [] }
    {
        self.length = Ok(0);
    }

    // A piece has no form, so the text has none.
    pub fn lose_form(&mut self)
        ensures { self.new ≡ Err WithoutForm }
    {
        self.length = Err(Unkept::WithoutForm);
    }

    // What is written, or why it is not kept.
    pub fn written(&self) -> Result<&[u8], Unkept>
        ensures { MatchResult result (λ s. self.now ≡ Ok s.now) (λ e. self.now ≡ Err e) }
    {
        let length = self.length?;
        Ok(&self.bytes[..length])
    }
}
