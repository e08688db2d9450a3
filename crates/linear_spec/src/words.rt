//! The words of a command line.
ghost use Rattle.std.specs.Prelude.{◌≡◌, ◌<◌, ◌↔◌, [], ◌∷◌, ◌++◌, length, map, IfOk, IsSome, OnOk, OnErr, slice_get};
ghost use Rattle.std.specs.Option.{option_copied};

use gf16::Memory;
use std::alloc::Global;
use std::marker::Model;

/// The words of a command line, which contracts see as a list of texts.
#[derive(Debug, Drop)]
pub struct Words {
    words: Vec<String>,
}

impl Model for Words {
    ghost use Rattle.std.specs.Prelude.{List, ℕ, map};
    ghost use Rattle.std.specs.String.{string_bytes};

    ghost Value = { List (List ℕ) };

    ghost view = { λ w. map string_bytes w.words.items };
}

impl Words {
    /// No words, which takes no memory.
    pub fn new(alloc: Global) -> Words
        ensures { result ≡ [] }
    {
        Words {
            words: Vec::new(alloc),
        }
    }

    /// Appends a word. On refusal the words are as before.
    pub fn push(&mut self, word: &str) -> Result<(), Memory>
        ensures ok { OnOk result (self.new ≡ self.old ++ word.now ∷ []) }
        ensures err { OnErr result (self.new ≡ self.old) }
    {
        let word = String::from_str(*self.words.allocator(), word)?;
        self.words.push(word)?;
        Ok(())
    }

    /// The number of words.
    pub fn len(&self) -> usize
        ensures { result ≡ length self.now }
    {
        self.words.len()
    }

    /// The word at a place, or `None` past the end.
    pub fn get(&self, at: usize) -> Option<&str>
        ensures value { option_copied result ≡ slice_get self.now at }
        ensures variant { IsSome result ↔ (at < length self.now) }
    {
        self.words.get(at).map(|word| word.as_str())
    }

    /// The words as texts.
    pub fn texts(&self) -> Result<Vec<&str>, Memory>
        ensures { IfOk result (λ texts. map (λ text. text.now) texts.items ≡ self.now) }
    {
        let mut texts = Vec::new(*self.words.allocator());
        for word in &self.words {
            texts.push(word.as_str())?;
        }
        Ok(texts)
    }
}
