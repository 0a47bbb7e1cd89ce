//! The entropy words of a guest are given in their order, each once.

ghost use Rattle.std.specs.Prelude.{◌≡◌, None, drop, slice_get, IfOk};
ghost use Rattle.pef_model.specs.Plan.{plan_of};

use pef_model::Config;
use std::alloc::{AllocError, Global};
use std::marker::Model;

/// The entropy words that a guest has left, seen as their list.
#[derive(Drop)]
pub struct Words {
    words: Vec<u64>,
    /// How many of them were given.
    given: usize,
}

impl Model for Words {
    ghost use Rattle.std.specs.Prelude.{ℕ, List, drop, length, ◌≤◌};

    ghost Value = { List ℕ };

    ghost view = { λ w. drop w.given w.words.items };

    ghost invariant = { λ w. w.given ≤ length w.words.items };
}

impl Words {
    /// Those of a guest of a configuration, by its number from 1. Refused where the memory is not to be had.
    pub fn build(alloc: Global, config: &Config, lpid: u16) -> Result<Words, AllocError>
        ensures { IfOk result (λ words. words ≡ (plan_of config.now).entropy lpid) }
    {
        let words = config
            .entropy
            .as_slice()
            .iter()
            .filter(|word| word.lpid == lpid)
            .map(|word| word.left)
            .collect(alloc)?;
        Ok(Words { words, given: 0 })
    }

    /// The next word, which isn't given again; None exactly where none is left.
    pub fn draw(&mut self) -> Option<u64>
        ensures word { result ≡ slice_get self.old 0 }
        ensures left { self.new ≡ drop 1 self.old }
        ensures ended { result ≡ None → self.new ≡ self.old }
    {
        let word = self.words.get(self.given).copied()?;
        self.given += 1;
        Some(word)
    }
}
