//! A configuration says how large a machine is, which guests are secure from the start, and what they keep secret.

ghost use Rattle.std.specs.Prelude.{◌≡◌, OnOk, OnErr, [], ◌∷◌, ◌++◌};

use std::alloc::{AllocError, Global};
use std::marker::Model;

/// A number that a guest may draw, in the left and in the right one of two runs.
#[derive(Clone, Copy, Debug, PartialEq, Eq)]
pub struct EntropyWord {
    /// The guest's number, from 1.
    pub lpid: u16,
    pub left: u64,
    pub right: u64,
}

/// Numbers of guests, from 1, seen as their list.
#[derive(Drop)]
pub struct Lpids {
    numbers: Vec<u16>,
}

impl Model for Lpids {
    ghost use Rattle.std.specs.Prelude.{ℕ, List};

    ghost Value = { List ℕ };

    ghost view = { λ l. l.numbers.items };
}

impl Lpids {
    /// No guest.
    pub fn new(alloc: Global) -> Lpids
        ensures { result ≡ [] }
    {
        Lpids {
            numbers: Vec::new(alloc),
        }
    }

    /// Adds a guest at the end. For want of memory nothing is added.
    pub fn push(&mut self, lpid: u16) -> Result<(), AllocError>
        ensures ok { OnOk result (self.new ≡ self.old ++ lpid ∷ []) }
        ensures err { OnErr result (self.new ≡ self.old) }
    {
        self.numbers.push(lpid)?;
        Ok(())
    }

    /// The numbers, in their order.
    pub fn as_slice(&self) -> &[u16]
        ensures { result.now ≡ self.now }
    {
        self.numbers.as_slice()
    }
}

/// Entropy words, seen as their list.
#[derive(Drop)]
pub struct EntropyWords {
    words: Vec<EntropyWord>,
}

impl Model for EntropyWords {
    ghost use Rattle.std.specs.Prelude.{List};
    ghost use Rattle.pef_model.specs.declared.config.EntropyWord.{EntropyWord};

    ghost Value = { List EntropyWord };

    ghost view = { λ w. w.words.items };
}

impl EntropyWords {
    /// No word.
    pub fn new(alloc: Global) -> EntropyWords
        ensures { result ≡ [] }
    {
        EntropyWords {
            words: Vec::new(alloc),
        }
    }

    /// Adds a word at the end. For want of memory nothing is added.
    pub fn push(&mut self, word: EntropyWord) -> Result<(), AllocError>
        ensures ok { OnOk result (self.new ≡ self.old ++ word ∷ []) }
        ensures err { OnErr result (self.new ≡ self.old) }
    {
        self.words.push(word)?;
        Ok(())
    }

    /// The words, in their order.
    pub fn as_slice(&self) -> &[EntropyWord]
        ensures { result.now ≡ self.now }
    {
        self.words.as_slice()
    }
}

/// The sizes of a machine, and what its guests begin with.
#[derive(Drop)]
pub struct Config {
    /// A page has 2^shift bytes; 8 to 16.
    pub shift: u8,
    /// How many normal frames there are; 1 to 1024.
    pub normal: u32,
    /// How many secure frames there are; 1 to 1024.
    pub secure: u32,
    /// How many CPUs there are; 1 to 16.
    pub cpus: u8,
    /// How many guests there are; 1 to 16.
    pub guests: u16,
    /// How many vCPUs each guest has; 1 to 8.
    pub vcpus: u8,
    /// How many pages each guest has; 1 to 1024.
    pub pages: u32,
    /// Pages are sealed by the vault, and else by the stream.
    pub vault: bool,
    /// The key of the stream seal.
    pub key: [u8; 32],
    /// The guests that are secure from the start; their numbers rise strictly.
    pub born: Lpids,
    /// What each guest may draw, in order.
    pub entropy: EntropyWords,
}

impl Config {
    ghost use Rattle.pef_model.specs.Plan.{default_config};

    /// The sizes that hold where a script names no other, with no guest that is secure from the start.
    pub fn with_defaults(alloc: Global) -> Config
        ensures { result ≡ default_config }
    {
        Config {
            shift: 16,
            normal: 16,
            secure: 16,
            cpus: 1,
            guests: 1,
            vcpus: 1,
            pages: 16,
            vault: false,
            key: [0; 32],
            born: Lpids::new(alloc),
            entropy: EntropyWords::new(alloc),
        }
    }
}
