// The arguments after the program's name.
ghost use Rattle.std.specs.Prelude.{◌≡◌, ◌∷◌, ◌++◌, [], OnOk, OnErr};
ghost use Rattle.std.specs.Option.{option_map};
ghost use Rattle.vms_cli.specs.Commands.{asked, asked_of};

use crate::commands::{Command, command_of};
use std::alloc::Global;
use std::marker::Model;
use vms_io::NoMemory;

/// The arguments after the program's name, in order.
#[derive(Drop)]
pub struct Words {
    alloc: Global,
    words: Vec<String>,
}

impl Model for Words {
    ghost use Rattle.std.specs.Prelude.{List, ℕ, map, string_bytes};

    ghost Value = { List (List ℕ) };

    ghost view = { λ a. map (λ w. string_bytes w) a.words.items };
}

impl Words {
    /// Returns a list without arguments.
    pub fn new(alloc: Global) -> Words
        ensures { result ≡ [] }
    {
        Words {
            alloc,
            words: Vec::new(alloc),
        }
    }

    /// Appends `word`.
    ///
    /// # Errors
    ///
    /// [`NoMemory`] if memory runs out. The list is unchanged then.
    pub fn push(&mut self, word: &str) -> Result<(), NoMemory>
        ensures ok { OnOk result (self.new ≡ self.old ++ word.now ∷ []) }
        ensures err { OnErr result (self.new ≡ self.old) }
    {
        let word = String::from_str(self.alloc, word)?;
        self.words.push(word)?;
        Ok(())
    }

    // Returns the command that the words form, or none.
    pub(crate) fn command(&self) -> Option<Command<'_>>
        ensures { option_map asked result ≡ asked_of self.now }
    {
        command_of(self.words.as_slice())
    }
}
