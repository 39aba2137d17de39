// A command that was handed over.
ghost use Rattle.std.specs.Prelude.{◌≡◌};
ghost use Rattle.cmd_buffer.specs.Words.{words_of};

use cmd_buffer::{CommandText, Words, tokenize};
use std::marker::Model;

/// A command that the console doesn't know, handed over by it. Contracts see it as its text.
#[derive(Debug, Drop)]
pub struct HandedCommand {
    text: CommandText,
}

impl Model for HandedCommand {
    ghost use Rattle.std.specs.Prelude.{List, ℕ};

    ghost Value = { List ℕ };

    ghost view = { λ c. c.text.items };
}

impl HandedCommand {
    // A command of this text.
    pub(crate) fn copied(text: &CommandText) -> HandedCommand
        ensures { result ≡ text.now.items }
    {
        let mut copy = CommandText::new();
        copy.try_extend_from_slice(text.as_slice()).unwrap();
        HandedCommand { text: copy }
    }

    /// The text.
    pub fn text(&self) -> &[u8]
        ensures { result.now ≡ self.now }
    {
        self.text.as_slice()
    }

    /// The words of the text.
    pub fn words(&self) -> Words<'_>
        ensures { result ≡ words_of self.now }
    {
        tokenize(&self.text)
    }
}
