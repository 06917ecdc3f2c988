//! What words say.

use pls_bits::CodeName;
use std::marker::Model;

/// The flag among words.
#[derive(Clone, Copy, Debug, PartialEq, Eq)]
pub enum Flag {
    /// No flag.
    Bare,
    /// `--json`.
    Json,
    /// `--code` with the name of a number code behind it.
    Coded(CodeName),
}

/// What the words behind the program's name say; seen as the texts of its words.
#[derive(Drop)]
pub struct CommandWords<'w> {
    /// The first of them, the flag aside.
    pub command: &'w str,
    /// The second, if there is one.
    pub argument: Option<&'w str>,
    /// The flag that stands among them.
    pub flag: Flag,
}

impl<'w> Model for CommandWords<'w> {
    ghost use Rattle.std.specs.Prelude.{option_map};
    ghost use Rattle.pls_words.specs.Words.{Said};

    ghost Value = { Said };

    ghost view = { λ given. record {
      command = given.command.now;
      argument = option_map (λ word. word.now) given.argument;
      flag = given.flag;
    } };
}
