//! The lines of a text, lent one after another.

ghost use Rattle.std.specs.Prelude.{◌≡◌, ◌↔◌, ℕ, ◌+◌, ◌<◌, ◌≤◌, ◌^◌, List, [], ◌∷◌, ◌++◌, length, IfErr, IsTrue, OnErr, OnOk};
ghost use Rattle.std.specs.Bool.{OnFalse, OnTrue};
ghost use Rattle.pls_streams.specs.declared.text_error.TextError.TheVariants.{Form};
ghost use Rattle.pls_lines.specs.Text.{text_of};
ghost use Rattle.pls_lines.specs.Lines.{Passes, Stands};

use crate::words::after_line;
use pls_streams::TextError;
use std::marker::Model;

/// A reader of the lines of a text, which it lends. Each line ends in a line feed.
///
/// It is seen as what is left of the text, and the number of the next line. It takes no memory.
#[derive(Drop)]
pub struct Lines<'a> {
    number: u64,
    rest: &'a [u8],
}

impl<'a> Model for Lines<'a> {
    ghost use Rattle.std.specs.Prelude.{◌+◌, ◌^◌, ◌≤◌, length};
    ghost use Rattle.pls_lines.specs.Lines.{Left};

    ghost Value = { Left };

    ghost view = { λ lines. record { number = lines.number; rest = lines.rest.now } };

    ghost invariant = { λ lines. lines.number + length lines.rest.now ≤ 2 ^ 63 };
}

impl<'a> Lines<'a> {
    /// A reader before line 1 of a text.
    pub fn new(text: &'a [u8]) -> Lines<'a>
        ensures number { result.number ≡ 1 }
        ensures rest { result.rest ≡ text.now }
    {
        Lines {
            number: 1,
            rest: text,
        }
    }

    /// A second reader at the same place.
    pub fn again(&self) -> Lines<'a>
        ensures { result ≡ self.now }
    {
        Lines {
            number: self.number,
            rest: self.rest,
        }
    }

    /// The number of the next line, counted from 1.
    pub fn number(&self) -> u64
        ensures value { result ≡ self.now.number }
        ensures small { result + length self.now.rest ≤ 2 ^ 63 }
    {
        self.number
    }

    /// The refusal that names the next line as the first that is not of the form that is due.
    pub fn form_error(&self) -> TextError
        ensures { result ≡ Form self.now.number }
    {
        TextError::Form(self.number)
    }

    /// What is left of the text.
    pub fn rest(&self) -> &'a [u8]
        ensures rest { result.now ≡ self.now.rest }
        ensures small { self.now.number ≤ 2 ^ 63 }
    {
        self.rest
    }

    /// Whether no byte is left.
    pub fn at_end(&self) -> bool
        ensures { IsTrue result ↔ (self.now.rest ≡ []) }
    {
        self.rest.is_empty()
    }

    /// Passes the line in front of `rest`.
    pub fn pass_to(&mut self, rest: &'a [u8])
        requires { (line : List ℕ) × (self.old.rest ≡ line ++ 10 ∷ rest.now) }
        ensures rest { self.new.rest ≡ rest.now }
        ensures passed { (line : List ℕ) → self.old.rest ≡ line ++ 10 ∷ rest.now
            → Passes self.old self.new (line ∷ []) }
        ensures fewer { length self.new.rest < length self.old.rest }
        ensures small { self.new.number ≤ 2 ^ 63 }
    {
        self.rest = rest;
        self.number += 1;
    }

    /// The text between an earlier place of the same text and this one.
    pub fn since(&self, start: &Lines<'a>) -> &'a [u8]
        requires { (lines : List (List ℕ)) × Passes start.now self.now lines }
        ensures { (lines : List (List ℕ)) → Passes start.now self.now lines
            → result.now ≡ text_of lines }
    {
        &start.rest[..start.rest.len() - self.rest.len()]
    }

    /// A reader of the lines between an earlier place of the same text and this one.
    pub fn between(&self, start: &Lines<'a>) -> Lines<'a>
        requires { (lines : List (List ℕ)) × Passes start.now self.now lines }
        ensures number { result.number ≡ start.now.number }
        ensures rest { (lines : List (List ℕ)) → Passes start.now self.now lines
            → result.rest ≡ text_of lines }
    {
        Lines {
            number: start.number,
            rest: self.since(start),
        }
    }

    /// Passes the next line if it is this one, and answers whether it was; else the reader stays.
    pub fn pass(&mut self, line: &[u8]) -> bool
        ensures passed { OnTrue result (Passes self.old self.new (line.now ∷ [])) }
        ensures other { OnFalse result (Stands (λ next. next ≡ line.now) self.old.rest → ⊥) }
        ensures unchanged { OnFalse result (self.new ≡ self.old) }
    {
        match after_line(self.rest(), line) {
            Some(rest) => {
                self.pass_to(rest);
                true
            }
            None => false,
        }
    }

    /// Passes the next line if it is this one; else the refusal that names it, and the reader
    /// stays.
    pub fn expect(&mut self, line: &[u8]) -> Result<(), TextError>
        ensures passed { OnOk result (Passes self.old self.new (line.now ∷ [])) }
        ensures other { OnErr result (Stands (λ next. next ≡ line.now) self.old.rest → ⊥) }
        ensures form { IfErr result (λ error. error ≡ Form self.old.number) }
        ensures unchanged { OnErr result (self.new ≡ self.old) }
    {
        if self.pass(line) {
            Ok(())
        } else {
            Err(self.form_error())
        }
    }
}
