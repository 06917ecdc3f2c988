//! Words read with `clap`, where they say something.

ghost use Rattle.std.specs.Prelude.{◌≡◌, ◌↔◌, ◌⊎◌, ◌≤◌, ℕ, List, Option, Some, IfOk, IfErr, IfSome, IsTrue, length};
ghost use Rattle.std.specs.List.{list_any};
ghost use Rattle.clap.specs.Words.{kind_of, app_of};
ghost use Rattle.pls_words.specs.Words.{Said, code_named, is_code, is_dashed, is_json, said_by_words, words_in};
ghost use Rattle.pls_words.specs.inner.Formed.{IsFormed, count_beside, plain_count};
ghost use Rattle.pls_words.specs.inner.Parser.{HasWords, parser};

use crate::command_words::{CommandWords, Flag};
use clap::error::ErrorKind;
use clap::{Arg, ArgAction, ArgMatches, Command, Error};
use pls_bits::CodeName;
use pls_streams::NoMemory;
use std::alloc::{AllocError, Global};

// The most words that say something: two, and `--code` with its name.
const MOST: usize = 4;

/// What words say, or `None` where they are not of the form: one or two words, none of which begins
/// with `-`, and at most one flag, at any place: `--json`, or `--code` with `gamma` or `delta`
/// behind it. The one error is want of memory.
pub fn read_words<'w>(
    alloc: Global,
    words: &'w [&'w str],
) -> Result<Option<CommandWords<'w>>, NoMemory>
    ensures { IfOk result (λ given. given ≡ said_by_words (words_in words.entry.now)) }
{
    if !is_formed(words) {
        return Ok(None);
    }
    Ok(Some(given_in(alloc, words)?))
}

fn is_formed(words: &[&str]) -> bool
    ensures { IsTrue result ↔ IsFormed (words_in words.now) }
{
    words.len() <= MOST && is_one_or_two(count_beside(words))
}

fn is_one_or_two(count: Option<usize>) -> bool
    ensures { IsTrue result ↔ ((count ≡ Some 1) ⊎ (count ≡ Some 2)) }
{
    matches!(count, Some(1 | 2))
}

// The words apart from the flag; `None` where one of them begins with `-`.
fn count_beside(words: &[&str]) -> Option<usize>
    ensures count { result ≡ count_beside (words_in words.now) }
    ensures few { IfSome result (λ count. count ≤ length words.now) }
{
    let Some((word, others)) = words.split_first() else {
        return Some(0);
    };
    if is_json(word) {
        return plain_count(others);
    }
    if is_code(word) {
        let (name, others) = others.split_first()?;
        code_named(name)?;
        return plain_count(others);
    }
    let count = count_beside(others)?;
    if is_dashed(word) {
        return None;
    }
    Some(count + 1)
}

// `None` where a word begins with `-`.
fn plain_count(words: &[&str]) -> Option<usize>
    ensures count { result ≡ plain_count (words_in words.now) }
    ensures few { IfSome result (λ count. count ≤ length words.now) }
{
    if has_dashed(words) {
        None
    } else {
        Some(words.len())
    }
}

fn has_dashed(words: &[&str]) -> bool
    ensures { result ≡ list_any is_dashed (words_in words.now) }
{
    match words.split_first() {
        Some((word, others)) => is_dashed(word) || has_dashed(others),
        None => false,
    }
}

fn is_json(word: &str) -> bool
    ensures { result ≡ is_json word.now }
{
    word == "--json"
}

fn is_code(word: &str) -> bool
    ensures { result ≡ is_code word.now }
{
    word == "--code"
}

fn is_dashed(word: &str) -> bool
    ensures { result ≡ is_dashed word.now }
{
    word.as_bytes().first() == Some(&b'-')
}

fn code_named(word: &str) -> Option<CodeName>
    ensures { result ≡ code_named word.now }
{
    match word {
        "gamma" => Some(CodeName::Gamma),
        "delta" => Some(CodeName::Delta),
        _ => None,
    }
}

fn given_in<'w>(alloc: Global, words: &'w [&'w str]) -> Result<CommandWords<'w>, NoMemory>
    requires { IsFormed (words_in words.now) }
    ensures { IfOk result (λ given. (said : Said)
        → said_by_words (words_in words.entry.now) ≡ Some said → given ≡ said) }
{
    let matches = match matches_of(alloc, words) {
        Ok(matches) => matches,
        Err(error) => {
            prove!(error.kind() == ErrorKind::OutOfMemory);
            return Err(NoMemory);
        }
    };
    let Some(command) = matches.get_str("command") else {
        unreachable!()
    };
    Ok(CommandWords {
        command,
        argument: matches.get_str("argument"),
        flag: flag_in(&matches),
    })
}

fn flag_in(matches: &ArgMatches<'_>) -> Flag
    ensures { (said : Said) → HasWords said matches.now → result ≡ said.flag }
{
    if matches.get_flag("json") {
        return Flag::Json;
    }
    match matches.get_str("code").and_then(|word| code_named(word)) {
        Some(code) => Flag::Coded(code),
        None => Flag::Bare,
    }
}

// Fails only for want of memory, since the words are well-formed.
fn matches_of<'w>(alloc: Global, words: &'w [&'w str]) -> Result<ArgMatches<'w>, Error>
    requires { IsFormed (words_in words.now) }
    ensures found { IfOk result (λ matches. (said : Said)
        → said_by_words (words_in words.entry.now) ≡ Some said → HasWords said matches) }
    ensures memory { IfErr result (λ error. kind_of error ≡ ErrorKind.OutOfMemory) }
{
    parser(alloc)?.try_get_matches_from(words)
}

// The words do not begin with the program's name.
fn parser<'a>(alloc: Global) -> Result<Command<'a>, AllocError>
    ensures { IfOk result (λ command. app_of command ≡ parser) }
{
    let name = Arg::new(alloc, "command").required(true);
    let argument = Arg::new(alloc, "argument");
    let json = Arg::new(alloc, "json")
        .long("json")
        .action(ArgAction::SetTrue);
    let code = Arg::new(alloc, "code").long("code");
    Command::new(alloc, "pls")
        .no_binary_name(true)
        .disable_help_flag(true)
        .arg(name)?
        .arg(argument)?
        .arg(json)?
        .arg(code)
}
