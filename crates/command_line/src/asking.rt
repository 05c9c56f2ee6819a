//! Words that ask for a text.
ghost use Rattle.std.specs.Prelude.{◌≡◌, IfOk, map};
ghost use Rattle.command_line.specs.Asking.{asked_by_options, option_of};

use std::alloc::{AllocError, Global};

/// The words with `--help`, `COMMAND --help` and `--version` in the place of `help`, `help COMMAND` and `version`, where these are
/// all the words after the program's name.
pub fn asked_by_options<'a>(alloc: Global, words: &[&'a str]) -> Result<Vec<&'a str>, AllocError>
    ensures { IfOk result (λ new. map (λ s. s.now) new.items ≡
        asked_by_options (map (λ s. s.now) words.now)) }
{
    match words {
        [program, word] => Vec::from_slice(alloc, &[*program, option_of(*word)]),
        [program, word, command] if *word == "help" => {
            Vec::from_slice(alloc, &[*program, *command, "--help"])
        }
        _ => Vec::from_slice(alloc, words),
    }
}

/// The option that asks for the same as the word, if one does, and else the word.
fn option_of<'a>(word: &'a str) -> &'a str
    ensures { result.now ≡ option_of word.now }
{
    if word == "help" {
        "--help"
    } else if word == "version" {
        "--version"
    } else {
        word
    }
}
