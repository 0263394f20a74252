ghost use Rattle.std.specs.Prelude.{◌≡◌, option_map};
ghost use Rattle.vr_words.specs.Options.{has_option, is_plain, option_named};
ghost use Rattle.vr_words.specs.Reading.{named_in};
ghost use Rattle.vr_words.specs.Views.{named_of};

use crate::commands::Verb;

/// An option of a command.
#[derive(Clone, Copy, Debug)]
pub enum Choice {
    Fuel,
    Workers,
    Sessions,
    Port,
    Store,
}

/// Whether a word is neither empty nor begins with a hyphen.
pub fn is_plain(word: &str) -> bool
    ensures { result ≡ is_plain word.now }
{
    !word.is_empty() && !word.as_bytes().starts_with(b"-")
}

impl Choice {
    /// The option with this name.
    fn named(name: &str) -> Option<Choice>
        ensures { result ≡ option_named name.now }
    {
        match name {
            "--fuel" => Some(Choice::Fuel),
            "--workers" => Some(Choice::Workers),
            "--sessions" => Some(Choice::Sessions),
            "--port" => Some(Choice::Port),
            "--store" => Some(Choice::Store),
            _ => None,
        }
    }

    /// The option that a word names alone, or before the first `=` with a value after it.
    pub fn named_in(word: &str) -> Option<(Choice, Option<&str>)>
        ensures { option_map named_of result ≡ named_in word.now }
    {
        match word.split_once('=') {
            Some((name, value)) => Some((Choice::named(name)?, Some(value))),
            None => Some((Choice::named(word)?, None)),
        }
    }

    /// Whether the command has this option.
    pub fn is_of(self, verb: Verb) -> bool
        ensures { result ≡ has_option verb self }
    {
        match verb {
            Verb::Serve => true,
            Verb::Replay => matches!(self, Choice::Fuel),
            _ => false,
        }
    }
}
