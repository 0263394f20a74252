ghost use Rattle.std.specs.Prelude.{◌≡◌, ◌↔◌, ℕ, map, option_map, string_bytes, Ok, Err};
ghost use Rattle.vr_base.specs.Checks.{result_map};
ghost use Rattle.vr_words.specs.Grammar.{Task, AskFor, IsWrongAt};
ghost use Rattle.vr_words.specs.Reading.{asked, begin, read_named, read_word, step, task_in};
ghost use Rattle.vr_words.specs.Views.{named_of, said_of, state_of, task_of};

use crate::commands::{Command, Verb, Verbs};
use crate::options::{Choice, is_plain};
use crate::said::Said;

/// What is known after some words.
#[derive(Clone, Copy, Debug)]
enum State<'a> {
    /// There were none.
    Fresh,
    /// A command, and whole items.
    Within(Verb, Said<'a>),
    /// The last word is the name of an option whose value comes next.
    Awaiting(Verb, Said<'a>, Choice),
}

/// The first word names a command of the set.
fn begin<'a>(verbs: Verbs, name: &str) -> Option<State<'a>>
    ensures { option_map state_of result ≡ begin verbs name.now }
{
    let verb = Verb::named(name)?;
    if verbs.contains(verb) {
        Some(State::Within(verb, Said::nothing()))
    } else {
        None
    }
}

/// An option is named, with its value or without.
fn read_named<'a>(
    verb: Verb,
    said: Said<'a>,
    choice: Choice,
    value: Option<&'a str>,
) -> Option<State<'a>>
    ensures { option_map state_of result
        ≡ read_named verb (said_of said.entry) (named_of (choice, value.entry)) }
{
    match value {
        Some(value) => Some(State::Within(verb, said.take_option(verb, choice, value)?)),
        None if said.may_come(verb, choice) => Some(State::Awaiting(verb, said, choice)),
        None => None,
    }
}

/// A word after whole items.
fn read_word<'a>(verb: Verb, place: u32, said: Said<'a>, word: &'a str) -> Option<State<'a>>
    ensures { option_map state_of result ≡ read_word verb place (said_of said.entry) word.now }
{
    if is_plain(word) {
        Some(State::Within(verb, said.take_operand(verb, place, word)?))
    } else {
        let (choice, value) = Choice::named_in(word)?;
        read_named(verb, said, choice, value)
    }
}

impl<'a> State<'a> {
    /// The state after the next word, which is at this place, or none where it is out of place.
    fn step(self, verbs: Verbs, place: u32, word: &'a str) -> Option<State<'a>>
        ensures { option_map state_of result ≡ step verbs place (state_of self.entry) word.now }
    {
        match self {
            State::Fresh => begin(verbs, word),
            State::Within(verb, said) => read_word(verb, place, said, word),
            State::Awaiting(verb, said, choice) => Some(State::Within(
                verb,
                said.give(choice, word)?,
            )),
        }
    }

    /// What is asked for where the words end.
    fn command(self) -> Option<Command<'a>>
        ensures { option_map task_of result ≡ task_in (state_of self.entry) }
    {
        match self {
            State::Within(verb, said) => said.command(verb),
            _ => None,
        }
    }
}

/// What the words ask for, or the place of the first that is out of place.
fn scan(words: &[String], verbs: Verbs) -> Result<Command<'_>, u32>
    ensures { result_map task_of result ≡ asked verbs (map string_bytes words.now) }
{
    let mut state = State::Fresh;
    for (place, word) in words.iter().enumerate() {
        let at = place as u32;
        match state.step(verbs, at, word.as_str()) {
            Some(next) => state = next,
            None => return Err(at),
        }
    }
    state.command().ok_or(words.len() as u32)
}

/// What the words of a command line, those after the program's name, ask of the commands of a set, or the place of the first
/// word that no accepted line has after the words before it; that is the number of words where they end too early. Nothing is
/// copied.
pub fn parse(words: &[String], verbs: Verbs) -> Result<Command<'_>, u32>
    // A command is answered exactly where the words ask for what it stands for.
    ensures accepted { (task : Task) →
        (result_map task_of result ≡ Ok task) ↔ AskFor verbs task (map string_bytes words.now) }
    // A place is answered exactly where the first word out of place is there.
    ensures refused { (place : ℕ) →
        (result ≡ Err place) ↔ IsWrongAt verbs (map string_bytes words.now) place }
{
    scan(words, verbs)
}
