ghost use Rattle.std.specs.Prelude.{◌≡◌, option_map};
ghost use Rattle.vr_words.specs.Grammar.{serving, take_file, take_operand, task_said};
ghost use Rattle.vr_words.specs.Options.{give, is_open, may_come, nothing_said, take_option};
ghost use Rattle.vr_words.specs.Views.{placed, said_of, serving_of, task_of};

use crate::commands::{Command, Serving, Verb, Word};
use crate::numbers::read_number;
use crate::options::{Choice, is_plain};

/// The most steps of a run.
const MOST_FUEL: u64 = 1_000_000_000_000;

/// The most threads that serve.
const MOST_WORKERS: u64 = 16;

/// The most connections that are served.
const MOST_SESSIONS: u64 = 1_000_000_000;

/// The greatest port.
const MOST_PORT: u64 = 65_535;

/// The greatest number of `make`.
const MOST_COUNT: u64 = 1_000;

/// What the words after a command's name have said so far.
#[derive(Clone, Copy, Debug)]
pub struct Said<'a> {
    pub first: Option<Word<'a>>,
    pub second: Option<Word<'a>>,
    pub count: Option<u32>,
    pub fuel: Option<u64>,
    pub workers: Option<u32>,
    pub sessions: Option<u32>,
    pub port: Option<u16>,
    pub store: Option<&'a str>,
}

impl<'a> Said<'a> {
    pub fn nothing() -> Said<'a>
        ensures { said_of result ≡ nothing_said }
    {
        Said {
            first: None,
            second: None,
            count: None,
            fuel: None,
            workers: None,
            sessions: None,
            port: None,
            store: None,
        }
    }

    /// Whether the option isn't given yet.
    fn is_open(self, choice: Choice) -> bool
        ensures { result ≡ is_open (said_of self.entry) choice }
    {
        match choice {
            Choice::Fuel => self.fuel.is_none(),
            Choice::Workers => self.workers.is_none(),
            Choice::Sessions => self.sessions.is_none(),
            Choice::Port => self.port.is_none(),
            Choice::Store => self.store.is_none(),
        }
    }

    /// Whether the option may come next.
    pub fn may_come(self, verb: Verb, choice: Choice) -> bool
        ensures { result ≡ may_come verb (said_of self.entry) choice }
    {
        choice.is_of(verb) && self.is_open(choice)
    }

    /// Takes the value of an option, where the word is one.
    pub fn give(self, choice: Choice, word: &'a str) -> Option<Said<'a>>
        ensures { option_map said_of result ≡ give (said_of self.entry) choice word.now }
    {
        match choice {
            Choice::Fuel => {
                let fuel = read_number(word, 0, MOST_FUEL)?;
                Some(Said {
                    fuel: Some(fuel),
                    ..self
                })
            }
            Choice::Workers => {
                let workers = read_number(word, 1, MOST_WORKERS)?;
                Some(Said {
                    workers: Some(workers as u32),
                    ..self
                })
            }
            Choice::Sessions => {
                let sessions = read_number(word, 1, MOST_SESSIONS)?;
                Some(Said {
                    sessions: Some(sessions as u32),
                    ..self
                })
            }
            Choice::Port => {
                let port = read_number(word, 0, MOST_PORT)?;
                Some(Said {
                    port: Some(port as u16),
                    ..self
                })
            }
            Choice::Store if is_plain(word) => Some(Said {
                store: Some(word),
                ..self
            }),
            Choice::Store => None,
        }
    }

    /// Takes an option with its value, where it may come next.
    pub fn take_option(self, verb: Verb, choice: Choice, word: &'a str) -> Option<Said<'a>>
        ensures { option_map said_of result
            ≡ take_option verb (said_of self.entry) choice word.now }
    {
        if self.may_come(verb, choice) {
            self.give(choice, word)
        } else {
            None
        }
    }

    /// Takes the name of a file, where the command wants one more.
    fn take_file(self, verb: Verb, file: Word<'a>) -> Option<Said<'a>>
        ensures { option_map said_of result
            ≡ take_file verb (said_of self.entry) (placed file.entry) }
    {
        if self.first.is_none() {
            Some(Said {
                first: Some(file),
                ..self
            })
        } else if verb.takes_two() && self.second.is_none() {
            Some(Said {
                second: Some(file),
                ..self
            })
        } else {
            None
        }
    }

    /// Takes a number, where none is given yet.
    fn take_count(self, word: &str) -> Option<Said<'a>>
        ensures { option_map said_of result
            ≡ take_operand Verb.Make 0 (said_of self.entry) word.now }
    {
        if self.count.is_some() {
            return None;
        }
        let count = read_number(word, 1, MOST_COUNT)?;
        Some(Said {
            count: Some(count as u32),
            ..self
        })
    }

    /// Takes a word that is no option.
    pub fn take_operand(self, verb: Verb, place: u32, word: &'a str) -> Option<Said<'a>>
        ensures { option_map said_of result
            ≡ take_operand verb place (said_of self.entry) word.now }
    {
        match verb {
            Verb::Make => self.take_count(word),
            _ => self.take_file(verb, Word { place, text: word }),
        }
    }

    /// How the server runs.
    fn serving(self) -> Serving<'a>
        ensures { serving_of result ≡ serving (said_of self.entry) }
    {
        Serving {
            fuel: self.fuel.unwrap_or(50_000_000),
            workers: self.workers.unwrap_or(4),
            sessions: self.sessions.unwrap_or(1_000_000_000),
            port: self.port.unwrap_or(8080),
            store: self.store.unwrap_or(""),
        }
    }

    /// The command, where all that it wants is said.
    pub fn command(self, verb: Verb) -> Option<Command<'a>>
        ensures { option_map task_of result ≡ task_said verb (said_of self.entry) }
    {
        match verb {
            Verb::Hash => Some(Command::Hash {
                policy: self.first?,
            }),
            Verb::Check => Some(Command::Check {
                policy: self.first?,
            }),
            Verb::Flows => Some(Command::Flows {
                policy: self.first?,
            }),
            Verb::Replay => Some(Command::Replay {
                fuel: self.fuel.unwrap_or(50_000_000),
                policy: self.first?,
                script: self.second?,
            }),
            Verb::Make => Some(Command::Make { count: self.count? }),
            Verb::Serve => Some(Command::Serve {
                serving: self.serving(),
                policy: self.first?,
                keys: self.second?,
            }),
        }
    }
}
