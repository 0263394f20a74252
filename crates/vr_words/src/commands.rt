ghost use Rattle.std.specs.Prelude.{◌≡◌};
ghost use Rattle.vr_words.specs.Grammar.{contains, takes_two};
ghost use Rattle.vr_words.specs.Reading.{verb_named};

/// A word of the command line.
#[derive(Clone, Copy, Debug)]
pub struct Word<'a> {
    /// Its place, counted from 0 after the program's name.
    pub place: u32,
    pub text: &'a str,
}

/// How a server is to run, beside its policy and its keys.
#[derive(Clone, Copy, Debug)]
pub struct Serving<'a> {
    /// The steps of a run: 0 to 1,000,000,000,000, and 50,000,000 where they aren't given.
    pub fuel: u64,
    /// The threads that serve: 1 to 16, and 4 where they aren't given.
    pub workers: u32,
    /// The connections that are served before it ends: 1 to 1,000,000,000, and the most where they aren't given.
    pub sessions: u32,
    /// The port: 0 to 65,535, and 8080 where it isn't given.
    pub port: u16,
    /// The file of the store, and the empty name where it isn't given.
    pub store: &'a str,
}

/// What a command line asks for.
#[derive(Clone, Copy, Debug)]
pub enum Command<'a> {
    /// The hash of a policy.
    Hash {
        policy: Word<'a>,
    },
    /// The check of a policy.
    Check {
        policy: Word<'a>,
    },
    /// What reaches whom under a policy.
    Flows {
        policy: Word<'a>,
    },
    /// The replay of a script under a policy, with so many steps for each run.
    Replay {
        fuel: u64,
        policy: Word<'a>,
        script: Word<'a>,
    },
    /// The replay of a hundred generated calls, so many times: 1 to 1,000.
    Make {
        count: u32,
    },
    /// A server of a policy, to the holders of keys.
    Serve {
        serving: Serving<'a>,
        policy: Word<'a>,
        keys: Word<'a>,
    },
}

/// A set of commands: those that a call does.
#[derive(Clone, Copy, Debug)]
pub struct Verbs {
    pub hash: bool,
    pub check: bool,
    pub flows: bool,
    pub replay: bool,
    pub make: bool,
    pub serve: bool,
}

/// The name of a command.
#[derive(Clone, Copy, Debug)]
pub enum Verb {
    Hash,
    Check,
    Flows,
    Replay,
    Make,
    Serve,
}

impl Verbs {
    /// Whether the command is one of the set.
    pub(crate) fn contains(self, verb: Verb) -> bool
        ensures { result ≡ contains self verb }
    {
        match verb {
            Verb::Hash => self.hash,
            Verb::Check => self.check,
            Verb::Flows => self.flows,
            Verb::Replay => self.replay,
            Verb::Make => self.make,
            Verb::Serve => self.serve,
        }
    }
}

impl Verb {
    /// The command with this name.
    pub fn named(name: &str) -> Option<Verb>
        ensures { result ≡ verb_named name.now }
    {
        match name {
            "hash" => Some(Verb::Hash),
            "check" => Some(Verb::Check),
            "flows" => Some(Verb::Flows),
            "replay" => Some(Verb::Replay),
            "make" => Some(Verb::Make),
            "serve" => Some(Verb::Serve),
            _ => None,
        }
    }

    /// Whether it takes the names of two files.
    pub fn takes_two(self) -> bool
        ensures { result ≡ takes_two self }
    {
        matches!(self, Verb::Replay | Verb::Serve)
    }
}
