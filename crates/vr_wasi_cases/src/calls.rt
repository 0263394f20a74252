//! The lines about a world.

ghost use Rattle.std.specs.Prelude.{IsTrue};
ghost use Rattle.vr_wasm_steps.specs.Store.{are_of};

use crate::arguments::{Question, read_question, sort};
use crate::unanswered::Unanswered;
use crate::words::{bytes, counted, number, push_bytes, two};
use crate::worlds::Case;
use std::alloc::Global;
use vr_wasm_ast::FuncType;
use vr_wasm_steps::{Host, HostAnswer};

/// The module of the functions.
const MODULE: &[u8] = b"wasi_snapshot_preview1";

/// How many bytes a vector of a buffer has.
const VECTOR: u64 = 8;

fn push_reply(told: &mut String, answer: Option<HostAnswer>) -> Result<(), Unanswered> {
    match answer {
        Some(HostAnswer::Value(value)) => Ok(write!(told, "{value}")?),
        Some(HostAnswer::Nothing) => Ok(told.push_str("nothing")?),
        Some(HostAnswer::Exit(code)) => Ok(write!(told, "exit {code}")?),
        Some(HostAnswer::NoMemory) => Err(Unanswered::NoMemory),
        None => Ok(told.push_str("not found")?),
    }
}

/// A call that was made, or a write that was within the memory.
fn done(done: bool) -> Result<(), Unanswered> {
    if done { Ok(()) } else { Err(Unanswered::Form) }
}

impl Case {
    /// What the function of this name and type answers.
    fn ask(&mut self, name: &[u8], sort: &FuncType, values: &[u64]) -> Option<HostAnswer>
        requires { IsTrue (are_of sort.now.params values.now) }
    {
        match self.world.find(MODULE, name, sort) {
            Some(which) => Some(self.world.call(which, values, &mut self.memory)),
            None => None,
        }
    }

    /// What a function answers to `NAME RESULTS ARGUMENT..`, of the type that the arguments show.
    fn call(&mut self, alloc: Global, words: &str) -> Result<Option<HostAnswer>, Unanswered> {
        let (name, words) = two(words)?;
        let Question { sort, values } = read_question(alloc, words)?;
        Ok(self.ask(name.as_bytes(), &sort, &values))
    }

    /// So many vectors of one buffer, from a place on.
    fn store_vectors(
        &mut self,
        at: u64,
        count: u64,
        pointer: u64,
        length: u64,
    ) -> Result<(), Unanswered> {
        let mut place = at;
        for _ in 0..count {
            done(self.memory.store(place, 4, pointer))?;
            done(self.memory.store(place.saturating_add(4), 4, length))?;
            place = place.saturating_add(VECTOR);
        }
        Ok(())
    }

    /// Writes `COUNT POINTER LENGTH` as vectors from a place on.
    fn fill(&mut self, at: u64, words: &str) -> Result<(), Unanswered> {
        let (count, words) = counted(words)?;
        let (pointer, length) = counted(words)?;
        self.store_vectors(at, count, pointer, number(length)?)
    }

    /// Writes what a line says from a place on.
    fn change(
        &mut self,
        alloc: Global,
        verb: &str,
        at: u64,
        words: &str,
    ) -> Result<(), Unanswered> {
        match verb {
            "memory" => done(self.memory.write(at, &bytes(alloc, words)?)),
            "text" => done(self.memory.write(at, words.as_bytes())),
            "fill" => self.fill(at, words),
            _ => Err(Unanswered::Form),
        }
    }

    /// Whether there is a function of these names and this type.
    fn finds(&self, from: &str, name: &str, sort: &FuncType) -> bool {
        self.world
            .find(from.as_bytes(), name.as_bytes(), sort)
            .is_some()
    }
}

/// `call NAME RESULTS ARGUMENT..`: what the function of this name answers.
fn push_call(
    told: &mut String,
    alloc: Global,
    case: &mut Case,
    words: &str,
) -> Result<(), Unanswered> {
    let (name, _) = two(words)?;
    let answer = case.call(alloc, words)?;
    told.push_str(name)?;
    told.push_str(": ")?;
    push_reply(told, answer)
}

/// Adds whether there is a function of these names and the type `PARAMS RESULTS`.
fn push_found(
    told: &mut String,
    alloc: Global,
    case: &Case,
    names: (&str, &str),
    words: &str,
) -> Result<(), Unanswered> {
    let (params, results) = two(words)?;
    let sort = sort(alloc, params, results)?;
    if case.finds(names.0, names.1, &sort) {
        Ok(told.push_str("found")?)
    } else {
        Ok(told.push_str("not found")?)
    }
}

/// `find MODULE NAME PARAMS RESULTS`: whether there is a function of these names and this type.
fn push_find(told: &mut String, alloc: Global, case: &Case, words: &str) -> Result<(), Unanswered> {
    let (from, words) = two(words)?;
    let (name, words) = two(words)?;
    write!(told, "{from} {name}: ")?;
    push_found(told, alloc, case, (from, name), words)
}

/// `show AT LENGTH`: the bytes that are there.
fn push_memory(
    told: &mut String,
    alloc: Global,
    case: &Case,
    words: &str,
) -> Result<(), Unanswered> {
    let (at, length) = counted(words)?;
    let shown = case
        .memory
        .view(at, number(length)?)
        .ok_or(Unanswered::Form)?;
    write!(told, "{at}: ")?;
    push_bytes(told, alloc, shown)
}

/// A line that writes into the memory: `memory AT HEX`, `text AT TEXT` or `fill AT COUNT POINTER LENGTH`.
fn push_change(
    told: &mut String,
    alloc: Global,
    case: &mut Case,
    verb: &str,
    words: &str,
) -> Result<(), Unanswered> {
    let (at, words) = counted(words)?;
    case.change(alloc, verb, at, words)?;
    Ok(write!(told, "{verb} {at}")?)
}

/// Adds the answer to a line about a world.
pub fn push_answer(
    told: &mut String,
    alloc: Global,
    case: &mut Case,
    verb: &str,
    words: &str,
) -> Result<(), Unanswered> {
    match verb {
        "call" => push_call(told, alloc, case, words),
        "find" => push_find(told, alloc, case, words),
        "show" => push_memory(told, alloc, case, words),
        _ => push_change(told, alloc, case, verb, words),
    }
}
