//! The arguments of a call, and the type that they show.

ghost use Rattle.std.specs.Prelude.{◌≡◌, IsTrue, IfOk};
ghost use Rattle.vr_wasm_steps.specs.Store.{are_of, is_of};

use crate::unanswered::Unanswered;
use sqlite_items::Items;
use std::alloc::Global;
use vr_wasm_ast::{FuncType, ValType};

/// What a function is asked: its type, as the arguments show it, and their values.
#[derive(Drop)]
pub struct Question {
    pub sort: FuncType,
    pub values: Vec<u64>,
}

/// An argument and its type: a number of 32 bits, or one of 64 bits with an `L` after it.
fn argument(word: &str) -> Result<(ValType, u64), Unanswered>
    ensures { IfOk result (λ a. IsTrue (is_of a.0 a.1)) }
{
    match word.strip_suffix("L") {
        Some(digits) => Ok((ValType::I64, digits.parse::<u64>()?)),
        None => Ok((ValType::I32, u64::from(word.parse::<u32>()?))),
    }
}

/// The types of arguments, and their values.
#[tactic(auto, using(crate::proofs::ArgumentLemmas::are_of_more))]
fn arguments(alloc: Global, words: &str) -> Result<(Vec<ValType>, Vec<u64>), Unanswered>
    ensures { IfOk result (λ a. IsTrue (are_of a.0.items a.1.items)) }
{
    let mut types = Vec::new(alloc);
    let mut values = Vec::new(alloc);
    for word in words.split_whitespace() {
        let (sort, value) = argument(word)?;
        types.push(sort)?;
        values.push(value)?;
    }
    Ok((types, values))
}

fn letter_type(letter: char) -> Result<ValType, Unanswered> {
    match letter {
        'i' => Ok(ValType::I32),
        'I' => Ok(ValType::I64),
        _ => Err(Unanswered::Form),
    }
}

/// Types as letters: `i` and `I` for 32 and 64 bits, `-` for none.
fn types(alloc: Global, letters: &str) -> Result<Items<ValType>, Unanswered> {
    let mut types = Vec::new(alloc);
    if letters != "-" {
        for letter in letters.chars() {
            types.push(letter_type(letter)?)?;
        }
    }
    Ok(Items::from_vec(types))
}

/// A type of parameters and results, both as letters.
pub fn sort(alloc: Global, params: &str, results: &str) -> Result<FuncType, Unanswered> {
    let params = types(alloc, params)?;
    let results = types(alloc, results)?;
    Ok(FuncType { params, results })
}

/// `RESULTS ARGUMENT..`: the type that the arguments show, with results as letters, and the values.
pub fn read_question(alloc: Global, words: &str) -> Result<Question, Unanswered>
    ensures { IfOk result (λ q. IsTrue (are_of q.sort.params q.values.items)) }
{
    let (results, words) = words.split_once(" ").unwrap_or((words, ""));
    let results = types(alloc, results)?;
    let (params, values) = arguments(alloc, words)?;
    let params = Items::from_vec(params);
    Ok(Question {
        sort: FuncType { params, results },
        values,
    })
}
