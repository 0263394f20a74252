//! The verbs of cases.

use crate::names::{
    push_grant, push_letters, push_mask, push_missing, push_path, push_right, push_word,
};
use crate::pipelines::{push_paths, push_pipe, push_spelling};
use crate::policies::{push_hash, push_policy, push_reading};
use crate::regions::push_answer_of_regions;
use crate::rules::{checked, push_check, push_piped, push_places, push_rule};
use crate::scripts::push_script;
use crate::texts::Texts;
use crate::unanswered::Unanswered;
use std::alloc::Global;

/// Adds the answer to a case of a text.
fn push_answer_of_text(
    told: &mut String,
    alloc: Global,
    verb: &str,
    text: &[u8],
) -> Result<(), Unanswered> {
    match verb {
        "path" => push_path(told, alloc, text),
        "grant" => push_grant(told, alloc, text),
        "letters" => push_letters(told, text),
        "pipe" => push_pipe(told, alloc, text),
        "spells" => push_spelling(told, alloc, text),
        "paths" => push_paths(told, alloc, text),
        "policy" => push_policy(told, alloc, text),
        "reads" => push_reading(told, alloc, text),
        "hash" => push_hash(told, text),
        "check" => push_check(told, alloc, text),
        "script" => push_script(told, alloc, text),
        _ => Err(Unanswered::Form),
    }
}

/// Adds the answer to a case whose last word is a policy that meets the rules.
fn push_answer_of_policy(
    told: &mut String,
    alloc: Global,
    texts: &Texts,
    verb: &str,
    words: &str,
) -> Result<(), Unanswered> {
    let (words, policy) = words.rsplit_once(" ").unwrap_or(("", words));
    let text = texts.text(policy)?;
    let policy = checked(alloc, &text)?;
    match verb {
        "places" => push_places(told, &policy, words),
        "piped" => push_piped(told, alloc, &policy, words),
        _ => push_answer_of_regions(told, alloc, verb, words, &policy),
    }
}

/// Adds the answer to a case.
pub fn push_answer(
    told: &mut String,
    alloc: Global,
    texts: &Texts,
    line: &str,
) -> Result<(), Unanswered> {
    let (verb, words) = line.split_once(" ").unwrap_or((line, ""));
    match verb {
        "word" => push_word(told, alloc, words),
        "missing" => push_missing(told, words),
        "right" => push_right(told, words),
        "mask" => push_mask(told, words),
        "rule" => push_rule(told, words),
        "places" | "piped" | "regions" | "region" | "quota" | "identity" | "program" | "run" => {
            push_answer_of_policy(told, alloc, texts, verb, words)
        }
        _ => {
            let text = texts.text(words)?;
            push_answer_of_text(told, alloc, verb, &text)
        }
    }
}
