//! Serving the connections of a case.

use crate::gate::{Meeting, MeetingGate};
use crate::links::read_listener;
use anyhow::{Context, Result};
use std::alloc::Global;
use std::sync::Wait;
use std::thread::Threads;
use vr_base::Bytes;
use vr_cli::{Kept, Status, serve};
use vr_keeper::{NeverFails, Rows};
use vr_memory_links::{MemFolder, MemListener, MemSink};

/// Identity 1 has 64 digits `1`, and identity 2 has 64 digits `2`.
const KEYS: &[u8] = b"1 1111111111111111111111111111111111111111111111111111111111111111\n\
2 2222222222222222222222222222222222222222222222222222222222222222\n";

/// How many bytes a server may write.
const ROOM: usize = 4_096;

/// What a server came to.
#[derive(Drop)]
pub struct Served {
    pub status: Status,
    pub meeting: Meeting,
    pub text: MemSink,
    pub listener: MemListener,
    pub kept: Kept<NeverFails>,
}

fn file(alloc: Global, name: &str, content: &[u8]) -> Result<(String, Bytes)> {
    let bytes = Bytes::from_slice(alloc, content).ok();
    Ok((String::from_str(alloc, name)?, bytes.context("memory")?))
}

fn folder_of(alloc: Global, policy: &str) -> Result<MemFolder> {
    let policy = file(alloc, "policy", policy.as_bytes())?;
    let keys = file(alloc, "keys", KEYS)?;
    let files = vec![in alloc; policy, keys]?;
    Ok(MemFolder::new(files, Vec::new(alloc)))
}

fn read_words(alloc: Global, text: &str) -> Result<Vec<String>> {
    let mut words = Vec::new(alloc);
    for word in text.split(' ') {
        words.push(String::from_str(alloc, word)?)?;
    }
    Ok(words)
}

fn read_meeting(calls: &str) -> Result<Meeting> {
    let (calls, turns) = calls.split_once(' ').context("turns")?;
    Ok(Meeting::new(calls.parse::<u32>()?, turns.parse::<u32>()?))
}

pub fn serve_case(
    rt: &(impl Print + AllocGlobal + Threads + Wait + Sync),
    policy: &str,
    calls: &str,
    failing: &str,
    words: &str,
    inputs: &str,
) -> Result<Served> {
    let alloc = rt.alloc();
    let mut folder = folder_of(alloc, policy)?;
    let mut text = MemSink::new(alloc, ROOM, Vec::new(alloc))
        .ok()
        .context("memory")?;
    let listener = read_listener(alloc, failing, inputs)?;
    let keeper = NeverFails::new(alloc, Rows::of(Vec::new(alloc)));
    let meeting = read_meeting(calls)?;
    let words = read_words(alloc, words)?;
    let (status, listener, kept) = serve(
        rt,
        alloc,
        words.as_slice(),
        &mut folder,
        listener,
        keeper,
        MeetingGate::new(&meeting),
        &mut text,
    );
    Ok(Served {
        status,
        meeting,
        text,
        listener,
        kept,
    })
}
