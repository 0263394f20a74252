//! Calls of the module's own functions and of the host's.

ghost use Rattle.std.specs.Prelude.{◌≡◌, ◌+◌, ◌≤◌, ◌<◌, ℕ, List, [], IsTrue, length, None, Some};
ghost use Rattle.vr_wasm_link.specs.Functions.{function_of};
ghost use Rattle.vr_wasm_steps.specs.Hosts.{Rose};
ghost use Rattle.vr_wasm_steps.specs.Store.{are_of};
ghost use Rattle.vr_wasm_steps.specs.Terms.{slots};
ghost use Rattle.vr_wasm_steps.specs.declared.limits.TheConstants.{MAX_SLOTS};
ghost use Rattle.vr_wasm_stacks.specs.Positions.{term_of, called, outside};
ghost use Rattle.vr_wasm_run.specs.Calls.{passed, passed_outside, arguments, answered_at};
ghost use Rattle.vr_wasm_run.specs.Calls.{IsAsked, IsReplied, IsCalled, IsCallable, IsEntered};
ghost use Rattle.vr_wasm_run.specs.Calls.{HasArguments};

use crate::progress::Progress;
use crate::state::State;
use vr_wasm_ast::{FuncType, Instr};
use vr_wasm_link::Callee;
use vr_wasm_num::{Memory, TOO_MANY_FRAMES, TOO_MANY_LABELS, TOO_MANY_VALUES};
use vr_wasm_stacks::Stacks;
use vr_wasm_steps::{Host, HostAnswer};

/// The trap of the first limit that a call would pass, whose frame has so many locals beside the
/// arguments.
fn passed(stacks: &Stacks, locals: u32) -> Option<u8>
    ensures { result ≡ passed (term_of stacks.now) locals }
{
    if !stacks.has_frame() {
        return Some(TOO_MANY_FRAMES);
    }
    if !stacks.has_room(locals as usize) {
        return Some(TOO_MANY_VALUES);
    }
    if !stacks.has_label() {
        return Some(TOO_MANY_LABELS);
    }
    None
}

/// The same of a function of the host, whose results come in place of its arguments.
fn passed_outside(stacks: &Stacks, sort: &FuncType) -> Option<u8>
    ensures { result ≡ passed_outside (term_of stacks.now) sort.now }
{
    let _ = stacks.code();
    if !stacks.has_frame() {
        return Some(TOO_MANY_FRAMES);
    }
    if !stacks.has_room(sort.results.len().saturating_sub(sort.params.len())) {
        return Some(TOO_MANY_VALUES);
    }
    None
}

/// Enters a function, unless that would pass a limit.
fn enter_function<'m>(
    stacks: &mut Stacks<'m>,
    sort: &FuncType,
    locals: u32,
    rest: &'m [Instr],
    body: &'m [Instr],
) -> Progress
    requires params { length sort.now.params ≤ length stacks.old.operands }
    requires results { length sort.now.results ≤ 1 }
    ensures { IsEntered (passed (term_of stacks.old) locals)
        (called stacks.old (length sort.now.params) locals (length sort.now.results)
        rest.now body.now)
        result stacks.new }
{
    let _ = stacks.code();
    if let Some(kind) = passed(stacks, locals) {
        return Progress::Trapped(kind);
    }
    let params = sort.params.len() as u32;
    let results = sort.results.len() as u32;
    stacks.call(params, locals, results, rest, body);
    Progress::Went(1)
}

/// Enters a function from outside, where nothing else is left.
pub fn enter_outside<'m>(stacks: &mut Stacks<'m>, sort: &FuncType, locals: u32, body: &'m [Instr])
    requires results { length sort.now.results ≤ 1 }
    requires locals { locals ≤ MAX_SLOTS }
    ensures { stacks.new ≡ called outside 0 locals (length sort.now.results) [] body.now }
{
    let rest: &'m [Instr] = &[];
    stacks.clear();
    let results = sort.results.len() as u32;
    stacks.call(0, locals, results, rest, body);
}

/// Asks the host, and puts its reply in place of the arguments.
fn ask<'m, H: Host>(
    host: &mut H,
    stacks: &mut Stacks<'m>,
    memory: &mut Memory,
    sort: &FuncType,
    which: u32,
    rest: &'m [Instr],
) -> Progress
    requires found { (from : List ℕ) × (name : List ℕ) × (H.finds from name sort.now ≡ Some which) }
    requires params { length sort.now.params ≤ length stacks.old.operands }
    requires typed { IsTrue (are_of sort.now.params (arguments sort.now stacks.old)) }
    requires room { slots (term_of stacks.old) + length sort.now.results
        ≤ MAX_SLOTS + length sort.now.params }
    ensures replied { IsReplied sort.now.results
        (H.reply (H.world host.old) which (arguments sort.now stacks.old) memory.old)
        (answered_at sort.now stacks.old rest.now) result stacks.new memory.new (H.world host.new) }
    ensures counted { H.stops host.old ≤ H.stops host.new }
    ensures stopped { result ≡ Progress.Stopped → Rose (H.stops host.old) (H.stops host.new) }
{
    let params = sort.params.len();
    match host.call(which, stacks.last(params), memory) {
        HostAnswer::Value(value) => {
            stacks.drop_last(params);
            stacks.push(value);
            stacks.advance(rest);
            Progress::Went(1)
        }
        HostAnswer::Nothing => {
            stacks.drop_last(params);
            stacks.advance(rest);
            Progress::Went(1)
        }
        HostAnswer::Exit(code) => Progress::Exited(code),
        HostAnswer::NoMemory => Progress::Stopped,
    }
}

/// Calls a function of the host, unless that would pass a limit.
fn call_host<'m, H: Host>(
    host: &mut H,
    stacks: &mut Stacks<'m>,
    memory: &mut Memory,
    sort: &FuncType,
    which: u32,
    rest: &'m [Instr],
) -> Progress
    requires found { (from : List ℕ) × (name : List ℕ) × (H.finds from name sort.now ≡ Some which) }
    requires params { length sort.now.params ≤ length stacks.old.operands }
    requires typed { passed_outside (term_of stacks.old) sort.now ≡ None
        → IsTrue (are_of sort.now.params (arguments sort.now stacks.old)) }
    ensures asked { IsAsked (passed_outside (term_of stacks.old) sort.now) sort.now.results
        (H.reply (H.world host.old) which (arguments sort.now stacks.old) memory.old)
        (answered_at sort.now stacks.old rest.now) result stacks.new memory.new (H.world host.new) }
    ensures counted { H.stops host.old ≤ H.stops host.new }
    ensures stopped { result ≡ Progress.Stopped → Rose (H.stops host.old) (H.stops host.new) }
{
    match passed_outside(stacks, sort) {
        Some(kind) => Progress::Trapped(kind),
        None => ask(host, stacks, memory, sort, which, rest),
    }
}

/// Calls a function, with the last operands as its arguments.
pub fn invoke<'m, H: Host>(
    host: &mut H,
    state: &mut State<'m>,
    callee: Callee<'m>,
    rest: &'m [Instr],
) -> Progress
    requires callable { IsCallable H.finds (function_of callee) }
    requires arguments { HasArguments callee state.old.stacks }
    ensures called { IsCalled H.reply callee.entry rest.now
        state.old.stacks state.old.memory (H.world host.old)
        result state.new.stacks state.new.memory (H.world host.new) }
    ensures others { state.new
        ≡ record state.old { stacks = state.new.stacks; memory = state.new.memory } }
    ensures counted { H.stops host.old ≤ H.stops host.new }
    ensures stopped { result ≡ Progress.Stopped → Rose (H.stops host.old) (H.stops host.new) }
{
    match callee {
        Callee::Own { sort, locals, body } => {
            enter_function(&mut state.stacks, sort, locals, rest, body)
        }
        Callee::Outside { sort, which } => call_host(
            host,
            &mut state.stacks,
            &mut state.memory,
            sort,
            which,
            rest,
        ),
    }
}
