//! Whole runs.

ghost use Rattle.std.specs.Prelude.{◌≡◌, ◌≤◌, ◌<◌, IfOk, IfErr, map};
ghost use Rattle.vr_wasm_steps.specs.Hosts.{Rose};
ghost use Rattle.vr_wasm_steps.specs.Runs.{NeverLost, start};
ghost use Rattle.vr_wasm_run.specs.Answers.{IsExact, Tells};
ghost use Rattle.vr_wasm_link.specs.Functions.{function_of};
ghost use Rattle.vr_wasm_run.specs.Calls.{AreCallable};
ghost use Rattle.vr_wasm_link.specs.Opened.{program_in, store_in};
ghost use Rattle.vr_wasm_run.specs.Openings.{linked_program, linked_start};
ghost use Rattle.vr_wasm_run.specs.Machines.{config, program_of};

use crate::progress::Progress;
use crate::running::Running;
use crate::state::State;
use crate::stretch::Stretch;
use std::alloc::Global;
use std::marker::Model;
use vr_wasm_link::{Linked, Opened};
use vr_wasm_num::NoMemory;
use vr_wasm_progress::programs_never_lost;
use vr_wasm_stacks::Stacks;
use vr_wasm_steps::Host;

/// How a run ended, and after how many steps.
#[derive(Clone, Copy, Debug, PartialEq, Eq)]
pub enum End {
    Ended { code: u32, used: u64 },
    /// The step that trapped is counted.
    Trapped { kind: u8, used: u64 },
    /// The program still runs.
    OutOfFuel,
    /// The host ran out of memory.
    HostStopped,
}

/// A program that is fit to run, and its host.
#[derive(Drop)]
pub struct Machine<'m, H: Host> {
    running: Running<'m, H>,
}

impl<'m, H: Host> Model for Machine<'m, H> {
    ghost use Rattle.vr_wasm_run.specs.declared.running.Running.{Running};
    ghost use Rattle.vr_wasm_ast.specs.contracts.instr.Instr as instr;
    ghost use Rattle.vr_wasm_run.specs.Machines.{IsFit};
    ghost use Rattle.std.specs.Coded.{codes};

    ghost Value = { Running H };

    ghost coded = { Prim.hlevel (codes, instr.the_row.coded, H.code) };

    ghost view = { λ m. m.running };

    ghost invariant = { λ m. IsFit H.finds H.world H.reply m.running };
}

impl<'m, H: Host> Machine<'m, H> {
    /// A machine for a linked module, before the first step. All that a run may need is reserved
    /// here: the memory's most pages, and the stacks. Without memory the host comes back.
    pub fn new(
        alloc: Global,
        linked: Linked<'m, H>,
        host: H,
    ) -> Result<Machine<'m, H>, (NoMemory, H)>
        ensures program { IfOk result (λ m.
            program_of H.reply m ≡ linked_program H.reply H.finds linked.entry) }
        ensures begins { IfOk result (λ m. config H.world m
            ≡ linked_start H.finds linked.entry (H.world host)) }
        ensures host { IfOk result (λ m. m.host ≡ host) }
        ensures returned { IfErr result (λ e. e.1 ≡ host) }
    {
        programs_never_lost::<H>();
        match linked.open(alloc) {
            Ok(opened) => Machine::opened(alloc, opened, host),
            Err(refused) => Err((refused, host)),
        }
    }

    fn opened(alloc: Global, opened: Opened<'m>, host: H) -> Result<Machine<'m, H>, (NoMemory, H)>
        requires callable { AreCallable H.finds (map function_of opened.functions.items) }
        requires live { NeverLost (program_in opened H.reply)
            (start (store_in opened) (H.world host) opened.start opened.main) }
        ensures program { IfOk result (λ m.
            program_of H.reply m ≡ program_in opened.entry H.reply) }
        ensures begins { IfOk result (λ m. config H.world m
            ≡ start (store_in opened.entry) (H.world host)
            opened.entry.start opened.entry.main) }
        ensures host { IfOk result (λ m. m.host ≡ host) }
        ensures returned { IfErr result (λ e. e.1 ≡ host) }
    {
        let Opened {
            types,
            functions,
            memory,
            table,
            globals,
            start,
            main,
        } = opened;
        match Stacks::new(alloc) {
            Ok(stacks) => {
                let state = State {
                    stacks,
                    memory,
                    table,
                    globals,
                };
                Ok(Machine {
                    running: Running {
                        state,
                        types,
                        functions,
                        first: start,
                        main: Some(main),
                        host,
                    },
                })
            }
            Err(_) => Err((NoMemory, host)),
        }
    }

    /// Runs for at most so many steps, and takes no memory.
    pub fn run(self, fuel: u64) -> (End, H)
        ensures tells { Tells (program_of H.reply self.entry) fuel (config H.world self.entry)
            result.0 (H.world result.1) }
        ensures exact { IsExact (program_of H.reply self.entry) fuel (config H.world self.entry)
            result.0 (H.world result.1) }
        ensures counted { H.stops self.entry.host ≤ H.stops result.1 }
        ensures stopped { result.0 ≡ End.HostStopped
            → Rose (H.stops self.entry.host) (H.stops result.1) }
    {
        let Machine { running } = self;
        go_on(running, fuel)
    }
}

/// Goes on for at most so many steps.
fn go_on<'m, H: Host>(running: Running<'m, H>, fuel: u64) -> (End, H)
    requires callable { AreCallable H.finds (program_of H.reply running).functions }
    requires live { NeverLost (program_of H.reply running) (config H.world running) }
    ensures tells { Tells (program_of H.reply running.entry) fuel (config H.world running.entry)
        result.0 (H.world result.1) }
    ensures counted { H.stops running.entry.host ≤ H.stops result.1 }
    ensures stopped { result.0 ≡ End.HostStopped
        → Rose (H.stops running.entry.host) (H.stops result.1) }
{
    let mut running = running;
    let mut left = fuel;
    'going: loop {
        match running.straight(left) {
            Stretch::Through(after) => left = after,
            Stretch::Trapped { kind, left } => {
                let used = fuel - left + 1;
                return (End::Trapped { kind, used }, running.into_host());
            }
            Stretch::Short => return (End::OutOfFuel, running.into_host()),
        }
        if left == 0 {
            break;
        }
        let progress = match running.step() {
            Some(progress) => progress,
            None => continue,
        };
        match progress {
            Progress::Went(cost) => {
                if cost > left {
                    return (End::OutOfFuel, running.into_host());
                }
                left -= cost;
            }
            Progress::Over => {
                let used = fuel - left;
                return (End::Ended { code: 0, used }, running.into_host());
            }
            Progress::Exited(code) => {
                let used = fuel - left + 1;
                return (End::Ended { code, used }, running.into_host());
            }
            Progress::Trapped(kind) => {
                let used = fuel - left + 1;
                return (End::Trapped { kind, used }, running.into_host());
            }
            Progress::Stopped => return (End::HostStopped, running.into_host()),
        }
    }
    if running.is_over() {
        (
            End::Ended {
                code: 0,
                used: fuel,
            },
            running.into_host(),
        )
    } else {
        (End::OutOfFuel, running.into_host())
    }
}
