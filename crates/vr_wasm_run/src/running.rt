//! The steps of a running program that leave their sequence.

ghost use Rattle.std.specs.Prelude.{◌≡◌, ◌≢◌, ◌↔◌, ◌==◌, ◌++◌, [], IsTrue, None, Some};
ghost use Rattle.std.specs.Prelude.{if◌then◌else◌, option_to_list, slice_get, unwrap_or};
ghost use Rattle.std.specs.Prelude.{IfNone, IfSome};
ghost use Rattle.vr_wasm_ast.specs.Instructions.{instruction_of};
ghost use Rattle.vr_wasm_ast.specs.declared.instr.Instr.TheVariants as tree;
ghost use Rattle.vr_wasm_steps.specs.Rows.{arity, next, over, type_of};
ghost use Rattle.vr_wasm_link.specs.Functions.{function_of};
ghost use Rattle.vr_wasm_run.specs.Machines.{Enters, IsLive, Stands, StandsAtEnd, Steps};
ghost use Rattle.vr_wasm_run.specs.Machines.{config, program_of, waiting};
ghost use Rattle.vr_wasm_stacks.specs.Positions.{IsRooted};
ghost use Rattle.vr_wasm_run.specs.Calls.{AreCallable};
ghost use Rattle.vr_wasm_run.specs.Plain.{IsPlain, IsStretchEnd};

use crate::calls::{enter_outside, invoke};
use crate::progress::Progress;
use crate::state::State;
use vr_wasm_ast::{FuncType, Instr, ValType};
use vr_wasm_link::Callee;
use vr_wasm_num::{
    CALL_TYPE_MISMATCH, TABLE_OUT_OF_BOUNDS, TOO_MANY_LABELS, UNINITIALISED_ELEMENT,
};
use vr_wasm_steps::Host;

/// A running program, and its host.
#[derive(Drop)]
pub struct Running<'m, H> {
    pub state: State<'m>,
    pub types: &'m [FuncType],
    pub functions: Vec<Callee<'m>>,
    /// The functions that are still to be called from outside, in this order.
    pub first: Option<u32>,
    pub main: Option<u32>,
    pub host: H,
}

impl<'m, H: Host> Running<'m, H> {
    fn block(
        &mut self,
        instr: &'m Instr,
        rest: &'m [Instr],
        value: Option<ValType>,
        body: &'m [Instr],
    ) -> Progress
        requires stands { Stands H.world H.reply self.old instr.now rest.now }
        requires block { instr.now ≡ tree.Block value body.now }
        ensures { Steps H.world H.stops H.reply self.old result self.new }
    {
        let _ = instr;
        if !self.state.stacks.has_label() {
            return Progress::Trapped(TOO_MANY_LABELS);
        }
        self.state.stacks.enter(arity_of(value), rest, body);
        Progress::Went(1)
    }

    fn repeat(
        &mut self,
        instr: &'m Instr,
        rest: &'m [Instr],
        value: Option<ValType>,
        body: &'m [Instr],
    ) -> Progress
        requires stands { Stands H.world H.reply self.old instr.now rest.now }
        requires repeats { instr.now ≡ tree.Loop value body.now }
        ensures { Steps H.world H.stops H.reply self.old result self.new }
    {
        let _ = instr;
        let _ = value;
        if !self.state.stacks.has_label() {
            return Progress::Trapped(TOO_MANY_LABELS);
        }
        self.state.stacks.enter_loop(rest, body);
        Progress::Went(1)
    }

    fn choose(
        &mut self,
        instr: &'m Instr,
        rest: &'m [Instr],
        value: Option<ValType>,
        taken: &'m [Instr],
        other: &'m [Instr],
    ) -> Progress
        requires stands { Stands H.world H.reply self.old instr.now rest.now }
        requires chooses { instr.now ≡ tree.If value taken.now other.now }
        ensures { Steps H.world H.stops H.reply self.old result self.new }
    {
        let _ = instr;
        let test = self.state.stacks.pop();
        if !self.state.stacks.has_label() {
            return Progress::Trapped(TOO_MANY_LABELS);
        }
        let body = chosen(test, taken, other);
        self.state.stacks.enter(arity_of(value), rest, body);
        Progress::Went(1)
    }

    fn branch(&mut self, instr: &'m Instr, rest: &'m [Instr], label: u32) -> Progress
        requires stands { Stands H.world H.reply self.old instr.now rest.now }
        requires branch { instr.now ≡ tree.Br label }
        ensures { Steps H.world H.stops H.reply self.old result self.new }
    {
        let _ = instr;
        let _ = rest;
        self.state.stacks.branch(label as usize);
        Progress::Went(1)
    }

    fn branch_if(&mut self, instr: &'m Instr, rest: &'m [Instr], label: u32) -> Progress
        requires stands { Stands H.world H.reply self.old instr.now rest.now }
        requires branches { instr.now ≡ tree.BrIf label }
        ensures { Steps H.world H.stops H.reply self.old result self.new }
    {
        let _ = instr;
        let test = self.state.stacks.pop();
        if test == 0 {
            self.state.stacks.advance(rest);
            return Progress::Went(1);
        }
        self.state.stacks.branch(label as usize);
        Progress::Went(1)
    }

    fn branch_table(
        &mut self,
        instr: &'m Instr,
        rest: &'m [Instr],
        labels: &'m [u32],
        default: u32,
    ) -> Progress
        requires stands { Stands H.world H.reply self.old instr.now rest.now }
        requires branches { instr.now ≡ tree.BrTable labels.now default }
        ensures { Steps H.world H.stops H.reply self.old result self.new }
    {
        let _ = instr;
        let _ = rest;
        let at = self.state.stacks.pop();
        let label = label_at(labels, at, default);
        self.state.stacks.branch(label as usize);
        Progress::Went(1)
    }

    /// The end of a block or a function.
    fn leave(&mut self) -> Progress
        requires { StandsAtEnd H.world H.reply self.old }
        ensures { Steps H.world H.stops H.reply self.old result self.new }
    {
        self.state.stacks.leave();
        Progress::Went(1)
    }

    fn call(&mut self, instr: &'m Instr, rest: &'m [Instr], at: u32) -> Progress
        requires stands { Stands H.world H.reply self.old instr.now rest.now }
        requires calls { instr.now ≡ tree.Call at }
        requires callable { AreCallable H.finds (program_of H.reply self.old).functions }
        ensures { Steps H.world H.stops H.reply self.old result self.new }
    {
        let _ = instr;
        let callee = self.functions[at as usize];
        invoke(&mut self.host, &mut self.state, callee, rest)
    }

    fn call_indirect(&mut self, instr: &'m Instr, rest: &'m [Instr], wanted: u32) -> Progress
        requires stands { Stands H.world H.reply self.old instr.now rest.now }
        requires calls { instr.now ≡ tree.CallIndirect wanted }
        requires callable { AreCallable H.finds (program_of H.reply self.old).functions }
        ensures { Steps H.world H.stops H.reply self.old result self.new }
    {
        let _ = instr;
        let at = self.state.stacks.pop();
        let place = match element(&self.state.table, at) {
            None => return Progress::Trapped(TABLE_OUT_OF_BOUNDS),
            Some(None) => return Progress::Trapped(UNINITIALISED_ELEMENT),
            Some(Some(place)) => place,
        };
        let callee = self.functions[place as usize];
        if !sort_of(callee).equals(&self.types[wanted as usize]) {
            return Progress::Trapped(CALL_TYPE_MISMATCH);
        }
        invoke(&mut self.host, &mut self.state, callee, rest)
    }

    fn leave_function(&mut self, instr: &'m Instr, rest: &'m [Instr]) -> Progress
        requires stands { Stands H.world H.reply self.old instr.now rest.now }
        requires leaves { instr.now ≡ tree.Return }
        ensures { Steps H.world H.stops H.reply self.old result self.new }
    {
        let _ = instr;
        let _ = rest;
        self.state.stacks.leave_function();
        Progress::Went(1)
    }

    /// An instruction that leaves its sequence.
    fn leap(&mut self, instr: &'m Instr, rest: &'m [Instr]) -> Progress
        requires stands { Stands H.world H.reply self.old instr.now rest.now }
        requires leaps { IsPlain (instruction_of instr.now) → ⊥ }
        requires callable { AreCallable H.finds (program_of H.reply self.old).functions }
        ensures { Steps H.world H.stops H.reply self.old result self.new }
    {
        match instr {
            Instr::Block(value, body) => self.block(instr, rest, *value, body.as_slice()),
            Instr::Loop(value, body) => self.repeat(instr, rest, *value, body.as_slice()),
            Instr::If(value, taken, other) => {
                self.choose(instr, rest, *value, taken.as_slice(), other.as_slice())
            }
            Instr::Br(label) => self.branch(instr, rest, *label),
            Instr::BrIf(label) => self.branch_if(instr, rest, *label),
            Instr::BrTable(labels, default) => {
                self.branch_table(instr, rest, labels.as_slice(), *default)
            }
            Instr::Return => self.leave_function(instr, rest),
            Instr::Call(at) => self.call(instr, rest, *at),
            Instr::CallIndirect(wanted) => self.call_indirect(instr, rest, *wanted),
            _ => unreachable!(),
        }
    }

    /// Calls the next function from outside, where nothing is left of the one before. One of the
    /// module's own is only entered.
    fn outside(&mut self) -> Option<Progress>
        requires outside { self.old.state.stacks.layers ≡ [] }
        requires ended { self.old.state.stacks.code ≡ [] }
        requires rooted { IsRooted self.old.state.stacks.layers self.old.state.stacks.locals }
        requires live { IsLive H.finds H.world H.reply self.old }
        ensures stepped { IfSome result (λ progress.
            Steps H.world H.stops H.reply self.old progress self.new) }
        ensures entered { IfNone result (Enters H.world H.reply self.old self.new) }
    {
        let at = match take_waiting(&mut self.first, &mut self.main) {
            Some(at) => at,
            None => return Some(Progress::Over),
        };
        let callee = self.functions[at as usize];
        match callee {
            Callee::Own { sort, locals, body } => {
                enter_outside(&mut self.state.stacks, sort, locals, body);
                None
            }
            Callee::Outside { .. } => {
                let rest: &'m [Instr] = &[];
                self.state.stacks.clear();
                Some(invoke(&mut self.host, &mut self.state, callee, rest))
            }
        }
    }

    /// One step from the end of a sequence, or from an instruction that leaves it; `None` where a
    /// function was entered from outside, which is no step.
    pub fn step(&mut self) -> Option<Progress>
        requires leaves { IsStretchEnd self.old.state.stacks.code }
        requires live { IsLive H.finds H.world H.reply self.old }
        ensures stepped { IfSome result (λ progress.
            Steps H.world H.stops H.reply self.old progress self.new) }
        ensures entered { IfNone result (Enters H.world H.reply self.old self.new) }
    {
        match self.state.stacks.code() {
            [instr, rest @ ..] => Some(self.leap(instr, rest)),
            [] => {
                if self.state.stacks.is_outside() {
                    self.outside()
                } else {
                    Some(self.leave())
                }
            }
        }
    }

    /// Whether the program has ended, and no function is to be called.
    pub fn is_over(&self) -> bool
        ensures { IsTrue result
            ↔ (next (program_of H.reply self.now) (config H.world self.now) ≡ over) }
    {
        let code = self.state.stacks.code();
        if !code.is_empty() {
            return false;
        }
        if !self.state.stacks.is_outside() {
            return false;
        }
        is_none_waiting(self.first, self.main)
    }

    /// The host, with the rest let go.
    pub fn into_host(self) -> H
        ensures { result ≡ self.entry.host }
    {
        let Running {
            state,
            types: _,
            functions,
            first: _,
            main: _,
            host,
        } = self;
        drop(state);
        drop(functions);
        host
    }
}

fn sort_of<'m>(callee: Callee<'m>) -> &'m FuncType
    ensures { result.now ≡ type_of (function_of callee.entry) }
{
    match callee {
        Callee::Own { sort, .. } | Callee::Outside { sort, .. } => sort,
    }
}

/// The first one of the functions that are still to be called from outside, which it is then no
/// longer.
fn take_waiting(first: &mut Option<u32>, main: &mut Option<u32>) -> Option<u32>
    ensures waiting { waiting first.old main.old
        ≡ option_to_list result ++ waiting first.new main.new }
    ensures none { result ≡ None → waiting first.old main.old ≡ [] }
{
    match first.take() {
        Some(at) => Some(at),
        None => main.take(),
    }
}

fn is_none_waiting(first: Option<u32>, main: Option<u32>) -> bool
    ensures { IsTrue result ↔ (waiting first main ≡ []) }
{
    first.is_none() && main.is_none()
}

/// How many results a block of this type has.
fn arity_of(value: Option<ValType>) -> u32
    ensures { result ≡ arity value }
{
    match value {
        Some(_) => 1,
        None => 0,
    }
}

/// The instructions that an `if` goes on with.
fn chosen<'m>(test: u64, taken: &'m [Instr], other: &'m [Instr]) -> &'m [Instr]
    ensures { result.now ≡ (if test == 0 then other.now else taken.now) }
{
    if test == 0 { other } else { taken }
}

/// What the table has at this place, where it has one.
fn element(table: &[Option<u32>], at: u64) -> Option<Option<u32>>
    ensures { slice_get table.now at ≡ result }
{
    table.get(at as usize).copied()
}

/// The label at this place, or the default one past the end.
fn label_at(labels: &[u32], at: u64, default: u32) -> u32
    ensures { result ≡ unwrap_or (slice_get labels.now at) default }
{
    labels.get(at as usize).copied().unwrap_or(default)
}
