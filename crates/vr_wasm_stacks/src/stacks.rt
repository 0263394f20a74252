ghost use Rattle.std.specs.Prelude.{◌≡◌, ◌+◌, ◌-◌, ◌≤◌, ◌<◌, ◌↔◌, [], ◌∷◌, ◌++◌, IsTrue, IsSome, IfOk, Some, length, take, drop, reverse, replicate, slice_get, slice_set, vec_capacity};
ghost use Rattle.vr_wasm_steps.specs.Terms.{frames as frames_of, slots as slots_of, labels as labels_of};

use crate::control::Control;
use std::alloc::{AllocError, Global};
use std::marker::Model;
use vr_wasm_ast::Instr;
use vr_wasm_steps::{MAX_FRAMES, MAX_LABELS, MAX_SLOTS};

/// The instructions that are left of the innermost sequence, and what stands round it.
#[derive(Drop)]
pub struct Stacks<'m> {
    code: &'m [Instr],
    values: Vec<u64>,
    controls: Vec<Control<'m>>,
    frames: u32,
    /// Where the innermost call's entry stands, and where its locals begin.
    frame: u32,
    base: u32,
}

impl<'m> Model for Stacks<'m> {
    ghost use Rattle.std.specs.Prelude.{reverse, vec_capacity};
    ghost use Rattle.vr_wasm_stacks.specs.Positions.{Position};
    ghost use Rattle.vr_wasm_stacks.specs.Flat.{position, IsSound};
    ghost use Rattle.vr_wasm_ast.specs.contracts.instr.Instr as instr;
    ghost use Rattle.std.specs.Coded.{codes};

    ghost Value = { Position };

    ghost coded = { Prim.hlevel (codes, instr.the_row.coded) };

    ghost view = { λ s. position (reverse s.controls.items) s.values.items s.code.now };

    ghost invariant = { λ s. IsSound (reverse s.controls.items) s.values.items
        s.frames s.frame s.base (vec_capacity s.values) (vec_capacity s.controls) };
}

impl<'m> Stacks<'m> {
    ghost use Rattle.vr_wasm_stacks.specs.Positions.{term_of, outside, with_operands, with_locals, with_code, entered, called, depth, jump, leave, IsHead, IsRooted};

    /// Stacks with room for all that the limits allow.
    pub fn new(alloc: Global) -> Result<Stacks<'m>, AllocError>
        ensures { IfOk result (λ s. s ≡ outside) }
    {
        let code: &'m [Instr] = &[];
        Ok(Stacks {
            code,
            values: Vec::with_capacity(alloc, MAX_SLOTS)?,
            controls: Vec::with_capacity(alloc, MAX_LABELS)?,
            frames: 0,
            frame: 0,
            base: 0,
        })
    }

    /// The instructions that are left of the innermost sequence.
    pub fn code(&self) -> &'m [Instr]
        ensures code { result.now ≡ self.now.code }
        ensures rooted { IsRooted self.now.layers self.now.locals }
        ensures slots { slots_of (term_of self.now) ≤ MAX_SLOTS }
    {
        self.code
    }

    /// Whether no block is open and no function is called.
    pub fn is_outside(&self) -> bool
        ensures { IsTrue result ↔ (self.now.layers ≡ []) }
    {
        self.controls.is_empty()
    }

    /// Leaves everything: the operands too.
    pub fn clear(&mut self)
        ensures { self.new ≡ outside }
    {
        let code: &'m [Instr] = &[];
        self.code = code;
        self.values.truncate(0);
        self.controls.truncate(0);
        self.frames = 0;
        self.frame = 0;
        self.base = 0;
    }

    /// Goes on to these instructions.
    pub fn advance(&mut self, rest: &'m [Instr])
        ensures { self.new ≡ with_code self.old rest.now }
    {
        self.code = rest;
    }

    /// Whether so many more operands and locals may be there.
    pub fn has_room(&self, more: usize) -> bool
        ensures { IsTrue result ↔ (slots_of (term_of self.now) + more ≤ MAX_SLOTS) }
    {
        more <= MAX_SLOTS - self.values.len()
    }

    /// Whether one more block may be open.
    pub fn has_label(&self) -> bool
        ensures { IsTrue result ↔ (labels_of (term_of self.now) < MAX_LABELS) }
    {
        self.controls.len() < MAX_LABELS
    }

    /// Whether one more function may be called.
    pub fn has_frame(&self) -> bool
        ensures { IsTrue result ↔ (frames_of (term_of self.now) < MAX_FRAMES) }
    {
        (self.frames as usize) < MAX_FRAMES
    }

    pub fn push(&mut self, value: u64)
        requires { slots_of (term_of self.old) < MAX_SLOTS }
        ensures { self.new ≡ with_operands self.old (value ∷ self.old.operands) }
    {
        self.values.push_reserved(value);
    }

    pub fn pop(&mut self) -> u64
        requires { 0 < length self.old.operands }
        ensures value { self.old ≡ with_operands self.new (result ∷ self.new.operands) }
        ensures slots { slots_of (term_of self.old) ≡ slots_of (term_of self.new) + 1 }
    {
        let last = self.values.len() - 1;
        self.values.swap_remove(last)
    }

    /// A local of the innermost function.
    pub fn local(&self, at: usize) -> u64
        requires { at < length self.now.locals }
        ensures { slice_get self.now.locals at ≡ Some result }
    {
        self.values[self.base as usize + at]
    }

    pub fn set_local(&mut self, at: usize, value: u64)
        requires { at < length self.old.locals }
        ensures { self.new ≡ with_locals self.old (slice_set self.old.locals at value) }
    {
        let place = self.base as usize + at;
        self.values[place] = value;
    }

    /// The last operands, the first of them first.
    pub fn last(&self, count: usize) -> &[u64]
        requires { count ≤ length self.now.operands }
        ensures { result.now ≡ reverse (take count self.now.operands) }
    {
        &self.values[self.values.len() - count..]
    }

    pub fn drop_last(&mut self, count: usize)
        requires { count ≤ length self.old.operands }
        ensures values { self.new ≡ with_operands self.old (drop count self.old.operands) }
        ensures slots { slots_of (term_of self.old) ≡ slots_of (term_of self.new) + count }
    {
        let left = self.values.len() - count;
        self.values.truncate(left);
    }

    /// Enters a block, which the rest follows.
    pub fn enter(&mut self, results: u32, rest: &'m [Instr], body: &'m [Instr])
        requires { labels_of (term_of self.old) < MAX_LABELS }
        ensures { self.new ≡ entered self.old results [] rest.now body.now }
    {
        let height = self.values.len() as u32;
        self.controls.push_reserved(Control::Block {
            results,
            target: rest,
            rest,
            height,
        });
        self.code = body;
    }

    /// Enters the loop that the code begins with.
    pub fn enter_loop(&mut self, rest: &'m [Instr], body: &'m [Instr])
        requires room { labels_of (term_of self.old) < MAX_LABELS }
        requires head { IsHead self.old.code rest.now }
        ensures { self.new ≡ entered self.old 0 (take 1 self.old.code) rest.now body.now }
    {
        let height = self.values.len() as u32;
        self.controls.push_reserved(Control::Block {
            results: 0,
            target: self.code,
            rest,
            height,
        });
        self.code = body;
    }

    /// Calls a function, whose parameters are the last operands.
    pub fn call(
        &mut self,
        params: u32,
        locals: u32,
        results: u32,
        rest: &'m [Instr],
        body: &'m [Instr],
    )
        requires params { params ≤ length self.old.operands }
        requires frames { frames_of (term_of self.old) < MAX_FRAMES }
        requires slots { slots_of (term_of self.old) + locals ≤ MAX_SLOTS }
        requires labels { labels_of (term_of self.old) < MAX_LABELS }
        ensures { self.new ≡ called self.old params locals results rest.now body.now }
    {
        let base = self.values.len() as u32 - params;
        push_zeros(&mut self.values, locals as usize);
        let height = self.values.len() as u32;
        let frame = self.controls.len() as u32;
        self.controls.push_reserved(Control::Call {
            results,
            rest,
            base,
            height,
            caller: self.frame,
            caller_base: self.base,
        });
        self.frames += 1;
        self.frame = frame;
        self.base = base;
        self.code = body;
    }

    /// Branches to a label of the innermost function, the innermost label being 0 and
    /// the function's own the last.
    pub fn branch(&mut self, label: usize)
        requires { IsSome (jump self.old label) }
        ensures { jump self.old label ≡ Some self.new }
    {
        let at = self.controls.len() - 1 - label;
        match self.controls[at] {
            Control::Block {
                results,
                target,
                rest: _,
                height,
            } => {
                self.controls.truncate(at);
                keep(&mut self.values, height as usize, results as usize);
                self.code = target;
            }
            Control::Call {
                results,
                rest,
                base,
                height: _,
                caller,
                caller_base,
            } => {
                self.controls.truncate(at);
                keep(&mut self.values, base as usize, results as usize);
                self.code = rest;
                self.frames -= 1;
                self.frame = caller;
                self.base = caller_base;
            }
        }
    }

    /// Leaves the innermost function.
    pub fn leave_function(&mut self)
        requires { IsSome (jump self.old (depth self.old.layers)) }
        ensures { jump self.old (depth self.old.layers) ≡ Some self.new }
    {
        let label = self.controls.len() - 1 - self.frame as usize;
        self.branch(label);
    }

    /// Leaves the innermost block or function at its end.
    pub fn leave(&mut self)
        requires { IsSome (leave self.old) }
        ensures { leave self.old ≡ Some self.new }
    {
        let at = self.controls.len() - 1;
        match self.controls[at] {
            Control::Block { rest, .. } => {
                self.controls.truncate(at);
                self.code = rest;
            }
            Control::Call { .. } => self.branch(0),
        }
    }
}

fn push_zeros(values: &mut Vec<u64>, count: usize)
    requires { length values.old.items + count ≤ vec_capacity values.old }
    ensures items { values.new.items ≡ values.old.items ++ replicate count 0 }
    ensures capacity { vec_capacity values.old ≤ vec_capacity values.new }
{
    for _ in 0..count {
        values.push_reserved(0);
    }
}

/// Keeps the first values up to the base, and the last ones.
fn keep(values: &mut Vec<u64>, base: usize, count: usize)
    requires { base + count ≤ length values.old.items }
    ensures items { values.new.items
        ≡ take base values.old.items ++ drop (length values.old.items - count) values.old.items }
    ensures capacity { vec_capacity values.new ≡ vec_capacity values.old }
{
    if count == 0 {
        values.truncate(base);
    } else {
        move_down(values, base, count);
    }
}

/// The same, not inlined: most branches keep none.
#[inline(never)]
fn move_down(values: &mut Vec<u64>, base: usize, count: usize)
    requires { base + count ≤ length values.old.items }
    ensures items { values.new.items
        ≡ take base values.old.items ++ drop (length values.old.items - count) values.old.items }
    ensures capacity { vec_capacity values.new ≡ vec_capacity values.old }
{
    let from = values.len() - count;
    values.copy_within(from.., base);
    values.truncate(base + count);
}
