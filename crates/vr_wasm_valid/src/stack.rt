ghost use Rattle.std.specs.Prelude.{◌≡◌, [], ◌∷◌, ◌++◌, ◌↔◌, reverse, OnOk, IsTrue, MatchOption, true, false};
ghost use Rattle.vr_wasm_ast.specs.declared.tree.ValType.TheVariants.{I32};
ghost use Rattle.vr_wasm_valid.specs.Context.{result_list};
ghost use Rattle.vr_wasm_valid.specs.Shape.{Shape, shape, Checks, Differ, Fits, IsBare, Matches, Meets, Moves, Pops, Pushes, Steps};
ghost use Rattle.vr_wasm_valid.specs.Steps.{Drops, Given, Leaves, Selects, Takes};

use sqlite_items::Items;
use std::alloc::{AllocError, Global};
use std::marker::Model;
use vr_wasm_ast::ValType;

/// What is known of the operand types at a place in the code: the last ones, each known or not,
/// and whether any others may lie below them, as they may where the code can't be reached
/// (WebAssembly Core 1.0, appendix A.3).
#[derive(Drop)]
pub struct Stack {
    alloc: Global,
    known: Items<Option<ValType>>,
    open_below: bool,
}

impl Model for Stack {
    ghost use Rattle.std.specs.Prelude.{reverse};
    ghost use Rattle.vr_wasm_valid.specs.Shape.{Shape, shape};

    ghost Value = { Shape };

    ghost view = { λ s. shape (reverse s.known) s.open_below };
}

fn fits(found: Option<ValType>, wanted: ValType) -> bool
    ensures { IsTrue result ↔ Matches found wanted }
{
    match found {
        Some(known) => known == wanted,
        None => true,
    }
}

/// What both say, if they can be of one type.
fn both(one: Option<ValType>, two: Option<ValType>) -> Option<Option<ValType>>
    ensures { MatchOption result (Differ one two) (λ kind. Meets one two kind) }
{
    match (one, two) {
        (None, _) => Some(two),
        (_, None) => Some(one),
        (Some(a), Some(b)) => { if a == b { Some(one) } else { None } },
    }
}

impl Stack {
    pub fn new(alloc: Global) -> Stack
        ensures { result ≡ shape [] false }
    {
        Stack {
            alloc,
            known: Items::new(alloc),
            open_below: false,
        }
    }

    /// After code that is never left: any operands are possible.
    fn open(&mut self)
        ensures { self.new ≡ shape [] true }
    {
        self.known = Items::new(self.alloc);
        self.open_below = true;
    }

    /// Takes the last operand off, and says what is known of it.
    fn pop(&mut self) -> Option<Option<ValType>>
        ensures { MatchOption result (IsBare self.old) (λ kind. Pops kind self.old self.new) }
    {
        match self.known.pop() {
            Some(found) => Some(found),
            None if self.open_below => Some(None),
            None => None,
        }
    }

    /// Puts an operand on.
    fn push(&mut self, kind: Option<ValType>) -> Result<(), AllocError>
        ensures { OnOk result (Pushes kind self.old self.new) }
    {
        self.known.push(kind)
    }

    /// Takes one operand of this type off.
    fn take(&mut self, wanted: ValType) -> bool
        ensures { Moves result self.old self.new (Takes (wanted ∷ []) []) }
    {
        match self.pop() {
            Some(found) => fits(found, wanted),
            None => false,
        }
    }

    /// Whether there may be no operands.
    fn is_bare(&self) -> bool
        ensures { IsTrue result ↔ Fits self.now [] }
    {
        self.known.is_empty()
    }

    /// Whether nothing is known, and any operands are possible.
    fn is_free(&self) -> bool
        ensures { IsTrue result ↔ (self.now ≡ shape [] true) }
    {
        self.open_below && self.known.is_empty()
    }

    /// Takes these operands off one by one, the last one first.
    fn take_each(&mut self, wanted: &[ValType]) -> bool
        ensures { Moves result self.old self.new (Takes (reverse wanted.now) []) }
    {
        let mut fine = true;
        for kind in wanted.iter().rev().copied() {
            fine = fine && self.take(kind);
        }
        fine
    }

    /// Takes these operands off, the last one first. It looks at no more of them than are known:
    /// where the others may be of any type, they aren't looked at one by one.
    fn take_all(&mut self, wanted: &[ValType]) -> bool
        ensures { Moves result self.old self.new (Takes (reverse wanted.now) []) }
    {
        let unknown = wanted.len().saturating_sub(self.known.len());
        if !self.take_each(&wanted[unknown..]) {
            return false;
        }
        if self.is_free() {
            return true;
        }
        self.take_each(&wanted[..unknown])
    }

    /// Puts a result on, if there is one.
    fn give(&mut self, given: Option<ValType>) -> Result<(), AllocError>
        ensures { OnOk result (Steps self.old self.new (Takes [] (result_list given))) }
    {
        match given {
            Some(kind) => self.push(Some(kind)),
            None => Ok(()),
        }
    }

    /// Takes operands off, the last one first, and puts a result on.
    pub fn apply(&mut self, taken: &[ValType], given: Option<ValType>) -> Result<bool, AllocError>
        ensures { Checks result self.old self.new (Takes (reverse taken.now) (result_list given)) }
    {
        if self.take_all(taken) {
            self.give(given)?;
            Ok(true)
        } else {
            Ok(false)
        }
    }

    /// The same where a condition holds, and else there is no typing.
    pub fn apply_if(
        &mut self,
        condition: bool,
        taken: &[ValType],
        given: Option<ValType>,
    ) -> Result<bool, AllocError>
        ensures { Checks result self.old self.new
            (Given (IsTrue condition) (Takes (reverse taken.now) (result_list given))) }
    {
        if condition {
            self.apply(taken, given)
        } else {
            Ok(false)
        }
    }

    /// The same under an i32, which is taken off too.
    pub fn apply_under_i32(
        &mut self,
        taken: &[ValType],
        given: Option<ValType>,
    ) -> Result<bool, AllocError>
        ensures { Checks result self.old self.new
            (Takes (I32 ∷ reverse taken.now) (result_list given)) }
    {
        if self.take(ValType::I32) {
            self.apply(taken, given)
        } else {
            Ok(false)
        }
    }

    /// Takes what a branch or the function wants off, and what follows can't be reached.
    pub fn leave(&mut self, wanted: Option<ValType>) -> bool
        ensures { Moves result self.old self.new (Leaves (result_list wanted)) }
    {
        let fine = self.take_all(wanted.as_slice());
        self.open();
        fine
    }

    /// The same under an i32, which is taken off too.
    pub fn leave_under_i32(&mut self, wanted: Option<ValType>) -> bool
        ensures { Moves result self.old self.new (Leaves (I32 ∷ result_list wanted)) }
    {
        self.take(ValType::I32) && self.leave(wanted)
    }

    /// Takes any operand off.
    pub fn drop_one(&mut self) -> bool
        ensures { Moves result self.old self.new Drops }
    {
        match self.pop() {
            Some(_) => true,
            None => false,
        }
    }

    /// Takes an i32 and two operands of one type off, and puts one of that type on.
    pub fn select(&mut self) -> Result<bool, AllocError>
        ensures { Checks result self.old self.new Selects }
    {
        if !self.take(ValType::I32) {
            return Ok(false);
        }
        let Some(one) = self.pop() else {
            return Ok(false);
        };
        let Some(two) = self.pop() else {
            return Ok(false);
        };
        let Some(kind) = both(one, two) else {
            return Ok(false);
        };
        self.push(kind)?;
        Ok(true)
    }

    /// Whether the operands may be these and no others.
    fn ends_as(&mut self, wanted: &[ValType]) -> bool
        ensures { IsTrue result ↔ Fits self.old (reverse wanted.now) }
    {
        self.take_all(wanted) && self.is_bare()
    }

    /// Whether the operands may be this result and no others.
    pub fn ends_with(mut self, wanted: Option<ValType>) -> bool
        ensures { IsTrue result ↔ Fits self (result_list wanted) }
    {
        self.ends_as(wanted.as_slice())
    }
}
