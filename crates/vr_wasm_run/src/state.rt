//! The instructions that stay in their sequence.

ghost use Rattle.std.specs.Prelude.{◌≡◌, ◌*◌, ◌^◌, ◌<◌, ◌≤◌};
ghost use Rattle.vr_wasm_num.specs.Memory.{IsWidth};
ghost use Rattle.vr_wasm_run.specs.Access.{IsNarrow};
ghost use Rattle.vr_wasm_steps.specs.Effects.{extended};

use vr_wasm_ast::{
    Instr, MemoryAccess, NumericFamily, ValType, load_access, numeric_family, store_access,
};
use vr_wasm_num::{
    MEMORY_OUT_OF_BOUNDS, Memory, TOO_MANY_VALUES, Trap, UNREACHABLE, convert, i32_binary,
    i32_compare, i32_unary, i64_binary, i64_compare, i64_unary,
};
use vr_wasm_stacks::Stacks;

/// What a running program keeps.
#[derive(Drop)]
pub struct State<'m> {
    pub stacks: Stacks<'m>,
    pub memory: Memory,
    pub table: Vec<Option<u32>>,
    pub globals: Vec<u64>,
}

impl<'m> State<'m> {
    ghost use Rattle.vr_wasm_ast.specs.Instructions.{nop, drop, select, local_get, local_set};
    ghost use Rattle.vr_wasm_ast.specs.Instructions.{local_tee, global_get, global_set};
    ghost use Rattle.vr_wasm_ast.specs.Instructions.{memory_size, memory_grow, memory_copy};
    ghost use Rattle.vr_wasm_ast.specs.Instructions.{memory_fill, i32_const, i64_const, numeric};
    ghost use Rattle.vr_wasm_ast.specs.Instructions.{load, store, instruction_of};
    ghost use Rattle.vr_wasm_run.specs.Plain.{IsPlain};
    ghost use Rattle.vr_wasm_run.specs.States.{Ready, Makes, Applies, effect_of, IsConversion};
    ghost use Rattle.vr_wasm_ast.specs.Opcodes.{numeric_of};
    ghost use Rattle.std.specs.Prelude.{◌≡◌, Some};

    fn nop(&mut self) -> Result<u64, Trap>
        requires { Ready self.old nop }
        ensures { Makes self.old (effect_of self.old nop) result self.new }
    {
        let _ = &self.memory;
        Ok(1)
    }

    fn discard(&mut self) -> Result<u64, Trap>
        requires { Ready self.old drop }
        ensures { Makes self.old (effect_of self.old drop) result self.new }
    {
        let _ = self.stacks.pop();
        Ok(1)
    }

    fn select(&mut self) -> Result<u64, Trap>
        requires { Ready self.old select }
        ensures { Makes self.old (effect_of self.old select) result self.new }
    {
        let test = self.stacks.pop();
        let second = self.stacks.pop();
        let first = self.stacks.pop();
        self.stacks.push(if test == 0 { second } else { first });
        Ok(1)
    }

    fn local_get(&mut self, at: u32) -> Result<u64, Trap>
        requires { Ready self.old (local_get at) }
        ensures { Makes self.old (effect_of self.old (local_get at)) result self.new }
    {
        if !self.stacks.has_room(1) {
            return Err(Trap {
                kind: TOO_MANY_VALUES,
            });
        }
        let value = self.stacks.local(at as usize);
        self.stacks.push(value);
        Ok(1)
    }

    fn local_set(&mut self, at: u32) -> Result<u64, Trap>
        requires { Ready self.old (local_set at) }
        ensures { Makes self.old (effect_of self.old (local_set at)) result self.new }
    {
        let value = self.stacks.pop();
        self.stacks.set_local(at as usize, value);
        Ok(1)
    }

    fn local_tee(&mut self, at: u32) -> Result<u64, Trap>
        requires { Ready self.old (local_tee at) }
        ensures { Makes self.old (effect_of self.old (local_tee at)) result self.new }
    {
        let value = self.stacks.pop();
        self.stacks.push(value);
        self.stacks.set_local(at as usize, value);
        Ok(1)
    }

    fn global_get(&mut self, at: u32) -> Result<u64, Trap>
        requires { Ready self.old (global_get at) }
        ensures { Makes self.old (effect_of self.old (global_get at)) result self.new }
    {
        if !self.stacks.has_room(1) {
            return Err(Trap {
                kind: TOO_MANY_VALUES,
            });
        }
        let value = self.globals[at as usize];
        self.stacks.push(value);
        Ok(1)
    }

    fn global_set(&mut self, at: u32) -> Result<u64, Trap>
        requires { Ready self.old (global_set at) }
        ensures { Makes self.old (effect_of self.old (global_set at)) result self.new }
    {
        let value = self.stacks.pop();
        self.globals[at as usize] = value;
        Ok(1)
    }

    fn memory_size(&mut self) -> Result<u64, Trap>
        requires { Ready self.old memory_size }
        ensures { Makes self.old (effect_of self.old memory_size) result self.new }
    {
        if !self.stacks.has_room(1) {
            return Err(Trap {
                kind: TOO_MANY_VALUES,
            });
        }
        let pages = self.memory.size();
        self.stacks.push(u64::from(pages));
        Ok(1)
    }

    fn memory_grow(&mut self) -> Result<u64, Trap>
        requires { Ready self.old memory_grow }
        ensures { Makes self.old (effect_of self.old memory_grow) result self.new }
    {
        let more = self.stacks.pop() as u32;
        let pages = self.memory.grow(more).unwrap_or(u32::MAX);
        self.stacks.push(u64::from(pages));
        Ok(1)
    }

    fn memory_copy(&mut self) -> Result<u64, Trap>
        requires { Ready self.old memory_copy }
        ensures { Makes self.old (effect_of self.old memory_copy) result self.new }
    {
        let len = self.stacks.pop();
        let from = self.stacks.pop();
        let to = self.stacks.pop();
        if self.memory.copy_within(to, from, len) {
            Ok(1 + len / 16)
        } else {
            Err(Trap {
                kind: MEMORY_OUT_OF_BOUNDS,
            })
        }
    }

    fn memory_fill(&mut self) -> Result<u64, Trap>
        requires { Ready self.old memory_fill }
        ensures { Makes self.old (effect_of self.old memory_fill) result self.new }
    {
        let len = self.stacks.pop();
        let value = self.stacks.pop();
        let at = self.stacks.pop();
        if self.memory.fill(at, (value % 256) as u8, len) {
            Ok(1 + len / 16)
        } else {
            Err(Trap {
                kind: MEMORY_OUT_OF_BOUNDS,
            })
        }
    }

    fn i32_const(&mut self, value: i32) -> Result<u64, Trap>
        requires { Ready self.old (i32_const value) }
        ensures { Makes self.old (effect_of self.old (i32_const value)) result self.new }
    {
        if !self.stacks.has_room(1) {
            return Err(Trap {
                kind: TOO_MANY_VALUES,
            });
        }
        self.stacks.push(u64::from(value.cast_unsigned()));
        Ok(1)
    }

    fn i64_const(&mut self, value: i64) -> Result<u64, Trap>
        requires { Ready self.old (i64_const value) }
        ensures { Makes self.old (effect_of self.old (i64_const value)) result self.new }
    {
        if !self.stacks.has_room(1) {
            return Err(Trap {
                kind: TOO_MANY_VALUES,
            });
        }
        self.stacks.push(value.cast_unsigned());
        Ok(1)
    }

    /// The opcodes that programs have most come one by one, with their number, so that the compiler
    /// knows in each arm which operation it is.
    fn numeric(&mut self, op: u8) -> Result<u64, Trap>
        requires { Ready self.old (numeric op) }
        ensures { Makes self.old (effect_of self.old (numeric op)) result self.new }
    {
        match op {
            0x45 => self.test(0x45, ValType::I32),
            0x46 => self.comparison(0x46, ValType::I32),
            0x47 => self.comparison(0x47, ValType::I32),
            0x48 => self.comparison(0x48, ValType::I32),
            0x49 => self.comparison(0x49, ValType::I32),
            0x4a => self.comparison(0x4a, ValType::I32),
            0x4b => self.comparison(0x4b, ValType::I32),
            0x4c => self.comparison(0x4c, ValType::I32),
            0x4d => self.comparison(0x4d, ValType::I32),
            0x4e => self.comparison(0x4e, ValType::I32),
            0x4f => self.comparison(0x4f, ValType::I32),
            0x50 => self.test(0x50, ValType::I64),
            0x51 => self.comparison(0x51, ValType::I64),
            0x52 => self.comparison(0x52, ValType::I64),
            0x53 => self.comparison(0x53, ValType::I64),
            0x54 => self.comparison(0x54, ValType::I64),
            0x55 => self.comparison(0x55, ValType::I64),
            0x56 => self.comparison(0x56, ValType::I64),
            0x57 => self.comparison(0x57, ValType::I64),
            0x58 => self.comparison(0x58, ValType::I64),
            0x59 => self.comparison(0x59, ValType::I64),
            0x5a => self.comparison(0x5a, ValType::I64),
            0x6a => self.binary(0x6a, ValType::I32),
            0x6b => self.binary(0x6b, ValType::I32),
            0x6c => self.binary(0x6c, ValType::I32),
            0x71 => self.binary(0x71, ValType::I32),
            0x72 => self.binary(0x72, ValType::I32),
            0x73 => self.binary(0x73, ValType::I32),
            0x74 => self.binary(0x74, ValType::I32),
            0x75 => self.binary(0x75, ValType::I32),
            0x76 => self.binary(0x76, ValType::I32),
            0x77 => self.binary(0x77, ValType::I32),
            0x78 => self.binary(0x78, ValType::I32),
            0x7c => self.binary(0x7c, ValType::I64),
            0x7d => self.binary(0x7d, ValType::I64),
            0x7e => self.binary(0x7e, ValType::I64),
            0x83 => self.binary(0x83, ValType::I64),
            0x84 => self.binary(0x84, ValType::I64),
            0x85 => self.binary(0x85, ValType::I64),
            0x86 => self.binary(0x86, ValType::I64),
            0x87 => self.binary(0x87, ValType::I64),
            0x88 => self.binary(0x88, ValType::I64),
            0x89 => self.binary(0x89, ValType::I64),
            0x8a => self.binary(0x8a, ValType::I64),
            0xa7 => self.conversion(0xa7),
            0xac => self.conversion(0xac),
            0xad => self.conversion(0xad),
            _ => self.numeric_of_family(op),
        }
    }

    /// An instruction on integers of any opcode.
    fn numeric_of_family(&mut self, op: u8) -> Result<u64, Trap>
        requires { Ready self.old (numeric op) }
        ensures { Makes self.old (effect_of self.old (numeric op)) result self.new }
    {
        match numeric_family(op) {
            Some(NumericFamily::Unary(value)) => self.unary(op, value),
            Some(NumericFamily::Binary(value)) => self.binary(op, value),
            Some(NumericFamily::Test(value)) => self.test(op, value),
            Some(NumericFamily::Comparison(value)) => self.comparison(op, value),
            Some(NumericFamily::Conversion(..)) => self.conversion(op),
            None => unreachable!(),
        }
    }

    fn unary(&mut self, op: u8, value: ValType) -> Result<u64, Trap>
        requires ready { Ready self.old (numeric op) }
        requires family { numeric_of op ≡ Some (NumericFamily.Unary value) }
        ensures { Makes self.old (effect_of self.old (numeric op)) result self.new }
    {
        let operand = self.stacks.pop();
        let outcome = match value {
            ValType::I32 => u64::from(i32_unary(op, operand as u32)),
            ValType::I64 => i64_unary(op, operand),
        };
        self.stacks.push(outcome);
        Ok(1)
    }

    fn binary(&mut self, op: u8, value: ValType) -> Result<u64, Trap>
        requires ready { Ready self.old (numeric op) }
        requires family { numeric_of op ≡ Some (NumericFamily.Binary value) }
        ensures { Makes self.old (effect_of self.old (numeric op)) result self.new }
    {
        let second = self.stacks.pop();
        let first = self.stacks.pop();
        let outcome = match value {
            ValType::I32 => u64::from(i32_binary(op, first as u32, second as u32)?),
            ValType::I64 => i64_binary(op, first, second)?,
        };
        self.stacks.push(outcome);
        Ok(1)
    }

    fn test(&mut self, op: u8, value: ValType) -> Result<u64, Trap>
        requires ready { Ready self.old (numeric op) }
        requires family { numeric_of op ≡ Some (NumericFamily.Test value) }
        ensures { Makes self.old (effect_of self.old (numeric op)) result self.new }
    {
        let operand = self.stacks.pop();
        let holds = match value {
            ValType::I32 => i32_compare(op, operand as u32, 0),
            ValType::I64 => i64_compare(op, operand, 0),
        };
        self.stacks.push(u64::from(holds));
        Ok(1)
    }

    fn comparison(&mut self, op: u8, value: ValType) -> Result<u64, Trap>
        requires ready { Ready self.old (numeric op) }
        requires family { numeric_of op ≡ Some (NumericFamily.Comparison value) }
        ensures { Makes self.old (effect_of self.old (numeric op)) result self.new }
    {
        let second = self.stacks.pop();
        let first = self.stacks.pop();
        let holds = match value {
            ValType::I32 => i32_compare(op, first as u32, second as u32),
            ValType::I64 => i64_compare(op, first, second),
        };
        self.stacks.push(u64::from(holds));
        Ok(1)
    }

    fn conversion(&mut self, op: u8) -> Result<u64, Trap>
        requires ready { Ready self.old (numeric op) }
        requires family { IsConversion (numeric_of op) }
        ensures { Makes self.old (effect_of self.old (numeric op)) result self.new }
    {
        let operand = self.stacks.pop();
        self.stacks.push(convert(op, operand));
        Ok(1)
    }

    /// The opcodes that programs have most come one by one here too.
    fn load(&mut self, op: u8, exponent: u32, offset: u32) -> Result<u64, Trap>
        requires { Ready self.old (load op exponent offset) }
        ensures { Makes self.old (effect_of self.old (load op exponent offset)) result self.new }
    {
        match op {
            0x28 => self.read(0x28, exponent, offset),
            0x29 => self.read(0x29, exponent, offset),
            0x2c => self.read(0x2c, exponent, offset),
            0x2d => self.read(0x2d, exponent, offset),
            0x2f => self.read(0x2f, exponent, offset),
            _ => self.read(op, exponent, offset),
        }
    }

    fn read(&mut self, op: u8, exponent: u32, offset: u32) -> Result<u64, Trap>
        requires { Ready self.old (load op exponent offset) }
        ensures { Makes self.old (effect_of self.old (load op exponent offset)) result self.new }
    {
        let Some(access) = load_access(op) else {
            unreachable!()
        };
        let at = self.stacks.pop() + u64::from(offset);
        let Some(number) = self.memory.load(at, width_of(access)) else {
            return Err(Trap {
                kind: MEMORY_OUT_OF_BOUNDS,
            });
        };
        self.stacks.push(extended(access, number));
        Ok(1)
    }

    fn store(&mut self, op: u8, exponent: u32, offset: u32) -> Result<u64, Trap>
        requires { Ready self.old (store op exponent offset) }
        ensures { Makes self.old (effect_of self.old (store op exponent offset)) result self.new }
    {
        match op {
            0x36 => self.write(0x36, exponent, offset),
            0x37 => self.write(0x37, exponent, offset),
            0x3a => self.write(0x3a, exponent, offset),
            0x3b => self.write(0x3b, exponent, offset),
            _ => self.write(op, exponent, offset),
        }
    }

    fn write(&mut self, op: u8, exponent: u32, offset: u32) -> Result<u64, Trap>
        requires { Ready self.old (store op exponent offset) }
        ensures { Makes self.old (effect_of self.old (store op exponent offset)) result self.new }
    {
        let Some(access) = store_access(op) else {
            unreachable!()
        };
        let value = self.stacks.pop();
        let at = self.stacks.pop() + u64::from(offset);
        if self.memory.store(at, width_of(access), value) {
            Ok(1)
        } else {
            Err(Trap {
                kind: MEMORY_OUT_OF_BOUNDS,
            })
        }
    }

    /// An instruction that stays in its sequence: the cost of the row, or the trap. Nothing is done
    /// for one that leaves it.
    pub fn apply(&mut self, instr: &Instr) -> Option<Result<u64, Trap>>
        requires ready { IsPlain (instruction_of instr.now)
            → Ready self.old (instruction_of instr.now) }
        ensures { Applies self.old (instruction_of instr.now) result self.new }
    {
        match instr {
            Instr::Unreachable => Some(Err(Trap { kind: UNREACHABLE })),
            Instr::Nop => Some(self.nop()),
            Instr::Drop => Some(self.discard()),
            Instr::Select => Some(self.select()),
            Instr::LocalGet(at) => Some(self.local_get(*at)),
            Instr::LocalSet(at) => Some(self.local_set(*at)),
            Instr::LocalTee(at) => Some(self.local_tee(*at)),
            Instr::GlobalGet(at) => Some(self.global_get(*at)),
            Instr::GlobalSet(at) => Some(self.global_set(*at)),
            Instr::Load(op, exponent, offset) => Some(self.load(*op, *exponent, *offset)),
            Instr::Store(op, exponent, offset) => Some(self.store(*op, *exponent, *offset)),
            Instr::MemorySize => Some(self.memory_size()),
            Instr::MemoryGrow => Some(self.memory_grow()),
            Instr::MemoryCopy => Some(self.memory_copy()),
            Instr::MemoryFill => Some(self.memory_fill()),
            Instr::I32Const(value) => Some(self.i32_const(*value)),
            Instr::I64Const(value) => Some(self.i64_const(*value)),
            Instr::Numeric(op) => Some(self.numeric(*op)),
            Instr::Block(..) | Instr::Loop(..) | Instr::If(..) => None,
            Instr::Br(..) | Instr::BrIf(..) | Instr::BrTable(..) => None,
            Instr::Return | Instr::Call(..) | Instr::CallIndirect(..) => None,
        }
    }
}

/// How many bytes are read or written.
fn width_of(access: MemoryAccess) -> u8
    requires { access.exponent ≤ 3 }
    ensures power { result ≡ 2 ^ access.exponent }
    ensures width { IsWidth result }
{
    match access.exponent {
        0 => 1,
        1 => 2,
        2 => 4,
        _ => 8,
    }
}

/// The number that was read, in the width of its type.
fn extended(access: MemoryAccess, number: u64) -> u64
    requires narrow { IsNarrow access }
    requires number { number < 2 ^ (8 * 2 ^ access.exponent) }
    ensures { result ≡ extended access number }
{
    if !access.signed {
        return number;
    }
    match (access.value, access.exponent) {
        (ValType::I32, 0) => u64::from(i32::from((number as u8).cast_signed()).cast_unsigned()),
        (ValType::I32, _) => u64::from(i32::from((number as u16).cast_signed()).cast_unsigned()),
        (ValType::I64, 0) => i64::from((number as u8).cast_signed()).cast_unsigned(),
        (ValType::I64, 1) => i64::from((number as u16).cast_signed()).cast_unsigned(),
        (ValType::I64, _) => i64::from((number as u32).cast_signed()).cast_unsigned(),
    }
}
