//! Conversions between the two widths.

ghost use Rattle.std.specs.Prelude.{◌≡◌, IsSome, IfSome};
ghost use Rattle.vr_wasm_num.specs.Integers.{converted};
ghost use Rattle.vr_wasm_num.specs.Opcodes.{conversion_of};

use crate::opcodes::{I32_WRAP_I64, I64_EXTEND_I32_S, I64_EXTEND_I32_U};

/// The conversion of this opcode. One from 32 bits takes the lowest 32 of `a`.
pub fn convert(op: u8, a: u64) -> u64
    requires { IsSome (conversion_of op) }
    ensures { IfSome (conversion_of op) (λ conversion. result ≡ converted conversion a) }
{
    let low = (a % 0x1_0000_0000) as u32;
    match op {
        I32_WRAP_I64 | I64_EXTEND_I32_U => u64::from(low),
        I64_EXTEND_I32_S => i64::from(low.cast_signed()).cast_unsigned(),
        _ => unreachable!(),
    }
}
