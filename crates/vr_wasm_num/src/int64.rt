//! The operations on integers of 64 bits.

ghost use Rattle.std.specs.Prelude.{◌≡◌, IsSome, IfSome};
ghost use Rattle.vr_wasm_num.specs.Integers.{bit, unary, binary, compare, div_s, div_u, rem_s, rem_u};
ghost use Rattle.vr_wasm_num.specs.Opcodes.{i64_unary_of, i64_binary_of, i64_compare_of};

use crate::opcodes::*;
use crate::trap::{DIVIDE_BY_ZERO, INTEGER_OVERFLOW, Trap};

/// The instruction of this opcode on one operand.
pub fn i64_unary(op: u8, a: u64) -> u64
    requires { IsSome (i64_unary_of op) }
    ensures { IfSome (i64_unary_of op) (λ operation. result ≡ unary operation 64 a) }
{
    match op {
        I64_CLZ => u64::from(a.leading_zeros()),
        I64_CTZ => u64::from(a.trailing_zeros()),
        I64_POPCNT => u64::from(a.count_ones()),
        I64_EXTEND8_S => i64::from(((a % 0x100) as u8).cast_signed()).cast_unsigned(),
        I64_EXTEND16_S => i64::from(((a % 0x1_0000) as u16).cast_signed()).cast_unsigned(),
        I64_EXTEND32_S => i64::from(((a % 0x1_0000_0000) as u32).cast_signed()).cast_unsigned(),
        _ => unreachable!(),
    }
}

/// The instruction of this opcode on two operands, where it doesn't trap: a division or a remainder
/// by zero traps, and so does a signed division of the least value by -1.
#[tactic(auto, using(crate::proofs::RotationLemmas::rotated_left, crate::proofs::RotationLemmas::rotated_right))]
pub fn i64_binary(op: u8, a: u64, b: u64) -> Result<u64, Trap>
    requires { IsSome (i64_binary_of op) }
    ensures { IfSome (i64_binary_of op) (λ operation. result ≡ binary operation 64 a b) }
{
    match op {
        I64_ADD => Ok(a.wrapping_add(b)),
        I64_SUB => Ok(a.wrapping_sub(b)),
        I64_MUL => Ok(a.wrapping_mul(b)),
        I64_DIV_S => div_s(a, b),
        I64_DIV_U => div_u(a, b),
        I64_REM_S => rem_s(a, b),
        I64_REM_U => rem_u(a, b),
        I64_AND => Ok(a & b),
        I64_OR => Ok(a | b),
        I64_XOR => Ok(a ^ b),
        I64_SHL => Ok(a.wrapping_shl((b % 64) as u32)),
        I64_SHR_S => Ok((a.cast_signed() >> (b % 64)).cast_unsigned()),
        I64_SHR_U => Ok(a.wrapping_shr((b % 64) as u32)),
        I64_ROTL => Ok(a.rotate_left((b % 64) as u32)),
        I64_ROTR => Ok(a.rotate_right((b % 64) as u32)),
        _ => unreachable!(),
    }
}

/// The comparison of this opcode: 1 where it holds, and else 0. The test
/// for zero doesn't look at `b`.
pub fn i64_compare(op: u8, a: u64, b: u64) -> u32
    requires { IsSome (i64_compare_of op) }
    ensures { IfSome (i64_compare_of op) (λ operation. result ≡ bit (compare operation 64 a b)) }
{
    u32::from(match op {
        I64_EQZ => a == 0,
        I64_EQ => a == b,
        I64_NE => a != b,
        I64_LT_S => a.cast_signed() < b.cast_signed(),
        I64_LT_U => a < b,
        I64_GT_S => a.cast_signed() > b.cast_signed(),
        I64_GT_U => a > b,
        I64_LE_S => a.cast_signed() <= b.cast_signed(),
        I64_LE_U => a <= b,
        I64_GE_S => a.cast_signed() >= b.cast_signed(),
        I64_GE_U => a >= b,
        _ => unreachable!(),
    })
}

fn div_s(a: u64, b: u64) -> Result<u64, Trap>
    ensures { result ≡ binary div_s 64 a b }
{
    if b == 0 {
        return Err(Trap {
            kind: DIVIDE_BY_ZERO,
        });
    }
    match a.cast_signed().checked_div(b.cast_signed()) {
        Some(quotient) => Ok(quotient.cast_unsigned()),
        None => Err(Trap {
            kind: INTEGER_OVERFLOW,
        }),
    }
}

fn div_u(a: u64, b: u64) -> Result<u64, Trap>
    ensures { result ≡ binary div_u 64 a b }
{
    match b {
        0 => Err(Trap {
            kind: DIVIDE_BY_ZERO,
        }),
        _ => Ok(a / b),
    }
}

/// The remainder has the sign of `a`; that of the least value by -1 is 0.
fn rem_s(a: u64, b: u64) -> Result<u64, Trap>
    ensures { result ≡ binary rem_s 64 a b }
{
    match b {
        0 => Err(Trap {
            kind: DIVIDE_BY_ZERO,
        }),
        u64::MAX => Ok(0),
        _ => Ok((a.cast_signed() % b.cast_signed()).cast_unsigned()),
    }
}

fn rem_u(a: u64, b: u64) -> Result<u64, Trap>
    ensures { result ≡ binary rem_u 64 a b }
{
    match b {
        0 => Err(Trap {
            kind: DIVIDE_BY_ZERO,
        }),
        _ => Ok(a % b),
    }
}
