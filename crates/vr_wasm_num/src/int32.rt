//! The operations on integers of 32 bits.

ghost use Rattle.std.specs.Prelude.{◌≡◌, IsSome, IfSome};
ghost use Rattle.vr_wasm_num.specs.Integers.{bit, unary, binary, compare, div_s, div_u, rem_s, rem_u};
ghost use Rattle.vr_wasm_num.specs.Opcodes.{i32_unary_of, i32_binary_of, i32_compare_of};

use crate::opcodes::*;
use crate::trap::{DIVIDE_BY_ZERO, INTEGER_OVERFLOW, Trap};

/// The instruction of this opcode on one operand.
pub fn i32_unary(op: u8, a: u32) -> u32
    requires { IsSome (i32_unary_of op) }
    ensures { IfSome (i32_unary_of op) (λ operation. result ≡ unary operation 32 a) }
{
    match op {
        I32_CLZ => a.leading_zeros(),
        I32_CTZ => a.trailing_zeros(),
        I32_POPCNT => a.count_ones(),
        I32_EXTEND8_S => i32::from(((a % 0x100) as u8).cast_signed()).cast_unsigned(),
        I32_EXTEND16_S => i32::from(((a % 0x1_0000) as u16).cast_signed()).cast_unsigned(),
        _ => unreachable!(),
    }
}

/// The instruction of this opcode on two operands, where it doesn't trap: a division or a remainder
/// by zero traps, and so does a signed division of the least value by -1.
#[tactic(auto, using(crate::proofs::RotationLemmas::rotated_left, crate::proofs::RotationLemmas::rotated_right))]
pub fn i32_binary(op: u8, a: u32, b: u32) -> Result<u32, Trap>
    requires { IsSome (i32_binary_of op) }
    ensures { IfSome (i32_binary_of op) (λ operation. result ≡ binary operation 32 a b) }
{
    match op {
        I32_ADD => Ok(a.wrapping_add(b)),
        I32_SUB => Ok(a.wrapping_sub(b)),
        I32_MUL => Ok(a.wrapping_mul(b)),
        I32_DIV_S => div_s(a, b),
        I32_DIV_U => div_u(a, b),
        I32_REM_S => rem_s(a, b),
        I32_REM_U => rem_u(a, b),
        I32_AND => Ok(a & b),
        I32_OR => Ok(a | b),
        I32_XOR => Ok(a ^ b),
        I32_SHL => Ok(a.wrapping_shl(b)),
        I32_SHR_S => Ok((a.cast_signed() >> (b % 32)).cast_unsigned()),
        I32_SHR_U => Ok(a.wrapping_shr(b)),
        I32_ROTL => Ok(a.rotate_left(b)),
        I32_ROTR => Ok(a.rotate_right(b)),
        _ => unreachable!(),
    }
}

/// The comparison of this opcode: 1 where it holds, and else 0. The test
/// for zero doesn't look at `b`.
pub fn i32_compare(op: u8, a: u32, b: u32) -> u32
    requires { IsSome (i32_compare_of op) }
    ensures { IfSome (i32_compare_of op) (λ operation. result ≡ bit (compare operation 32 a b)) }
{
    u32::from(match op {
        I32_EQZ => a == 0,
        I32_EQ => a == b,
        I32_NE => a != b,
        I32_LT_S => a.cast_signed() < b.cast_signed(),
        I32_LT_U => a < b,
        I32_GT_S => a.cast_signed() > b.cast_signed(),
        I32_GT_U => a > b,
        I32_LE_S => a.cast_signed() <= b.cast_signed(),
        I32_LE_U => a <= b,
        I32_GE_S => a.cast_signed() >= b.cast_signed(),
        I32_GE_U => a >= b,
        _ => unreachable!(),
    })
}

fn div_s(a: u32, b: u32) -> Result<u32, Trap>
    ensures { result ≡ binary div_s 32 a b }
{
    if b == 0 {
        return Err(Trap {
            kind: DIVIDE_BY_ZERO,
        });
    }
    match a.cast_signed().checked_div(b.cast_signed()) {
        Some(quotient) => Ok(quotient.cast_unsigned()),
        None => Err(Trap {
            kind: INTEGER_OVERFLOW,
        }),
    }
}

fn div_u(a: u32, b: u32) -> Result<u32, Trap>
    ensures { result ≡ binary div_u 32 a b }
{
    match b {
        0 => Err(Trap {
            kind: DIVIDE_BY_ZERO,
        }),
        _ => Ok(a / b),
    }
}

/// The remainder has the sign of `a`; that of the least value by -1 is 0.
fn rem_s(a: u32, b: u32) -> Result<u32, Trap>
    ensures { result ≡ binary rem_s 32 a b }
{
    match b {
        0 => Err(Trap {
            kind: DIVIDE_BY_ZERO,
        }),
        u32::MAX => Ok(0),
        _ => Ok((a.cast_signed() % b.cast_signed()).cast_unsigned()),
    }
}

fn rem_u(a: u32, b: u32) -> Result<u32, Trap>
    ensures { result ≡ binary rem_u 32 a b }
{
    match b {
        0 => Err(Trap {
            kind: DIVIDE_BY_ZERO,
        }),
        _ => Ok(a % b),
    }
}
