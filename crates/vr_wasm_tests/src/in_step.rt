//! Runs of any functions over a host with two registers, of which they can read the first one alone.

ghost use Rattle.vr_wasm_tests.specs.Registers.{SecondIsNotRead, FirstIsNotWritten};

use vr_wasm_in_step::{Alike, Keeps, stay_in_step, stay_kept};

/// The host, for proofs alone.
struct Registers;

impl Alike for Registers {
    ghost use Rattle.std.specs.Prelude.{ℕ};
    ghost use Rattle.vr_wasm_tests.specs.Registers.{replies, SameFirst, agree};

    ghost World = { ℕ × ℕ };

    ghost alike = { SameFirst };

    ghost reply = { replies };

    ghost replies_agree = { agree };
}

impl Keeps for Registers {
    ghost use Rattle.std.specs.Prelude.{ℕ};
    ghost use Rattle.vr_wasm_tests.specs.Registers.{replies, SameFirst, keep};

    ghost World = { ℕ × ℕ };

    ghost kept = { SameFirst };

    ghost reply = { replies };

    ghost replies_keep = { keep };
}

fn second_is_not_read()
    ensures { SecondIsNotRead }
{
    stay_in_step::<Registers>();
}

fn first_is_not_written()
    ensures { FirstIsNotWritten }
{
    stay_kept::<Registers>();
}

#[test]
fn runs_keep_in_step_with_what_they_see() {
    second_is_not_read();
    first_is_not_written();
}
