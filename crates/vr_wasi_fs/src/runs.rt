//! What holds of whole runs over worlds. A call does nothing: it is made for what it ensures.

ghost use Rattle.vr_wasi_calls.specs.Replies.{reply};
ghost use Rattle.vr_wasi_calls.specs.Worlds.{World};
ghost use Rattle.vr_wasi_fs.specs.Agreement.{AreAlike, BeginAlike, Keeps};
ghost use Rattle.vr_wasm_in_step.specs.InStep.{StayInStep};
ghost use Rattle.vr_wasm_in_step.specs.Kept.{StayKept};

use crate::world::World as Host;
use vr_wasm_in_step::{stay_in_step, stay_kept};

/// Two worlds are alike that a program begins with, where the files are the same of which it can
/// learn.
pub fn worlds_begin_alike()
    ensures { BeginAlike }
{}

/// Two runs of the same functions over worlds that are alike to the program keep in step.
pub fn runs_stay_alike()
    ensures { StayInStep AreAlike reply reply }
{
    stay_in_step::<Host>();
}

/// A run changes no file but those that the program may change.
pub fn runs_keep_files()
    ensures { (before : World) → StayKept (Keeps before) reply }
{
    stay_kept::<Host>();
}
