//! A valid module's program never gets stuck (WebAssembly Core 1.0, appendix A.5).
#![tactic(auto)]

ghost use Rattle.vr_wasm_progress.specs.Progress.{ProgramsNeverLost};

use vr_wasm_steps::Host;

/// A program that a valid module was linked to is never lost, whatever the host's world is: a row
/// of the step table comes next, or it has ended. The call does nothing: its contract is the law.
pub fn programs_never_lost<H: Host>()
    ensures { ProgramsNeverLost H.World H.finds }
{}
