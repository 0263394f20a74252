use vr_base::{Bytes, Path, Why};
use vr_files::Changes;

/// What the run of a pipeline comes to.
#[derive(Debug, Drop)]
pub enum Outcome {
    /// It ended with a code, and changed these files.
    Ended {
        code: u32,
        out: Bytes,
        changes: Changes,
    },
    /// The first program file in the order of the text that is no program, and why. No program ran.
    BadProgram {
        path: Path,
        why: Why,
    },
    /// The program that trapped, and the kind of the trap. No file was changed.
    Trapped {
        path: Path,
        kind: u8,
    },
    /// The program that still ran when no steps were left. No file was changed.
    OutOfFuel {
        path: Path,
    },
}
