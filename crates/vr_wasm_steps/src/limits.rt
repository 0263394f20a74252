//! How large a running program may get.

/// The most functions that have been called and not left.
pub const MAX_FRAMES: usize = 1_024;

/// The most operands, and locals of all frames.
pub const MAX_SLOTS: usize = 1_048_576;

/// The most open blocks of all frames, one for each function among them.
pub const MAX_LABELS: usize = 65_536;
