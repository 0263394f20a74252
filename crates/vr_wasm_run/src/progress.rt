/// What one step came to.
#[derive(Clone, Copy)]
pub enum Progress {
    /// The row cost so many steps.
    Went(u64),
    /// The program had ended.
    Over,
    Exited(u32),
    Trapped(u8),
    /// The host ran out of memory.
    Stopped,
}
