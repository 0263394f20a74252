/// What a straight run came to.
#[derive(Clone, Copy)]
pub enum Stretch {
    /// The end of the sequence, or an instruction that leaves it: so many steps are left.
    Through(u64),
    /// So many steps were left before the one that trapped.
    Trapped { kind: u8, left: u64 },
    /// The next step costs more than what is left.
    Short,
}
