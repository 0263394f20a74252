use vr_core::Book;
use vr_keeper::Keeper;

/// What a server kept.
#[derive(Debug, Drop)]
pub enum Kept<K: Keeper> {
    /// The keeper alone: no book was started.
    Store(K),
    /// The book, with its journal and its keeper.
    Book(Book<K>),
}
