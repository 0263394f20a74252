//! What every other crate speaks of: names, rights, calls and replies, and the outside as traits.
#![tactic(auto)]

mod bytes;
mod calls;
mod cuts;
mod desk;
mod gate;
mod grants;
mod lists;
mod memory;
mod names;
mod outside;
mod rights;

pub use bytes::Bytes;
pub use calls::{Call, Entry, Front, Reply, Why};
pub use cuts::cut_at;
pub use desk::Desk;
pub use gate::{Gate, NoGate, Point};
pub use grants::Grants;
pub use lists::List;
pub use memory::NoMemory;
pub use names::{GrantName, Path, PathFault, parse_grant_name, parse_path};
pub use outside::{Failed, Folder, FolderFault, Link, Listener, Sink, Source, write_all};
pub use rights::{
    APPEND_RIGHTS, EXECUTE, EXECUTE_RIGHTS, FD_FILESTAT_GET, FD_FILESTAT_SET_SIZE, FD_READ,
    FD_SEEK, FD_TELL, FD_WRITE, PATH_CREATE_FILE, PATH_FILESTAT_GET, PATH_FILESTAT_SET_SIZE,
    PATH_OPEN, PATH_UNLINK_FILE, READ_RIGHTS, Right, RightsWord, WRITE_RIGHTS,
};
