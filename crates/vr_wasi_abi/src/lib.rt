//! How WASI preview 1 lays values out in linear memory: vectors that are read, results that are
//! written.
#![tactic(auto)]

mod fault;
mod iovecs;
mod results;

pub use fault::AbiFault;
pub use iovecs::{IOVEC_SIZE, Iovec, Iovecs, MAX_IOVECS, read_iovecs};
pub use results::{
    FDSTAT_SIZE, FILESTAT_SIZE, FdStat, PRESTAT_SIZE, put_fdstat, put_filestat, put_prestat,
    put_u32, put_u64,
};
