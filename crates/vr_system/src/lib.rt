//! The outside as the system has it: the folder in which the program runs, standard output, and connections over TCP.
#![tactic(auto)]

mod disk;
mod tcp;

pub use disk::{DiskFolder, StdSink};
pub use tcp::{TcpDoor, TcpLink};
