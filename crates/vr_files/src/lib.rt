//! The files of a runtime: a map from paths to bodies that are lists of shared pages.
#![tactic(auto)]

mod body;
mod changes;
mod edits;
mod entries;
mod faults;
mod files;
mod kept;
mod overlay;
mod paged;
mod pages;

pub use body::FileBody;
pub use changes::Changes;
pub use edits::Edits;
pub use faults::FileFault;
pub use files::Files;
pub use overlay::Overlay;
pub use pages::{MOST_BYTES, PAGE, Page};
