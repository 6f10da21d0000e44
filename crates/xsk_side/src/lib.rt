//! One program's side of AF_XDP sockets, as a recording has it: the setting, the program's calls with their replies, and in `specs/`
//! when such calls are possible, whatever kernel stood on the other side.
#![tactic(auto)]

mod call;
mod entries;
pub mod laws;
mod naming;
mod placement;
mod setting;

pub use call::{Answer, Call, Party};
pub use entries::Entries;
pub use placement::is_made;
pub use setting::{Pair, Rules, Setting, SettingError, Socket};
