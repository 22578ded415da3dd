//! Scripts of SMT-LIB as goals.
#![tactic(auto)]

mod assertion;
mod command;
mod declare;
mod define;
mod info;
mod meaning;
mod obey;
mod script;
mod session;
mod setting;

// What a script asks.
pub use meaning::{meanings_of_faults, meanings_of_scripts};

// The commands and their order.
pub use command::{Command, command_named, is_in_order, may_follow, needs_logic};

// Infos, options and logics.
pub use setting::{is_keyword, is_offered, logic_named};

// What a script asks.
pub use script::{Script, read_script};
