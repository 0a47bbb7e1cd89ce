//! Reads a text as the script that it is, and else tells its first faulty line and why it is one.
#![tactic(auto)]

mod command;
mod fault;
pub mod laws;
mod line;
mod number;
mod parts;
mod reader;
mod setting;
mod table;
mod token;

pub use fault::{Cause, ReadEnd, ScriptFault};
pub use line::{Line, ReadLine};
pub use reader::{CheckedScript, Script, check_script, read_script};
pub use setting::{SETTINGS, Setting, SettingRow};
pub use table::{Kind, Row, TABLE, Word};
