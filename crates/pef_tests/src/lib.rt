//! How a top call ends where a device fails, its words are wrong or a text is past a limit. Scripts and their reports are run by
//! `pef_rows`.
#![tactic(auto)]

#[cfg(test)]
mod top;
