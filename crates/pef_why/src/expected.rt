//! What a line may be, by the tables of the grammar.

use crate::shown::shown;
use crate::text::{Found, split_token};
use pef_script::{Cause, Kind, Row, SETTINGS, Setting, SettingRow, TABLE};
use std::alloc::{AllocError, Global};

/// The names of all commands.
fn command_names(alloc: Global) -> Result<String, AllocError> {
    let mut text = String::from_str(alloc, "a CPU's number, and then one of these:")?;
    for row in &TABLE {
        text.push_str(" ")?;
        text.push_str(&shown(alloc, row.name)?)?;
    }
    Ok(text)
}

/// The names of all configuration lines.
fn setting_names(alloc: Global) -> Result<String, AllocError> {
    let mut text = String::from_str(alloc, "the lines before begin come in this order:")?;
    for row in &SETTINGS {
        text.push_str(" ")?;
        text.push_str(&shown(alloc, row.name)?)?;
    }
    text.push_str("; each at most once, but born and entropy; seal takes stream or vault")?;
    Ok(text)
}

/// An operand in words.
fn kind_text(kind: Kind) -> &'static str {
    match kind {
        Kind::Number => " a number",
        Kind::Register => " a register from r0 to r31",
        Kind::Pair => " a number, or two with | between them",
    }
}

/// What a configuration line takes.
fn operand_text(setting: Setting) -> &'static str {
    match setting {
        Setting::Shift => "a number from 8 to 16",
        Setting::Normal | Setting::Secure | Setting::Pages => "a number from 1 to 1024",
        Setting::Cpus | Setting::Guests => "a number from 1 to 16",
        Setting::Vcpus => "a number from 1 to 8",
        Setting::Seal => "stream or vault",
        Setting::Key => "64 hexadecimal digits",
        Setting::Born => "a guest's number up to that of guests, above the one before",
        Setting::Entropy => {
            "a guest's number up to that of guests, above the one before, and 1 to 64 numbers or pairs with | between two"
        }
    }
}

/// What a command takes.
fn command_takes(alloc: Global, row: &Row) -> Result<String, AllocError> {
    let mut text = shown(alloc, row.name)?;
    let most = row.kinds.len().saturating_add(row.more);
    text.push_str(&format!(in alloc; " takes {}", row.kinds.len())?)?;
    if row.more > 0 {
        text.push_str(&format!(in alloc; " to {most}")?)?;
    }
    text.push_str(" operands")?;
    for (place, kind) in row.kinds.iter().enumerate() {
        text.push_str(if place == 0 { ":" } else { "," })?;
        text.push_str(kind_text(*kind))?;
    }
    if row.more > 0 {
        text.push_str(", and more numbers")?;
    }
    Ok(text)
}

/// What a configuration line takes.
fn setting_takes(alloc: Global, row: &SettingRow) -> Result<String, AllocError> {
    let mut text = shown(alloc, row.name)?;
    text.push_str(" takes ")?;
    text.push_str(operand_text(row.setting))?;
    Ok(text)
}

/// What a command line may be.
fn expected_command(alloc: Global, line: &[u8], cause: Cause) -> Result<String, AllocError> {
    let (_, rest) = split_token(line);
    let (name, _) = split_token(rest);
    match TABLE.iter().find(|row| row.name == name) {
        Some(_) if cause == Cause::Range => String::from_str(
            alloc,
            "a CPU below the number of cpus",
        ),
        Some(row) => {
            let mut text = String::from_str(alloc, "a CPU's number, and then a command; ")?;
            text.push_str(&command_takes(alloc, row)?)?;
            Ok(text)
        }
        None => command_names(alloc),
    }
}

/// What a configuration line may be.
fn expected_setting(alloc: Global, line: &[u8], cause: Cause) -> Result<String, AllocError> {
    let (name, _) = split_token(line);
    match SETTINGS.iter().find(|row| row.name == name) {
        Some(row) if cause != Cause::Word => setting_takes(alloc, row),
        _ => setting_names(alloc),
    }
}

/// What may stand in the place of a faulty line.
pub fn expected(alloc: Global, found: &Found<'_>, cause: Cause) -> Result<String, AllocError> {
    match cause {
        Cause::Header => String::from_str(alloc, "pef 1"),
        Cause::NoBegin => String::from_str(alloc, "begin, and then the commands"),
        _ if found.begun => expected_command(alloc, found.line, cause),
        _ => expected_setting(alloc, found.line, cause),
    }
}
