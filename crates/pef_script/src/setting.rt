//! A configuration line is read by the table, and else its fault is told.

ghost use Rattle.std.specs.Prelude.{◌≡◌, ◌≤◌, IfOk, OnOk, option_map, drop, List, ℕ};
ghost use Rattle.std.specs.List.{find};
ghost use Rattle.std.specs.Str.{bytes_eq};
ghost use Rattle.pef_script.specs.Token.{tokens_of};
ghost use Rattle.pef_script.specs.Setting.{form, form_in, setting_from, setting_in, size_in, rises, born_set, seal_set, seal_known, vault_in, key_set, key_in, words_in, entropy_set, last_guest, all_pairs, Gives};

use crate::fault::{Cause, LineEnd};
use crate::number::parse_number;
use crate::token::{count_tokens, next_token, parse_pair};
use pef_model::{Config, EntropyWord, EntropyWords};

/// The lines between a script's first line and `begin`.
#[derive(Clone, Copy, Debug, PartialEq, Eq)]
pub enum Setting {
    Shift,
    Normal,
    Secure,
    Cpus,
    Guests,
    Vcpus,
    Pages,
    Seal,
    Key,
    Born,
    Entropy,
}

/// A configuration line: its name, the fewest and the most operands that it has, and the place of the first line that may come
/// behind it. The place of a line is its number in the table, from 0.
#[derive(Clone, Copy)]
pub struct SettingRow {
    pub name: &'static [u8],
    pub few: usize,
    pub many: usize,
    pub next: usize,
    pub setting: Setting,
}

macro_rules! row {
    ($name:literal, $few:literal, $many:literal, $next:literal, $setting:ident) => {
        SettingRow {
            name: $name,
            few: $few,
            many: $many,
            next: $next,
            setting: Setting::$setting,
        }
    };
}

/// The configuration lines, in their order. `born` and `entropy` may come again.
pub static SETTINGS: [SettingRow; 11] = [
    row!(b"shift", 1, 1, 1, Shift),
    row!(b"normal", 1, 1, 2, Normal),
    row!(b"secure", 1, 1, 3, Secure),
    row!(b"cpus", 1, 1, 4, Cpus),
    row!(b"guests", 1, 1, 5, Guests),
    row!(b"vcpus", 1, 1, 6, Vcpus),
    row!(b"pages", 1, 1, 7, Pages),
    row!(b"seal", 1, 1, 8, Seal),
    row!(b"key", 1, 1, 9, Key),
    row!(b"born", 1, 1, 9, Born),
    row!(b"entropy", 2, 65, 10, Entropy),
];

/// The first row of a name, from a place on.
fn setting_row_in(
    table: &'static [SettingRow],
    place: usize,
    name: &[u8],
) -> Option<&'static SettingRow>
    ensures { option_map (λ row. row.now) result ≡ find (λ row. bytes_eq row.name.now name.now) (drop place table.now) }
{
    table.iter().skip(place).find(|row| row.name == name)
}

/// The row of a name, from a place on.
fn setting_row(place: usize, name: &[u8]) -> Option<&'static SettingRow>
    ensures { option_map (λ row. form_in row.now) result ≡ option_map form (setting_from place name.now) }
{
    setting_row_in(&SETTINGS, place, name)
}

/// A number from a least one to a most one, or its fault.
#[tactic(auto, unfolding(crate::specs::Setting::size_in))]
fn read_size(text: &[u8], least: u32, most: u32) -> Result<u32, Cause>
    ensures size { result ≡ size_in least most (tokens_of text.now) }
    ensures most { IfOk result (λ n. n ≤ most) }
{
    let Some((token, _)) = next_token(text) else {
        return Err(Cause::Number);
    };
    let Some(number) = parse_number(token) else {
        return Err(Cause::Number);
    };
    if number < u64::from(least) || u64::from(most) < number {
        return Err(Cause::Range);
    }
    Ok(number as u32)
}

/// The configuration with one more guest that is secure from the start.
#[tactic(auto, unfolding(crate::specs::Setting::born_set))]
fn with_born(mut config: Config, text: &[u8]) -> Result<Config, LineEnd>
    ensures { Gives (λ c. c) result (born_set config (tokens_of text.now)) }
{
    let lpid = read_size(text, 1, u32::from(config.guests))? as u16;
    let last = config.born.as_slice().last().copied().unwrap_or(0);
    if lpid <= last {
        return Err(LineEnd::Fault(Cause::Range));
    }
    config.born.push(lpid)?;
    Ok(config)
}

/// Whether a seal is the vault; None where the word is no seal.
fn parse_seal(word: &[u8]) -> Option<bool>
    ensures { result ≡ vault_in word.now }
{
    if word == b"vault".as_slice() {
        Some(true)
    } else if word == b"stream".as_slice() {
        Some(false)
    } else {
        None
    }
}

/// Whether a seal's first operand, if there is one, is a seal.
fn knows_seal(text: &[u8]) -> bool
    ensures { result ≡ seal_known (tokens_of text.now) }
{
    match next_token(text) {
        Some((word, _)) => parse_seal(word).is_some(),
        None => true,
    }
}

/// Whether a line's operands are of its words, where it has such.
fn knows(setting: Setting, text: &[u8]) -> bool
    ensures { result ≡ (form setting).knows (tokens_of text.now) }
{
    match setting {
        Setting::Seal => knows_seal(text),
        _ => true,
    }
}

/// The configuration with a seal.
fn with_seal(mut config: Config, text: &[u8]) -> Result<Config, LineEnd>
    ensures { Gives (λ c. c) result (seal_set config (tokens_of text.now)) }
{
    let Some((word, _)) = next_token(text) else {
        return Err(LineEnd::Fault(Cause::Word));
    };
    let Some(vault) = parse_seal(word) else {
        return Err(LineEnd::Fault(Cause::Word));
    };
    config.vault = vault;
    Ok(config)
}

/// The 32 bytes of 64 hexadecimal digits; None where the token is none.
fn parse_key(token: &[u8]) -> Option<[u8; 32]>
    ensures { result ≡ key_in token.now }
{
    let mut key = [0; 32];
    match hex::decode_to_slice(token, &mut key) {
        Ok(()) => Some(key),
        Err(_) => None,
    }
}

/// The configuration with a key.
#[tactic(auto, unfolding(crate::specs::Setting::key_set))]
fn with_key(mut config: Config, text: &[u8]) -> Result<Config, LineEnd>
    ensures { Gives (λ c. c) result (key_set config (tokens_of text.now)) }
{
    let Some((token, _)) = next_token(text) else {
        return Err(LineEnd::Fault(Cause::Number));
    };
    let Some(key) = parse_key(token) else {
        return Err(LineEnd::Fault(Cause::Number));
    };
    config.key = key;
    Ok(config)
}

/// Whether all tokens are pairs.
fn are_pairs(text: &[u8]) -> bool
    ensures { result ≡ all_pairs (tokens_of text.now) }
{
    let mut rest = text;
    while let Some((token, more)) = next_token(rest) {
        if parse_pair(token).is_none() {
            return false;
        }
        rest = more;
    }
    true
}

/// Adds a guest's words at the end.
fn read_words(words: &mut EntropyWords, lpid: u16, text: &[u8]) -> Result<(), LineEnd>
    ensures { Gives (λ u. words.new) result (words_in words.old lpid (tokens_of text.now)) }
{
    let mut rest = text;
    while let Some((token, more)) = next_token(rest) {
        let Some(pair) = parse_pair(token) else {
            return Err(LineEnd::Fault(Cause::Number));
        };
        words.push(EntropyWord {
            lpid,
            left: pair.left,
            right: pair.right,
        })?;
        rest = more;
    }
    Ok(())
}

/// The guest of the last word; 0 where there is none.
fn last_guest(words: &[EntropyWord]) -> u16
    ensures { result ≡ last_guest words.now }
{
    match words.last() {
        Some(word) => word.lpid,
        None => 0,
    }
}

/// The configuration with a guest's words.
#[tactic(auto, unfolding(crate::specs::Setting::entropy_set))]
fn with_entropy(mut config: Config, text: &[u8]) -> Result<Config, LineEnd>
    ensures { Gives (λ c. c) result (entropy_set config (tokens_of text.now)) }
{
    let Some((token, rest)) = next_token(text) else {
        return Err(LineEnd::Fault(Cause::Number));
    };
    let Some(number) = parse_number(token) else {
        return Err(LineEnd::Fault(Cause::Number));
    };
    if !are_pairs(rest) {
        return Err(LineEnd::Fault(Cause::Number));
    }
    if number < 1 || u64::from(config.guests) < number {
        return Err(LineEnd::Fault(Cause::Range));
    }
    let lpid = number as u16;
    if lpid <= last_guest(config.entropy.as_slice()) {
        return Err(LineEnd::Fault(Cause::Range));
    }
    read_words(&mut config.entropy, lpid, rest)?;
    Ok(config)
}

/// The configuration with what a line's operands set.
fn with_setting(mut config: Config, setting: Setting, text: &[u8]) -> Result<Config, LineEnd>
    ensures { Gives (λ c. c) result ((form setting).set config (tokens_of text.now)) }
{
    match setting {
        Setting::Shift => {
            config.shift = read_size(text, 8, 16)? as u8;
            Ok(config)
        }
        Setting::Normal => {
            config.normal = read_size(text, 1, 1024)?;
            Ok(config)
        }
        Setting::Secure => {
            config.secure = read_size(text, 1, 1024)?;
            Ok(config)
        }
        Setting::Cpus => {
            config.cpus = read_size(text, 1, 16)? as u8;
            Ok(config)
        }
        Setting::Guests => {
            config.guests = read_size(text, 1, 16)? as u16;
            Ok(config)
        }
        Setting::Vcpus => {
            config.vcpus = read_size(text, 1, 8)? as u8;
            Ok(config)
        }
        Setting::Pages => {
            config.pages = read_size(text, 1, 1024)?;
            Ok(config)
        }
        Setting::Seal => with_seal(config, text),
        Setting::Key => with_key(config, text),
        Setting::Born => with_born(config, text),
        Setting::Entropy => with_entropy(config, text),
    }
}

/// The configuration with what a line sets, and the place of the first line that may come behind it.
#[tactic(auto, unfolding(crate::specs::Setting::setting_in))]
pub fn read_setting(place: usize, config: Config, text: &[u8]) -> Result<Header, LineEnd>
    ensures { Gives (λ h. h) result (setting_in place config (tokens_of text.now)) }
{
    let Some((name, rest)) = next_token(text) else {
        return Err(LineEnd::Fault(Cause::Word));
    };
    let Some(row) = setting_row(place, name) else {
        return Err(LineEnd::Fault(Cause::Word));
    };
    if !knows(row.setting, rest) {
        return Err(LineEnd::Fault(Cause::Word));
    }
    let count = count_tokens(rest);
    if count < row.few || row.many < count {
        return Err(LineEnd::Fault(Cause::Count));
    }
    let config = with_setting(config, row.setting, rest)?;
    Ok(Header {
        config,
        place: row.next,
    })
}

/// A configuration, and the place of the first line that may come next.
#[derive(Drop)]
pub struct Header {
    pub config: Config,
    pub place: usize,
}
