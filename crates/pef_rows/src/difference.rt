//! Where two texts begin to differ.

use std::alloc::{AllocError, Global};
use std::str;

/// A line as text.
fn line_text(line: Option<&[u8]>) -> &str {
    match line {
        None => "no line",
        Some(bytes) => str::from_utf8(bytes).unwrap_or("bytes that are no text"),
    }
}

/// The first line that differs, from 1, with what it is and what it was to be; nothing where the texts are equal.
pub fn first_difference(
    alloc: Global,
    wanted: &[u8],
    found: &[u8],
) -> Result<Option<String>, AllocError> {
    if wanted == found {
        return Ok(None);
    }
    let mut ours = found.split(|byte| *byte == b'\n');
    for (place, line) in wanted.split(|byte| *byte == b'\n').enumerate() {
        let other = ours.next();
        if other != Some(line) {
            let number = place.saturating_add(1);
            return Ok(Some(format!(in alloc;
                "line {number} is {:?}, wanted {:?}",
                line_text(other),
                line_text(Some(line))
            )?));
        }
    }
    Ok(Some(format!(in alloc; "goes on with {:?}", line_text(ours.next()))?))
}
