//! The line of a number in a text, and whether `begin` stands before it.

/// A line, and where it stands.
#[derive(Drop)]
pub struct Found<'a> {
    /// Its bytes; none past the last line.
    pub line: &'a [u8],
    /// Whether `begin` stands before it.
    pub begun: bool,
}

/// The first token of a line, and what stands behind it; nothing where there is none.
pub fn split_token(line: &[u8]) -> (&[u8], &[u8]) {
    let rest = match line.iter().position(|byte| *byte != b' ') {
        Some(start) => &line[start..],
        None => &[],
    };
    match rest.iter().position(|byte| *byte == b' ') {
        Some(end) => (&rest[..end], &rest[end..]),
        None => (rest, &[]),
    }
}

/// Whether a line is `begin`.
fn is_begin(line: &[u8]) -> bool {
    let (name, rest) = split_token(line);
    name == b"begin".as_slice() && split_token(rest).0.is_empty()
}

/// The line of a number, counted from 1.
pub fn find_line(text: &[u8], number: u32) -> Found<'_> {
    let mut begun = false;
    let mut rest = text;
    for _ in 1..number {
        let end = rest.iter().position(|byte| *byte == b'\n');
        let Some(end) = end else {
            return Found { line: &[], begun };
        };
        begun = begun || is_begin(&rest[..end]);
        rest = &rest[end + 1..];
    }
    match rest.iter().position(|byte| *byte == b'\n') {
        Some(end) => Found {
            line: &rest[..end],
            begun,
        },
        None => Found { line: rest, begun },
    }
}
