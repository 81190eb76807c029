//! Pieces of a text, and numbers.

ghost use Rattle.std.specs.Prelude.{◌≡◌, ◌==◌, [], ◌∷◌, IfOk, MatchOption, vec_items};
ghost use Rattle.std.specs.Option.{option_map};
ghost use Rattle.texts.specs.Lines.{body_of};
ghost use Rattle.texts.specs.Fields.{pieces, numeral, numbers_of};

use cells::limits::TEXT_MAX;
use std::alloc::{AllocError, Global};

/// Ends a line.
const NEWLINE: u8 = b'\n';
/// Parts the fields of a line.
const TAB: u8 = b'\t';

/// Whether a byte ends a line.
pub(crate) fn ends_line(byte: &u8) -> bool
    ensures { result ≡ (byte.now == 10) }
{
    *byte == NEWLINE
}

/// The lines of a text, without the last newline; none where the text is above 32,768 bytes or
/// its last byte is no newline.
pub(crate) fn body(text: &[u8]) -> Option<&[u8]>
    ensures { option_map (λ x. x.now) result ≡ body_of text.now }
{
    match text {
        [lines @ .., NEWLINE] if text.len() <= TEXT_MAX => Some(lines),
        _ => None,
    }
}

/// The first field of a line, and what stands behind its tab; none where the line has no tab.
pub(crate) fn cut(line: &[u8]) -> Option<(&[u8], &[u8])>
    ensures { MatchOption result (pieces 9 line.now ≡ line.now ∷ []) (λ c. pieces 9 line.now ≡ c.0.now ∷ pieces 9 c.1.now) }
{
    let at = line.iter().position(|b| *b == TAB)?;
    Some((&line[..at], &line[at + 1..]))
}

/// The number that a field writes, if it writes one: at most ten digits, no sign, and no zero in
/// front unless it stands alone.
pub(crate) fn number(field: &[u8]) -> Option<u64>
    ensures { result ≡ numeral field.now }
{
    if field.is_empty() || field.len() > 10 {
        return None;
    }
    if field[0] == b'0' && field.len() > 1 {
        return None;
    }
    // no `from_utf8` and `parse`: a trace was read in 1.7 times the time
    let mut n: u64 = 0;
    for x in field {
        let digit = *x;
        if digit < b'0' || digit > b'9' {
            return None;
        }
        n = n * 10 + u64::from(digit - b'0');
    }
    Some(n)
}

/// The numbers that fields write, one tab between each two, where each field writes one.
pub(crate) fn numbers(heap: Global, fields: &[u8]) -> Result<Option<Vec<u64>>, AllocError>
    ensures { IfOk result (λ v. option_map vec_items v ≡ numbers_of (pieces 9 fields.now)) }
{
    let mut all = Vec::new(heap);
    for field in fields.split(|b| *b == TAB) {
        let Some(n) = number(field) else {
            return Ok(None);
        };
        all.push(n)?;
    }
    Ok(Some(all))
}
