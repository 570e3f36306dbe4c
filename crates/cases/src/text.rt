// text.rt - the pieces of a line, and the numbers that they spell.
// Means: nothing; proved safe.
// Uses: nothing.  Source: [ours], crates/vectors/README.md.
ghost use Rattle.std.specs.Prelude.{◌≤◌};

// How many bytes of text are the mark.
pub fn marks(text: &[u8], mark: u8) -> usize {
    text.iter().filter(|b| **b == mark).count()
}

// Piece k of text, counted from 0, where marks part the pieces; nothing if there are fewer.
pub fn piece(text: &[u8], mark: u8, k: usize) -> &[u8] {
    text.split(|b| *b == mark).nth(k).unwrap_or_default()
}

// Text before and after its mark, if it has just one.
pub(crate) fn halves(text: &[u8], mark: u8) -> Option<(&[u8], &[u8])> {
    let mut pieces = text.split(|b| *b == mark);
    let before = pieces.next()?;
    let after = pieces.next()?;
    pieces.next().is_none().then_some((before, after))
}

// Text before its first mark, and after it, if it has one.
pub(crate) fn parted(text: &[u8], mark: u8) -> (&[u8], Option<&[u8]>) {
    match text.iter().position(|b| *b == mark) {
        Some(i) => (&text[..i], Some(&text[i + 1..])),
        None => (text, None),
    }
}

// Field k of a line, counted from 0: one space parts the fields.
pub fn field(text: &[u8], k: usize) -> &[u8] {
    piece(text, b' ', k)
}

// The number that text spells with one to eight digits.
fn spelled(text: &[u8], base: u32) -> Option<u32>
    requires low { 2 ≤ base }
    requires high { base ≤ 36 }
{
    if text.is_empty() || 8 < text.len() {
        return None;
    }
    let mut n: u32 = 0;
    for c in text {
        let digit = (*c as char).to_digit(base)?;
        n = n.checked_mul(base)?.checked_add(digit)?;
    }
    Some(n)
}

// The number that text spells in base 16 with one to eight digits.
pub fn number(text: &[u8]) -> Option<u32> {
    spelled(text, 16)
}

// The number that text spells in base 10 with one to eight digits.
pub fn decimal(text: &[u8]) -> Option<u32> {
    spelled(text, 10)
}

// The number of a slot that text spells in base 10: with one digit, or two of which the first is 1.
pub fn slot_number(text: &[u8]) -> Option<usize> {
    match text {
        [_] | [b'1', _] => Some(decimal(text)? as usize),
        _ => None,
    }
}

// The byte that two digits spell.
pub(crate) fn byte_of(digits: &[u8; 2]) -> Option<u8> {
    let high = (digits[0] as char).to_digit(16)?;
    let low = (digits[1] as char).to_digit(16)?;
    Some((high * 16 + low) as u8)
}
