//! The fields of a line, with spaces between them.
ghost use Rattle.std.specs.Prelude.{◌≡◌, [], ◌∷◌, IfSome, IfNone, slice_get};
ghost use Rattle.rb_evidence.specs.Table.{IsCutAt, IsWithout, fields_of, is_field, borrowed};

/// What stands before the first such byte, and what stands after it.
pub fn around(text: &[u8], at: u8) -> Option<(&[u8], &[u8])>
    ensures some { IfSome result (λ found. IsCutAt at found.0.now found.1.now text.now) }
    ensures none { IfNone result (IsWithout at text.now) }
{
    let end = text.iter().position(|byte| *byte == at)?;
    Some((&text[..end], &text[end + 1..]))
}

/// The first field, and what stands after it.
fn first_field(text: &[u8]) -> Option<(&[u8], &[u8])>
    ensures some { IfSome result (λ found. fields_of text.now ≡ found.0.now ∷ fields_of found.1.now) }
    ensures none { IfNone result (fields_of text.now ≡ []) }
{
    let mut rest = text;
    while let Some((front, back)) = around(rest, b' ') {
        if !front.is_empty() {
            return Some((front, back));
        }
        rest = back;
    }
    if rest.is_empty() {
        return None;
    }
    Some((rest, &[]))
}

/// The field at a place, from 0.
pub(crate) fn field_at(line: &[u8], place: usize) -> Option<&[u8]>
    ensures { borrowed result ≡ slice_get (fields_of line.now) place }
{
    let mut rest = line;
    let mut before = place;
    while before > 0 {
        let (_, behind) = first_field(rest)?;
        rest = behind;
        before -= 1;
    }
    let (field, _) = first_field(rest)?;
    Some(field)
}

/// Whether the field at a place has this text.
pub(crate) fn is_field(line: &[u8], place: usize, text: &[u8]) -> bool
    ensures { result ≡ is_field place text.now line.now }
{
    match field_at(line, place) {
        Some(field) => field == text,
        None => false,
    }
}
