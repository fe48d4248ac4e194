ghost use Rattle.std.specs.Prelude.{◌≡◌, ◌==◌, ◌≤◌, ◌∷◌, [], IfOk, IfSome, MatchOption, map, drop, length};
ghost use Rattle.std.specs.List.{position_or_len};
ghost use Rattle.lk_token.specs.Fields.{fields_of, BeginsWith, skip_spaces, skip_field, text_behind};

use std::alloc::{AllocError, Global};

// The bytes from the first one on that is no space.
fn skip_spaces(bytes: &[u8]) -> &[u8]
    ensures { result.now ≡ skip_spaces bytes.now }
{
    let mut rest = bytes;
    while let [b' ', more @ ..] = rest {
        rest = more;
    }
    rest
}

// How many bytes stand before the first space, or before the end.
fn field_len(bytes: &[u8]) -> usize
    ensures value { result ≡ position_or_len (λ b. b == 32) bytes.now }
    ensures bound { result ≤ length bytes.now }
{
    let mut len = 0;
    while len < bytes.len() {
        if bytes[len] == b' ' {
            return len;
        }
        len += 1;
    }
    len
}

/// The first field of a line, and what stands behind it.
///
/// Fields are separated by runs of spaces; spaces before the first and behind the last one do not
/// count. None where nothing but spaces is left.
#[tactic(auto, using(crate::proofs::FieldLaws::field_first, crate::proofs::FieldLaws::no_field))]
pub fn next_field(bytes: &[u8]) -> Option<(&[u8], &[u8])>
    ensures { MatchOption result
        (fields_of bytes.now ≡ []) (λ r. fields_of bytes.now ≡ r.0.now ∷ fields_of r.1.now) }
{
    let front = skip_spaces(bytes);
    let len = field_len(front);
    if len == 0 {
        None
    } else {
        Some(front.split_at(len))
    }
}

/// The first field and what stands behind it, where the field has three bytes, with one space in
/// front and one behind: so stand most tags. None tells nothing.
#[inline(always)]
#[tactic(auto, using(crate::proofs::FieldLaws::short_lem))]
pub fn short_field(line: &[u8]) -> Option<(&[u8], &[u8])>
    ensures { IfSome result (λ r. fields_of line.now ≡ r.0.now ∷ fields_of r.1.now) }
{
    match line {
        [b' ', one, two, three, b' ', ..] => {
            if *one == b' ' || *two == b' ' || *three == b' ' {
                return None;
            }
            let (_, front) = line.split_at(1);
            Some(front.split_at(3))
        }
        _ => None,
    }
}

/// The byte that the first field begins with. None where nothing but spaces is left.
pub fn first_byte(bytes: &[u8]) -> Option<u8>
    ensures { MatchOption result
        (fields_of bytes.now ≡ []) (λ b. BeginsWith b (fields_of bytes.now)) }
{
    match skip_spaces(bytes) {
        [] => None,
        [byte, ..] => Some(*byte),
    }
}

/// All fields of a line, in a list of their own.
#[tactic(auto, unfolding(crate::specs::Fields::fields_of))]
pub fn fields(alloc: Global, line: &[u8]) -> Result<Vec<&[u8]>, AllocError>
    ensures { IfOk result (λ v. map (λ f. f.now) v.items ≡ fields_of line.now) }
{
    line.split(|b| *b == b' ')
        .filter(|field| !field.is_empty())
        .collect(alloc)
}

// The bytes from the first space on.
fn skip_field(bytes: &[u8]) -> &[u8]
    ensures { result.now ≡ skip_field bytes.now }
{
    let (_, rest) = bytes.split_at(field_len(bytes));
    rest
}

/// The raw text that ends a line of three fields, as the text of a name: all bytes behind the one
/// space that follows the third field. It is empty where the line ends there, and may hold and end
/// with spaces.
#[inline(always)]
#[tactic(auto, unfolding(crate::specs::Fields::text_behind))]
pub fn text_behind(line: &[u8]) -> &[u8]
    ensures { result.now ≡ text_behind line.now }
{
    let one = skip_field(skip_spaces(line));
    let two = skip_field(skip_spaces(one));
    match skip_field(skip_spaces(two)) {
        [] => &[],
        [_, rest @ ..] => rest,
    }
}
