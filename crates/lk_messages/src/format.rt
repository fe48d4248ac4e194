//! What an input that is no export of format 2 seems to be, by its first bytes.

use memchr::memchr;

/// Whether the first line ends with CR LF.
fn has_crlf(front: &[u8]) -> bool {
    match memchr(b'\n', front) {
        Some(at) => at > 0 && front[at - 1] == b'\r',
        None => false,
    }
}

/// What the input seems to be, where that can be told, and what to do about it.
pub fn seems(front: &[u8]) -> Option<&'static str> {
    if has_crlf(front) {
        return Some("the lines end with CR LF; take the CR away, as with: tr -d '\\r'");
    }
    match front {
        [b'{' | b'[', ..] => Some(
            "the input seems to be NDJSON, format 3 of lean4export; this program reads the text format 2",
        ),
        [0x1f, 0x8b, ..] => Some(
            "the input seems to be compressed by gzip; unpack it first, as with: gzip -dc",
        ),
        [0x28, 0xb5, 0x2f, 0xfd, ..] => Some(
            "the input seems to be compressed by zstd; unpack it first, as with: zstd -dc",
        ),
        [0xfd, b'7', b'z', b'X', b'Z', ..] => Some(
            "the input seems to be compressed by xz; unpack it first, as with: xz -dc",
        ),
        [b'P', b'K', 3, 4, ..] => Some("the input seems to be a zip file; unpack it first"),
        [b'o', b'l', b'e', b'a', b'n', ..] => Some(
            "the input seems to be an olean file; this program reads what lean4export writes of one",
        ),
        [0xff, 0xfe, ..] | [0xfe, 0xff, ..] => Some(
            "the input seems to be UTF-16; this program reads bytes as lean4export writes them",
        ),
        [0xef, 0xbb, 0xbf, ..] => Some("the input begins with a byte order mark; take it away"),
        [b'i', b'm', b'p', b'o', b'r', b't', b' ', ..] => Some(
            "the input seems to be a source file of Lean; this program reads what lean4export writes of its library",
        ),
        _ => None,
    }
}
