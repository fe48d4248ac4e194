//! Texts in memory.

ghost use Rattle.std.specs.Prelude.{◌≡◌, ◌↔◌, IsTrue, IfOk, IfSome};
ghost use Rattle.lk_store.specs.Texts.{bytes_of, IsWithinRoom};

use crate::hashing::hash_bytes;
use lk_rows::row::Row;
use std::alloc::{AllocError, Global};
use std::marker::Model;

/// So many bytes are kept in place.
const SHORT: usize = 30;

/// The bytes of a text. Nearly every component of a name is short, and takes no memory of its own.
#[derive(Drop)]
pub(crate) enum TextBytes {
    Short { len: u8, room: [u8; SHORT] },
    Long(Vec<u8>),
}

/// The bytes in place, where they are few.
fn in_place(bytes: &[u8]) -> Option<TextBytes>
    ensures within { IfSome result IsWithinRoom }
    ensures bytes { IfSome result (λ text. bytes_of text ≡ bytes.now) }
{
    if bytes.len() > SHORT {
        return None;
    }
    let mut room = [0; SHORT];
    room[..bytes.len()].copy_from_slice(bytes);
    Some(TextBytes::Short {
        len: bytes.len() as u8,
        room,
    })
}

/// A text, as bytes.
#[derive(Drop)]
pub struct Text {
    bytes: TextBytes,
}

impl Model for Text {
    ghost use Rattle.std.specs.Prelude.{ℕ, List};

    ghost Value = { List ℕ };

    ghost use Rattle.lk_store.specs.Texts.{bytes_of, IsWithinRoom};

    ghost view = { λ t. bytes_of t.bytes };

    ghost invariant = { λ t. IsWithinRoom t.bytes };
}

impl Text {
    /// The text of these bytes. It takes them as they are, and asks for no memory.
    pub fn new(bytes: Vec<u8>) -> Text
        ensures { result ≡ bytes.items }
    {
        match in_place(&bytes) {
            Some(bytes) => Text { bytes },
            None => Text {
                bytes: TextBytes::Long(bytes),
            },
        }
    }

    /// A text of the same bytes. Few bytes ask for no memory.
    pub fn copy_of(alloc: Global, bytes: &[u8]) -> Result<Text, AllocError>
        ensures { IfOk result (λ t. t ≡ bytes.now) }
    {
        match in_place(bytes) {
            Some(bytes) => Ok(Text { bytes }),
            None => Ok(Text {
                bytes: TextBytes::Long(Vec::from_slice(alloc, bytes)?),
            }),
        }
    }

    /// The bytes of the text.
    pub fn as_bytes(&self) -> &[u8]
        ensures { result.now ≡ self.now }
    {
        match &self.bytes {
            TextBytes::Short { len, room } => &room[..*len as usize],
            TextBytes::Long(bytes) => bytes.as_slice(),
        }
    }

    /// Whether two texts are equal, byte for byte.
    pub fn is(&self, other: &Text) -> bool
        ensures { IsTrue result ↔ (self.now ≡ other.now) }
    {
        self.as_bytes() == other.as_bytes()
    }
}

impl Row for Text {
    type Key = Text;

    ghost key = { λ t. t };

    ghost use Rattle.lk_store.specs.Hashes.{hash_of_bytes};

    ghost hash = { hash_of_bytes };

    fn hash_of(seed: u64, wanted: &Text) -> u64 {
        hash_bytes(seed, wanted.as_bytes())
    }

    fn own_hash(&self, seed: u64) -> u64 {
        hash_bytes(seed, self.as_bytes())
    }

    fn has(&self, wanted: &Text) -> bool {
        self.is(wanted)
    }
}
