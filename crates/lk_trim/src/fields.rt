//! Fields of a line.

ghost use Rattle.std.specs.Prelude.{◌≡◌, ◌++◌, [], ◌∷◌, ◌<◌, codes, decimal, OnOk};
ghost use Rattle.lk_trim.specs.Written.{fields};
ghost use Rattle.lk_trim.specs.Trees.{hex_digit, hex_fields, wide_fields};

use itoa::Buffer;
use lk_store::memory::NoMemory;

/// Appends a number.
pub fn add_number(out: &mut Vec<u8>, n: u64) -> Result<(), NoMemory>
    ensures { OnOk result (out.new.items ≡ out.old.items ++ decimal n) }
{
    let mut buffer = Buffer::new();
    out.extend_from_slice(buffer.format(n).as_bytes())?;
    Ok(())
}

/// Appends a number behind a space.
pub fn add_field(out: &mut Vec<u8>, n: u64) -> Result<(), NoMemory>
    ensures { OnOk result (out.new.items ≡ out.old.items ++ fields (n ∷ [])) }
{
    out.push(b' ')?;
    add_number(out, n)
}

/// Appends numbers, each behind a space.
pub fn add_fields(out: &mut Vec<u8>, ns: &[u64]) -> Result<(), NoMemory>
    ensures { OnOk result (out.new.items ≡ out.old.items ++ fields ns.now) }
{
    let mut rest = ns;
    while let Some((n, more)) = rest.split_first() {
        add_field(out, *n)?;
        rest = more;
    }
    Ok(())
}

/// Appends a tag, and numbers behind it.
pub fn add_row(out: &mut Vec<u8>, tag: &[u8], ns: &[u64]) -> Result<(), NoMemory>
    ensures { OnOk result (out.new.items ≡ out.old.items ++ (tag.now ++ fields ns.now)) }
{
    out.extend_from_slice(tag)?;
    add_fields(out, ns)
}

/// Appends what the line of a literal says behind its number.
pub(crate) fn add_literal(out: &mut Vec<u8>, n: u128) -> Result<(), NoMemory>
    ensures { OnOk result (out.new.items ≡ out.old.items ++ (codes " #ELN" ++ fields (n ∷ []))) }
{
    let mut buffer = Buffer::new();
    out.extend_from_slice(b" #ELN ")?;
    out.extend_from_slice(buffer.format(n).as_bytes())?;
    Ok(())
}

/// Appends what the line of a literal above 2^128 - 1 says behind its number.
pub(crate) fn add_wide(out: &mut Vec<u8>) -> Result<(), NoMemory>
    ensures { OnOk result (out.new.items ≡ out.old.items ++ wide_fields) }
{
    out.extend_from_slice(b" #ELN 340282366920938463463374607431768211456")?;
    Ok(())
}

/// The digit of a number below 16.
fn digit(d: u8) -> u8
    requires { d < 16 }
    ensures { result ≡ hex_digit d }
{
    if d < 10 { 48 + d } else { 87 + d }
}

/// Appends the two digits of a byte behind a space.
fn add_byte(out: &mut Vec<u8>, byte: u8) -> Result<(), NoMemory>
    ensures { OnOk result (out.new.items ≡ out.old.items ++ hex_fields (byte ∷ [])) }
{
    out.push(b' ')?;
    out.push(digit(byte / 16))?;
    out.push(digit(byte % 16))?;
    Ok(())
}

/// Appends the two digits of each byte behind a space.
fn add_bytes(out: &mut Vec<u8>, bytes: &[u8]) -> Result<(), NoMemory>
    ensures { OnOk result (out.new.items ≡ out.old.items ++ hex_fields bytes.now) }
{
    let mut rest = bytes;
    while let Some((byte, more)) = rest.split_first() {
        add_byte(out, *byte)?;
        rest = more;
    }
    Ok(())
}

/// Appends what the line of a text says behind its number.
pub(crate) fn add_text(out: &mut Vec<u8>, bytes: &[u8]) -> Result<(), NoMemory>
    ensures { OnOk result (out.new.items ≡ out.old.items
        ++ (codes " #ELS" ++ hex_fields bytes.now)) }
{
    out.extend_from_slice(b" #ELS")?;
    add_bytes(out, bytes)
}
