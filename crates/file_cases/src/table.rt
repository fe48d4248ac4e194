//! The table of cases, as it is written in `stdin`.
ghost use Rattle.std.specs.Prelude.{◌<◌};

use std::alloc::AllocError;

/// What is done with the lines of a case.
#[derive(Clone, Copy)]
pub enum Case {
    /// They are a file, which is read.
    File,
    /// `spaces N`: they are a file whose first line has N more spaces in front.
    Spaces(usize),
    /// `texts`: they are an input of texts, which is read.
    Texts,
    /// `lines`: each is a line of a file, and what it tells is written as the format writes it.
    Lines,
    /// `limits`: each is a place and a length in bytes, which may be beyond a limit.
    Limits,
    /// `items`: each is a number of items, and a line of a file, behind so many.
    Items,
}

/// The case that a line of the table begins, by what stands behind its `%%`.
pub fn case_of(head: &str) -> Case {
    match head {
        " texts" => Case::Texts,
        " lines" => Case::Lines,
        " limits" => Case::Limits,
        " items" => Case::Items,
        _ => match head.strip_prefix(" spaces ") {
            Some(count) => Case::Spaces(count.parse::<usize>().unwrap_or(0)),
            None => Case::File,
        },
    }
}

/// The number of a hexadecimal digit, where a capital letter is one.
fn digit(byte: u8) -> u8
    ensures { result < 16 }
{
    match byte {
        b'0'..=b'9' => byte - b'0',
        b'A'..=b'F' => byte - b'A' + 10,
        _ => 0,
    }
}

/// Adds a line of the table to a text: its bytes, where `\xHH` is the byte of these two hexadecimal
/// digits.
pub fn add_line(text: &mut Vec<u8>, line: &[u8]) -> Result<(), AllocError> {
    let mut rest = line;
    while let [byte, more @ ..] = rest {
        match rest {
            [b'\\', b'x', high, low, behind @ ..] => {
                text.push(digit(*high) * 16 + digit(*low))?;
                rest = behind;
            }
            _ => {
                text.push(*byte)?;
                rest = more;
            }
        }
    }
    text.push(b'\n')?;
    Ok(())
}
