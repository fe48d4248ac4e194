//! What reading the texts of an input gives.
use lk_book::{ReadError, read_texts};
use lk_port::MemSource;
use std::alloc::Global;
use std::io;

/// Reads the texts of an input, and writes how many bytes each of them has, or the input's first
/// fault.
pub fn write_texts(rt: &impl Print, alloc: Global, input: &[u8]) -> io::Result<()> {
    let Ok(bytes) = Vec::from_slice(alloc, input) else {
        return println!(rt; "no memory");
    };
    let mut source = MemSource { bytes, at: 0 };
    match read_texts(alloc, &mut source) {
        Ok(texts) => {
            for text in &texts {
                let length = text.len();
                println!(rt; "text {length}")?;
            }
            Ok(())
        }
        Err(ReadError::Fault(fault)) => {
            println!(rt; "bad line {} {}", fault.line, fault.word.text())
        }
        Err(ReadError::ReadFault) => println!(rt; "read fault"),
        Err(ReadError::NoMemory) => println!(rt; "no memory"),
    }
}
