//! The limit on items, which no file of the table could reach.
ghost use Rattle.lk_token.specs.Lines.{HasNoLineFeed};

use lk_book::Reader;
use lk_lines::{Dialect, LineError};
use lk_store::base_store::BaseStore;
use lk_store::terms::Terms;
use lk_token::next_line;
use lk_units::Assembler;
use std::alloc::Global;
use std::io;

/// The fault of the first line of a file where so many items were taken before it, or `none`.
fn fault_behind<T: Terms>(alloc: Global, store: &mut T, items: u64, line: &[u8]) -> &'static str
    requires { HasNoLineFeed line.now }
{
    let Ok(mut assembler) = Assembler::new(alloc, store) else {
        return "no memory";
    };
    assembler.count = items;
    let mut reader = Reader {
        assembler,
        dialect: Dialect::Export,
        first: true,
        number: 0,
        before: 0,
    };
    match reader.take_line(alloc, store, true, line) {
        Ok(()) => "none",
        Err(LineError::Fault(fault)) => fault.word.text(),
        Err(LineError::NoMemory) => "no memory",
    }
}

/// Reads how many items were taken, and writes the fault of a line behind them.
pub fn write_items(rt: &impl Print, alloc: Global, items: &str, line: &[u8]) -> io::Result<()> {
    let (Ok(items), Ok(Some(end))) = (items.parse::<u64>(), next_line(line, true)) else {
        return println!(rt; "no number");
    };
    let mut store = BaseStore::new(alloc);
    let word = fault_behind(alloc, &mut store, items, &line[..end]);
    println!(rt; "{word}")
}
