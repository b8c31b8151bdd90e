// Prints every order of log.bin, read in the folder where it is run, first to last, a line each.
#![tactic(auto)]

ghost use Rattle.files.specs.Listed.{InPage};

use event::refusal::Refused;
use std::io;
use std::io::{Error, ErrorKind, Print};

fn main(rt: HostRuntime) {
    if 1 < arguments::arg_count(&rt) {
        files::print(&rt, b"orders", b"usage: orders\n");
        return;
    }
    let mut log = [0u8; page::SPACE];
    let n = files::read(&rt, b".", b"/log.bin", &mut log);
    if let Err(error) = all(&rt, &log[..n]) {
        files::fail(&rt, b"orders", error);
    }
}

// A line for what each call gives, and where that is an order the next call. After a line that could not be printed nothing is, and the error says why.
fn all(rt: &impl Print, log: &[u8]) -> io::Result<()> {
    let mut page = [0u8; page::ROOM];
    let begun = orders_text::begin(log, &mut page);
    print(rt, &page, begun.written)?;
    let mut given = begun.given;
    while let Ok(Some(row)) = given {
        given = orders_log::next(log, &row);
        let written = orders_text::write(orders_text::line_of(given), &mut page);
        print(rt, &page, written)?;
    }
    Ok(())
}

// Prints what was written at the start of the page.
fn print(rt: &impl Print, page: &[u8], written: Result<usize, Refused>) -> io::Result<()>
    requires { InPage written page.now }
{
    let n = written.map_err(|_| Error::from(ErrorKind::FileTooLarge))?;
    rt.write_all(&page[..n])
}
