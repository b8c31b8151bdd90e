// On a match writes replay.bin, a log that shows it; then prints the listing of pattern.bin and log.bin. All three are in the folder where
// it is run.
#![tactic(auto)]

use files::ProcessId;
use std::io::{Eprint, Print};
use std::rt::Files;

fn main(rt: HostRuntime) {
    if 1 < arguments::arg_count(&rt) {
        files::print(&rt, b"replay", b"usage: replay\n");
        return;
    }
    let mut pattern = [0u8; page::SPACE];
    let mut log = [0u8; page::SPACE];
    let sizes = files::read_both(&rt, b".", &mut pattern, &mut log);
    let p = sizes.pattern;
    let l = sizes.log;
    replay(&rt, &pattern[..p], &log[..l]);
}

// What is printed says that the file is there, so a file that can't be written leaves nothing to print.
fn replay<R: Files + ProcessId + Print + Eprint>(rt: &R, pattern: &[u8], log: &[u8]) {
    match files::save_replay(rt, pattern, log) {
        Ok(()) => print(rt, pattern, log),
        Err(error) => files::fail(rt, b"replay.bin", error),
    }
}

fn print<R: Print + Eprint>(rt: &R, pattern: &[u8], log: &[u8]) {
    let mut page = [0u8; page::ROOM];
    let written = listing_text::write(pattern, log, &mut page);
    files::print_written(rt, b"replay", &page, written);
}
