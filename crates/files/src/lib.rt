// Files by their names, for the programs: a folder's two files read and listed, or why they have no match; an order query of its log; a text printed; a file
// written whole; a replay and a load saved.
// What the system reads and writes is assumed and not proved.
#![tactic(auto)]

ghost use Rattle.std.specs.Prelude.{◌≤◌, ◌≡◌, None, IsErr, length};
ghost use Rattle.io.specs.Counts.{IsPrefixLen};
ghost use Rattle.listing_text.specs.Listing.{Listing};
ghost use Rattle.reason_text.specs.ReasonText.{ReasonText};
ghost use Rattle.load_text.specs.LoadText.{LogWithin};
ghost use Rattle.files.specs.Listed.{SomeText, SomeOrder, InPage};
ghost use Rattle.files.specs.Paths.{Appended, SpareName};

use event::refusal::Refused;
use std::fs::{File, OpenFile};
use std::io::{Eprint, Error, ErrorKind, Print, Read, Write};
use std::rt::Files;
use std::{fs, process, str};

// How many bytes of a folder's two files were read.
#[derive(Clone, Copy)]
pub struct Sizes {
    pub pattern: usize,
    pub log: usize,
}

// What knows the number of its process.
pub trait ProcessId {
    fn process_id(&self) -> u32;
}

impl ProcessId for HostRuntime {
    fn process_id(&self) -> u32 {
        process::id(self.process())
    }
}

// Writes the listing of a folder's pattern.bin and log.bin at the start of a lent buffer.
pub fn list(rt: &impl Files, folder: &[u8], buffer: &mut [u8]) -> Result<usize, Refused>
    ensures { SomeText Listing buffer.old buffer.new result }
{
    let mut pattern = [0u8; page::SPACE];
    let mut log = [0u8; page::SPACE];
    let sizes = read_both(rt, folder, &mut pattern, &mut log);
    listing_text::write(&pattern[..sizes.pattern], &log[..sizes.log], buffer)
}

// Writes what the program `reason` prints for a folder's pattern.bin and log.bin at the start of a lent buffer.
// Kept: a second function beside `list`, since the contract of a closure that writes into the buffer would be longer than the lines that the two share.
pub fn reason(rt: &impl Files, folder: &[u8], buffer: &mut [u8]) -> Result<usize, Refused>
    ensures { SomeText ReasonText buffer.old buffer.new result }
{
    let mut pattern = [0u8; page::SPACE];
    let mut log = [0u8; page::SPACE];
    let sizes = read_both(rt, folder, &mut pattern, &mut log);
    reason_text::write(&pattern[..sizes.pattern], &log[..sizes.log], buffer)
}

// Writes what the program `order` prints for a folder's log.bin and its arguments at the start of a lent buffer. Without two numbers no file is read.
pub fn order(
    rt: &impl Files,
    folder: &[u8],
    pair: Option<(u64, u64)>,
    buffer: &mut [u8],
) -> Result<usize, Refused>
    ensures { SomeOrder pair buffer.old buffer.new result }
{
    if pair.is_none() {
        return order_text::write(b"", pair, buffer);
    }
    let mut log = [0u8; page::SPACE];
    let l = read(rt, folder, b"/log.bin", &mut log);
    order_text::write(&log[..l], pair, buffer)
}

// Reads a folder's pattern.bin and log.bin, each into its own space.
pub fn read_both(rt: &impl Files, folder: &[u8], pattern: &mut [u8], log: &mut [u8]) -> Sizes
    ensures { IsPrefixLen result.pattern pattern.new × IsPrefixLen result.log log.new }
{
    Sizes {
        pattern: read(rt, folder, b"/pattern.bin", pattern),
        log: read(rt, folder, b"/log.bin", log),
    }
}

// Reads a folder's file to its end, or until the space is full, and answers how many bytes it put at the start of the space.
// The name starts with a slash. A file that can't be opened or read has none.
pub fn read(rt: &impl Files, folder: &[u8], name: &[u8], space: &mut [u8]) -> usize
    ensures { IsPrefixLen result space.new }
{
    let file = open(rt, folder, name);
    read_opened(file, space)
}

// Opens a folder's file for reading; none where it can't be opened. The name starts with a slash. No contract can say what the system opens.
pub fn open<R: Files>(rt: &R, folder: &[u8], name: &[u8]) -> Option<R::File> {
    let mut path = io::buffer();
    let start = append(&mut path, 0, folder);
    let end = append(&mut path, start, name);
    let path = text(&path[..end]).ok()?;
    fs::open(rt, path).ok()
}

// Reads a file to its end, or until the space is full, and closes it; one that was not opened has no bytes.
pub fn read_opened<F: Read + Drop>(file: Option<F>, space: &mut [u8]) -> usize
    ensures { IsPrefixLen result space.new × (file ≡ None → result ≡ 0) }
{
    let Some(mut file) = file else {
        return 0;
    };
    read_full(&mut file, space)
}

// Reads until the space is full, the file ends or a read fails, and answers how many bytes it put at the start of the space. A full space is not read into.
fn read_full(file: &mut impl Read, space: &mut [u8]) -> usize
    ensures { IsPrefixLen result space.new }
{
    let mut done = 0;
    while done < space.len() {
        let Ok(n @ 1..) = file.read(&mut space[done..]) else {
            break;
        };
        done += n;
    }
    done
}

// Writes replay.bin, the log that shows the match, where there is one. What is too long is not judged. Where it fails, replay.bin is what it was.
pub fn save_replay<R: Files + ProcessId>(
    rt: &R,
    pattern: &[u8],
    log: &[u8],
) -> std::io::Result<()> {
    if page::LONGEST < pattern.len() || page::LONGEST < log.len() {
        return Ok(());
    }
    let mut buffer = [0u8; page::SPACE];
    match replay_log::write(pattern, log, &mut buffer) {
        Ok(replayed) if replayed.verdict.found.is_some() => {
            save(rt, b"replay.bin", &buffer[..replayed.length])
        }
        _ => Ok(()),
    }
}

// Writes load.bin, where a load was made at the start of the space. Where none was made no file is touched; where it fails, load.bin is what it was.
pub fn save_load<R: Files + ProcessId, E: Copy>(
    rt: &R,
    made: Result<usize, E>,
    space: &[u8],
) -> std::io::Result<()>
    requires { LogWithin made space.now }
{
    match made {
        Ok(size) => save(rt, b"load.bin", &space[..size]),
        Err(_) => Ok(()),
    }
}

// Makes the file of this name anew, or replaces it whole. Where it fails, what had the name still has it, and the error says why.
// The bytes go into a spare file beside it, which takes the name once it has all of them, and else is removed.
pub fn save<R: Files + ProcessId>(rt: &R, name: &[u8], bytes: &[u8]) -> std::io::Result<()> {
    let mut path = io::buffer();
    let size = spare_name(name, u64::from(rt.process_id()), &mut path);
    let spare = text(&path[..size])?;
    let name = text(name)?;
    let made = File::create_new(rt, spare);
    save_made(rt, made, spare, name, bytes)
}

// As `save`, by a spare file that was made or was not. One that was not made is not removed: its name may be another program's file.
fn save_made<R: Files>(
    rt: &R,
    made: std::io::Result<R::File>,
    spare: &str,
    name: &str,
    bytes: &[u8],
) -> std::io::Result<()>
    ensures { IsErr made → IsErr result }
{
    let file = made?;
    let saved = fill(file, bytes).and_then(|()| fs::rename(rt, spare, name));
    if saved.is_err() {
        let _ = fs::remove_file(rt, spare);
    }
    saved
}

// Writes all the bytes to an open file and closes it. That a disk is full may show only once they are to lie there.
fn fill<F: Write + OpenFile + Drop>(mut file: F, bytes: &[u8]) -> std::io::Result<()> {
    file.write_all(bytes)?;
    file.sync_all()
}

// The text that the bytes of a path are.
fn text(path: &[u8]) -> std::io::Result<&str> {
    str::from_utf8(path).map_err(|_| Error::from(ErrorKind::InvalidFilename))
}

// Puts the name of a spare file at the start of a path, and answers its length: the file's own name, a dot and the process's number,
// which no other running program has.
fn spare_name(name: &[u8], process: u64, path: &mut [u8]) -> usize
    ensures { SpareName name.now process path.new result }
{
    let mut figures = [0u8; 20];
    let n = io::decimal(process, &mut figures);
    let dot = append(path, 0, name);
    let number = append(path, dot, b".");
    append(path, number, &figures[..n])
}

// Puts bytes at a place of a path and answers the place after them. Where they don't fit it answers the path's length: the system refuses a
// path of 4,096 bytes, where one that is cut short would name another file.
fn append(path: &mut [u8], from: usize, bytes: &[u8]) -> usize
    requires { from ≤ length path.old }
    ensures { Appended path.old from bytes.now path.new result }
{
    writer::put(path, from, bytes).unwrap_or(path.len())
}

// Prints what was written at the start of a page, under the name of the program.
pub fn print_written<R: Print + Eprint, E: Copy>(
    rt: &R,
    program: &[u8],
    page: &[u8],
    written: Result<usize, E>,
)
    requires { InPage written page.now }
{
    match written {
        Ok(at) => print(rt, program, &page[..at]),
        // A page holds every listing.
        Err(_) => fail(rt, program, Error::from(ErrorKind::FileTooLarge)),
    }
}

// Prints a text. Where it can't, the program's name and the reason go to standard error.
pub fn print<R: Print + Eprint>(rt: &R, program: &[u8], text: &[u8]) {
    if let Err(error) = rt.write_all(text) {
        fail(rt, program, error);
    }
}

// Writes a line to standard error: what failed, as the caller names it, a colon and why. Nothing is said where that can't be written either, nor where
// the reader of what was printed has left.
pub fn fail(rt: &impl Eprint, what: &[u8], error: Error) {
    if error.kind() == ErrorKind::BrokenPipe {
        return;
    }
    let _ = match str::from_utf8(what) {
        Ok(what) => eprintln!(rt; "{what}: {error}"),
        Err(_) => eprintln!(rt; "{error}"),
    };
}
