// Lists each example folder that its arguments name, and says whether the text is the one in the folder's file `printed`, and with reasons the one in
// `reasoned` where there is no match; the same of folders with many patterns; whether order queries of some of them print what they should; and whether a
// file that is saved, and a replay, are read again as they should be.
#![tactic(auto)]

use event::refusal::Refused;
use files::ProcessId;
use std::rt::{Env, Files};

const NAMES: usize = 64;

fn main(rt: HostRuntime) {
    no_match();
    saved(&rt);
    replayed(&rt, b"panel");
    ordered(&rt);
    many(&rt);
    examples(&rt);
}

// Every kind of line, and gaps between the numbers; more than one batch of events; what a refused log, a long one, a long pattern, and none at all leave of them.
fn many(rt: &impl Files) {
    lines(rt, b"many");
    lines(rt, b"many_batches");
    lines(rt, b"many_refused");
    lines(rt, b"many_past_the_limit");
    lines(rt, b"many_long_pattern");
    lines(rt, b"many_without_log");
    lines(rt, b"many_without_patterns");
}

fn lines(rt: &impl Files, folder: &[u8]) {
    let mut page = [0u8; page::ROOM];
    let written = pattern_files::listings(rt, folder, &mut page);
    io::write_all(1, folder);
    compare(rt, folder, written, &page);
}

// Their folders are named after two numbers.
fn examples<R: Env + Files>(rt: &R) {
    let count = arguments::arg_count(rt);
    for n in 3..NAMES.min(count) {
        example(rt, n);
    }
}

// The empty log lists as the constant's nine bytes.
fn no_match() {
    let mut page = [0u8; page::ROOM];
    let written = listing_text::write(b"\x07\x00\x01\x00\x00", b"\x00", &mut page);
    io::write_all(1, &listing_text::NO_MATCH);
    verdict(holds(written, &page, &listing_text::NO_MATCH));
}

// A file that is saved over an older one has the new bytes; where there is no folder for it nothing is saved.
fn saved<R: Files + ProcessId>(rt: &R) {
    let mut space = [0u8; NAMES];
    let older = files::save(rt, b"saved", b"an older text").is_ok();
    let newer = files::save(rt, b"saved", b"a text").is_ok();
    let nowhere = files::save(rt, b"no_folder/saved", b"a text").is_ok();
    let k = files::read(rt, b".", b"/saved", &mut space);
    io::write_all(1, b"a file saved");
    verdict(older & newer & !nowhere & console::starts_with(&space, k, b"a text"));
}

// What is saved as the replay of an example is what its file `replayed` has.
fn replayed<R: Files + ProcessId>(rt: &R, folder: &[u8]) {
    let mut pattern = [0u8; NAMES];
    let mut log = [0u8; NAMES];
    let sizes = files::read_both(rt, folder, &mut pattern, &mut log);
    let p = sizes.pattern;
    let l = sizes.log;
    let made = files::save_replay(rt, &pattern[..p], &log[..l]).is_ok();
    io::write_all(1, folder);
    io::write_all(1, b" replayed");
    verdict(made & replay_is(rt, folder));
}

fn replay_is(rt: &impl Files, folder: &[u8]) -> bool {
    let mut due = [0u8; NAMES];
    let mut space = [0u8; NAMES];
    let n = files::read(rt, folder, b"/replayed", &mut due);
    let k = files::read(rt, b".", b"/replay.bin", &mut space);
    console::starts_with(&space, k, &due[..n])
}

// All four answers; an event that is not there; a log that is refused, missing, just short enough, too long. The program's own arguments begin with
// two numbers and are too many, so that the usage is printed.
fn ordered<R: Env + Files>(rt: &R) {
    asked(rt, b"panel", 1, 2, b"before\n");
    asked(rt, b"panel", 2, 1, b"after\n");
    asked(rt, b"panel", 2, 2, b"same\n");
    asked(rt, b"panel", 1, 3, b"free\n");
    asked(rt, b"panel", 1, 4, b"refused 16 at 0\n");
    asked(rt, b"held_by_another", 0, 9, b"refused 11 at 3\n");
    asked(rt, b"missing_log", 1, 1, b"refused 4 at 0\n");
    asked(rt, b"at_the_limit", 1, 1, b"same\n");
    asked(rt, b"past_the_limit", 1, 1, b"too long\n");
    let pair = arguments::given_pair(rt);
    order(rt, b"past_the_limit", pair, b"usage: order FIRST SECOND\n");
}

fn asked(rt: &impl Files, folder: &[u8], first: u64, second: u64, due: &[u8]) {
    order(rt, folder, Some((first, second)), due);
}

fn order(rt: &impl Files, folder: &[u8], pair: Option<(u64, u64)>, due: &[u8]) {
    let mut page = [0u8; page::ROOM];
    let written = files::order(rt, folder, pair, &mut page);
    io::write_all(1, folder);
    io::write_all(1, b" order");
    verdict(holds(written, &page, due));
}

// The example whose folder is the n-th argument.
fn example<R: Env + Files>(rt: &R, n: usize) {
    let mut space = [0u8; NAMES];
    let size = arguments::arg(rt, n, &mut space).unwrap_or(0);
    listing(rt, &space[..size]);
    reason(rt, &space[..size]);
}

fn listing(rt: &impl Files, folder: &[u8]) {
    let mut page = [0u8; page::ROOM];
    let written = files::list(rt, folder, &mut page);
    io::write_all(1, folder);
    compare(rt, folder, written, &page);
}

// Where the folder has a file `reasoned` that is what is printed, and else the listing.
fn reason(rt: &impl Files, folder: &[u8]) {
    let mut page = [0u8; page::ROOM];
    let mut due = [0u8; page::ROOM];
    let written = files::reason(rt, folder, &mut page);
    let k = files::read(rt, folder, b"/reasoned", &mut due);
    io::write_all(1, folder);
    io::write_all(1, b" reason");
    if k == 0 {
        compare(rt, folder, written, &page);
    } else {
        verdict(holds(written, &page, &due[..k]));
    }
}

// Whether what was written is what the folder's file `printed` has.
fn compare(rt: &impl Files, folder: &[u8], written: Result<usize, Refused>, page: &[u8]) {
    let mut printed = [0u8; page::ROOM];
    let k = files::read(rt, folder, b"/printed", &mut printed);
    verdict(holds(written, page, &printed[..k]));
}

fn verdict(same: bool) {
    if same {
        io::write_all(1, b": as printed\n");
    } else {
        io::write_all(1, b": NOT AS PRINTED\n");
    }
}

// Whether a text was written, and is this one.
fn holds(written: Result<usize, Refused>, page: &[u8], text: &[u8]) -> bool {
    written.is_ok_and(|n| console::starts_with(page, n, text))
}
