// Prints a line for each of pattern01.bin to pattern16.bin, by log.bin, all read in the folder where it is run.
#![tactic(auto)]

fn main(rt: HostRuntime) {
    let mut page = [0u8; page::ROOM];
    let written = pattern_files::listings(&rt, b".", &mut page);
    files::print_written(&rt, b"listings", &page, written);
}
