// Prints the listing of pattern.bin and log.bin, read in the folder where it is run.
#![tactic(auto)]

fn main(rt: HostRuntime) {
    let mut page = [0u8; page::ROOM];
    let written = files::list(&rt, b".", &mut page);
    files::print_written(&rt, b"listing", &page, written);
}
