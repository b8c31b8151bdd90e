// Prints how one event of log.bin, read in the folder where it is run, stands to another. Their numbers are its two arguments.
#![tactic(auto)]

fn main(rt: HostRuntime) {
    let pair = arguments::given_pair(&rt);
    let mut page = [0u8; page::ROOM];
    let written = files::order(&rt, b".", pair, &mut page);
    files::print_written(&rt, b"order", &page, written);
}
