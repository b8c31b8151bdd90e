// Counts printed after their words, which stand in standard input, a line for each count.

pub fn print(counts: &[u64]) {
    let mut space = io::buffer();
    let n = io::read_full(0, &mut space);
    print_by(&space[..n], counts);
}

fn print_by(words: &[u8], counts: &[u64]) {
    let mut at: usize = 0;
    for n in counts {
        at = print_line(words, at, *n);
    }
}

// The line from a place on, and its count; the place of the next line.
fn print_line(words: &[u8], at: usize, n: u64) -> usize {
    let end = console::find(words, at, b'\n');
    let Some(line) = words.get(at..end) else {
        return at;
    };
    console::count(line, n);
    end + 1
}
