// How a line is taken apart: places of its marks, bytes in hexadecimal, numbers in decimal.
ghost use Rattle.std.specs.Prelude.{◌<◌, ◌≤◌, length};
ghost use Rattle.io.specs.Counts.{IsPrefixLen};

// The first byte, 0 without one.
// Kept: a line that is empty is as unknown as one that begins with 0.
pub(crate) fn first(s: &[u8]) -> u8 {
    s.first().copied().unwrap_or(0)
}

// Where the title starts: after the word and a space, or at the colon where there is none.
pub(crate) fn title_from(line: &[u8], colon: usize) -> usize
    ensures { result ≤ colon }
{
    let space = console::find(line, 0, b' ');
    if space < colon {
        return space + 1;
    }
    colon
}

// Puts the bytes that stand after a colon or a bar into `out` from `from` on, and answers the place after them.
pub(crate) fn put_bytes(s: &[u8], mark: usize, out: &mut [u8], from: usize) -> usize
    requires { mark ≤ length s.now }
    ensures { IsPrefixLen result out.new }
{
    let mut n = from.min(out.len());
    for digits in s.get(mark + 2..).unwrap_or(b"").chunks(3) {
        let [high, low, ..] = digits else {
            return n;
        };
        if *high == b'|' || out.len() <= n {
            return n;
        }
        out[n] = 16 * digit(*high) + digit(*low);
        n += 1;
    }
    n
}

// The value of a hexadecimal digit, 0 for another byte.
fn digit(b: u8) -> u8
    ensures { result < 16 }
{
    match b {
        b'0'..=b'9' => b - 48,
        b'A'..=b'F' => b - 55,
        _ => 0,
    }
}

// The number that stands after a bar; 0 without one.
// Kept: a line that leaves the number out means 0 by it.
pub(crate) fn decimal(s: &[u8], bar: usize) -> usize {
    let mut n: usize = 0;
    for i in bar..s.len() {
        if bar < i && s[i] == b'|' {
            return n;
        }
        n = with_figure(n, s[i]);
    }
    n
}

// The number with a figure more; the same where the byte is no figure.
fn with_figure(n: usize, b: u8) -> usize {
    match b {
        b'0'..=b'9' => ten_times_and(n, b - 48),
        _ => n,
    }
}

fn ten_times_and(n: usize, figure: u8) -> usize {
    if 1844674407370955161 < n {
        return n;
    }
    std::num::wrapping_add_usize(10 * n, figure as usize)
}
