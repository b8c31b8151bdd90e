// What test programs share: what they print, and how they look at bytes.
// Used by test programs only: proved safe; what they print is compared with stored output.
#![tactic(auto)]

ghost use Rattle.std.specs.Prelude.{◌≡◌, true, ℕ, ◌≤◌, ◌<◌, length, get_or, take};

use event::refusal::Refused;

pub fn text(s: &[u8]) {
    io::write_all(1, s);
}

pub fn number(n: u64) {
    io::print_decimal(1, n);
}

// Words, then a number.
pub fn numbered(words: &[u8], n: u64) {
    text(words);
    number(n);
}

// A count on a line of its own.
pub fn count(name: &[u8], n: u64) {
    text(name);
    numbered(b": ", n);
    text(b"\n");
}

pub fn refusal(k: u8, offset: usize) {
    numbered(b"refused ", u64::from(k));
    numbered(b" at ", offset as u64);
}

pub fn refused(r: Refused) {
    refusal(r.reason.number(), r.offset);
}

pub fn pattern_refusal(k: u8, offset: usize) {
    text(b"pattern ");
    refusal(k, offset);
}

pub fn pattern_refused(r: Refused) {
    pattern_refusal(r.reason.number(), r.offset);
}

// The hexadecimal digit of the low four bits.
fn digit(n: u8) -> u8 {
    b"0123456789ABCDEF"[(n % 16) as usize]
}

// Each byte in hexadecimal, a space before it.
pub fn bytes(s: &[u8]) {
    for &b in s {
        text(&[b' ', digit(b / 16), digit(b)]);
    }
}

// The first place from `from` on that holds `b`, or the length.
pub fn find(s: &[u8], from: usize, b: u8) -> usize
    ensures within { (result ≤ length s.now) × (from ≤ length s.now → from ≤ result) }
    ensures before { (k : ℕ) → from ≤ k → k < result → get_or s.now k 0 ≡ b → ⊥ }
    ensures found { result < length s.now → get_or s.now result 0 ≡ b }
{
    (from..s.len()).find(|&i| s[i] == b).unwrap_or(s.len())
}

// Whether s has n bytes, and the first n are the text.
pub fn starts_with(s: &[u8], n: usize, text: &[u8]) -> bool
    ensures { (result ≡ true → take n s.now ≡ text.now) × (n ≤ length s.now → take n s.now ≡ text.now → result ≡ true) }
{
    n <= s.len() && &s[..n] == text
}
