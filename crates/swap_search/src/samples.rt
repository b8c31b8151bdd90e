// Small logs drawn one after another, each with a pattern and with what the search says of them.
use crate::truth::Truth;
use crate::{patterns, truth};
use drawn::Draft;
use plain::Leading;

// How long the log and the pattern are, and what the search says.
#[derive(Clone, Copy)]
pub struct Sample {
    pub log: usize,
    pub pattern: usize,
    pub truth: Truth,
}

// Draws log number n, counted from 0, and a pattern for it, from the last number drawn.
pub fn draw(
    queue: &mut [u32],
    seen: &mut [bool],
    log: &mut [u8],
    pattern: &mut [u8],
    drawn: u32,
    n: usize,
) -> Sample {
    let made = make(log, drawn, (n % 5) as u8);
    let leading = leading_of(log, made.at);
    let sketch = patterns::draw(leading, made.drawn);
    let size = patterns::write(pattern, sketch);
    let truth = truth::of(queue, seen, leading, sketch);
    Sample {
        log: made.at,
        pattern: size,
        truth,
    }
}

fn make(log: &mut [u8], drawn: u32, mix: u8) -> Draft {
    if mix == 0 {
        return drawn::make(log, drawn);
    }
    drawn::make_mixed(log, drawn, mix)
}

fn leading_of(log: &[u8], size: usize) -> Leading {
    plain::read(log.get(..size).unwrap_or(b""))
}

impl Sample {
    // The last number drawn.
    pub fn last(self) -> u32 {
        self.truth.sketch.drawn
    }
}
