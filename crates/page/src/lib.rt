// Text under way on a page of bytes: words, numbers in decimal, and the lines that several programs print.
#![tactic(auto)]

ghost use Rattle.std.specs.Prelude.{◌≡◌};
ghost use Rattle.event.specs.Refusals.{refusal_number};
ghost use Rattle.writer.specs.Writing.{written_is, writing, buffer_after};
ghost use Rattle.page.specs.Text.{decimal};
ghost use Rattle.page.specs.Lines.{refusal_line, too_long_line};
ghost use Rattle.page.specs.Page.{empty_page, with, onto, held};

use event::refusal::Refused;

// The longest file that a program takes, in bytes.
pub const LONGEST: usize = 65536;

// What a program reads of a file, in bytes: one more than it takes, so that a longer file is seen to be longer.
pub const SPACE: usize = LONGEST + 1;

// More than any program's text has, in bytes.
pub const ROOM: usize = 1024;

// The text under way: its bytes, and how many they are.
// Kept: fixed memory; and no Display, whose text no contract knows, where each text is promised to the byte.
#[derive(Clone, Copy)]
pub struct Page {
    pub bytes: [u8; ROOM],
    pub size: usize,
}

pub fn empty() -> Page
    ensures { result ≡ empty_page }
{
    Page {
        bytes: [0; ROOM],
        size: 0,
    }
}

impl Page {
    // The page with a byte more; a full one stays as it is.
    pub fn byte(mut self, b: u8) -> Page
        ensures { result ≡ with self b }
    {
        if self.size < ROOM {
            self.bytes[self.size] = b;
            self.size += 1;
        }
        self
    }

    #[tactic(auto, using(crate::proofs::Onto::onto_none, crate::proofs::Onto::next_byte))]
    pub fn text(self, s: &[u8]) -> Page
        ensures { result ≡ onto self s.now }
    {
        let mut p = self;
        for &b in s {
            p = p.byte(b);
        }
        p
    }

    #[tactic(auto, using(crate::proofs::Decimal::as_printed))]
    pub fn number(self, n: usize) -> Page
        ensures { result ≡ onto self (decimal n) }
    {
        let mut figures = itoa::Buffer::new();
        self.text(figures.format(n).as_bytes())
    }

    // Words, then a number.
    pub fn word(self, s: &[u8], n: usize) -> Page
        ensures { result ≡ onto (onto self s.now) (decimal n) }
    {
        self.text(s).number(n)
    }

    #[tactic(auto, using(crate::proofs::Onto::onto_append))]
    pub fn refusal(self, number: u8, offset: usize) -> Page
        ensures { result ≡ onto self (refusal_line number offset) }
    {
        self.word(b"refused ", number as usize)
            .word(b" at ", offset)
            .text(b"\n")
    }

    // The refusal's number and offset.
    pub fn refused(self, r: Refused) -> Page
        ensures { result ≡ onto self (refusal_line (refusal_number r.reason) r.offset) }
    {
        self.refusal(r.reason.number(), r.offset)
    }

    pub fn too_long(self) -> Page
        ensures { result ≡ onto self too_long_line }
    {
        self.text(b"too long\n")
    }

    // Puts the text at the start of a lent buffer. A size past the end of the page stands for the whole page.
    pub fn put(self, buffer: &mut [u8]) -> Result<usize, Refused>
        ensures answer { written_is result ≡ writing 0 (held self) buffer.old 0 }
        ensures after { buffer.new ≡ buffer_after 0 (held self) buffer.old 0 }
    {
        writer::put(buffer, 0, &self.bytes[..self.size.min(ROOM)])
    }
}
