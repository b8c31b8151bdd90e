// What the program `orders` prints, as text in a lent buffer: a line for each order that is given, or why there is none.
#![tactic(auto)]

ghost use Rattle.std.specs.Prelude.{◌≡◌, List, ℕ, length};
ghost use Rattle.page.specs.Page.{empty_page, onto, PutIn};
ghost use Rattle.order_rows.specs.Rows.{order_places};
ghost use Rattle.orders_text.specs.OrdersText.{at_place, order_line, numbers_before_zero, line_text, given_line, Begins};

use event::refusal::Refused;
use order_rows::PLACES;
use orders_log::{Given, OrdersRefusal};
use page::Page;

// What a line says: an order's event numbers, up to the first 0; nothing, after the last order; or a refusal.
// Kept: a refusal by its number and not by its reason, since the line is promised for any number (`write`, `line_text`).
#[derive(Clone, Copy)]
pub enum Line {
    Order([u8; PLACES]),
    Nothing,
    Refused { number: u8, offset: usize },
}

// The text of the first call, and what it gave.
#[derive(Clone, Copy)]
pub struct Begun {
    pub written: Result<usize, Refused>,
    pub given: Given,
}

// Writes what is printed first for a log at the start of a lent buffer. Nothing follows where the log is too long.
pub fn begin(log: &[u8], buffer: &mut [u8]) -> Begun
    ensures { PutIn (λ (text : List ℕ). Begins log.now text result.given) buffer.old buffer.new result.written }
{
    if page::LONGEST < log.len() {
        let written = page::empty().too_long().put(buffer);
        return Begun {
            written,
            given: Ok(None),
        };
    }
    let given = orders_log::first(log);
    let written = write(line_of(given), buffer);
    Begun { written, given }
}

// The line of what a call gave.
pub fn line_of(given: Given) -> Line
    ensures { line_text result ≡ given_line given }
{
    match given {
        Ok(Some(row)) => Line::Order(row),
        Ok(None) => Line::Nothing,
        Err(OrdersRefusal::Log(r) | OrdersRefusal::Orders(r)) => Line::Refused {
            number: r.reason.number(),
            offset: r.offset,
        },
    }
}

// Writes a line at the start of a lent buffer; no byte after the last order.
pub fn write(line: Line, buffer: &mut [u8]) -> Result<usize, Refused>
    ensures { PutIn (λ (text : List ℕ). text ≡ line_text line) buffer.old buffer.new result }
{
    on_page(line).put(buffer)
}

#[tactic(auto, using(page::proofs::Onto::onto_none))]
fn on_page(line: Line) -> Page
    ensures { result ≡ onto empty_page (line_text line) }
{
    match line {
        Line::Order(row) => row_line(&row),
        Line::Nothing => page::empty(),
        Line::Refused { number, offset } => page::empty().refusal(number, offset),
    }
}

// The numbers up to the first 0.
fn row_line(row: &[u8; PLACES]) -> Page
    ensures { result ≡ onto empty_page (order_line (numbers_before_zero row.now 0 order_places)) }
{
    let mut p = page::empty();
    for (i, k) in row.iter().enumerate() {
        if *k == 0 {
            break;
        }
        p = number(p, i, *k);
    }
    p.text(b"\n")
}

// The number at a place, with a space before it where it is not the first.
fn number(p: Page, i: usize, k: u8) -> Page
    ensures { result ≡ onto p (at_place i k) }
{
    if i == 0 {
        return p.number(k as usize);
    }
    p.word(b" ", k as usize)
}
