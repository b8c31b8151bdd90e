// What the program `order` prints, as text in a lent buffer: the answer of an order query, or the program's usage.
#![tactic(auto)]

ghost use Rattle.std.specs.Prelude.{◌≡◌};
ghost use Rattle.page.specs.Page.{empty_page, onto, Adds, PutIn};
ghost use Rattle.order_query.specs.Query.{order_is};
ghost use Rattle.order_text.specs.OrderText.{relation_line, answer_line, OrderText};

use event::refusal::Refused;
use order_query::QueryRefusal;
use page::Page;
use relation::Relation;

// Writes what is printed for a log and the program's arguments, which are two event numbers or not that, at the start of a lent buffer.
#[tactic(auto, using(page::proofs::PutIn::put_in))]
pub fn write(log: &[u8], pair: Option<(u64, u64)>, buffer: &mut [u8]) -> Result<usize, Refused>
    ensures { PutIn (OrderText log.now pair) buffer.old buffer.new result }
{
    line(log, pair).put(buffer)
}

#[tactic(auto, using(crate::proofs::Lines::added_long, crate::proofs::Lines::added_answer))]
fn line(log: &[u8], pair: Option<(u64, u64)>) -> Page
    ensures { Adds (OrderText log.now pair) empty_page result }
{
    let p = page::empty();
    let Some((first, second)) = pair else {
        return p.text(b"usage: order FIRST SECOND\n");
    };
    if page::LONGEST < log.len() {
        return p.too_long();
    }
    let answer = order_query::query(log, first as usize, second as usize);
    answer_line(p, answer)
}

fn answer_line(p: Page, answer: Result<Relation, QueryRefusal>) -> Page
    ensures { result ≡ onto p (answer_line (order_is answer)) }
{
    match answer {
        Ok(relation) => relation_line(p, relation),
        Err(QueryRefusal::Log(r) | QueryRefusal::Query(r)) => p.refused(r),
    }
}

fn relation_line(p: Page, relation: Relation) -> Page
    ensures { result ≡ onto p (relation_line relation) }
{
    match relation {
        Relation::Same => p.text(b"same\n"),
        Relation::Before => p.text(b"before\n"),
        Relation::After => p.text(b"after\n"),
        Relation::Free => p.text(b"free\n"),
    }
}
