// Runs over a whole log: whether some order of its events holds the pattern, and the first events that show it.
#![tactic(auto)]

ghost use Rattle.std.specs.Prelude.{◌≡◌};
ghost use Rattle.event.specs.Limits.{slots as slot_limit};
ghost use Rattle.session.specs.Meaning.{RunOf};
ghost use Rattle.run.specs.Answers.{judged_is, judged_after, verdict_after, greatest_of};

use event::refusal::Refused;
use first::Search;
use session::Verdict;
use slot_search::LogSearch;

// What is refused: the pattern, or the log.
#[derive(Clone, Copy, PartialEq, Eq)]
pub enum RunRefusal {
    Pattern(Refused),
    Log(Refused),
}

// Judges a whole log by a pattern.
#[tactic(auto, using(crate::proofs::Verdict::good_pattern, crate::proofs::Verdict::refused_log))]
pub fn run(pattern: &[u8], log: &[u8]) -> Result<Verdict, RunRefusal>
    ensures { RunOf pattern.now log.now (judged_is result) }
{
    let p = event_log::read_pattern(pattern).map_err(|refused| RunRefusal::Pattern(refused))?;
    judge(p.size, slot_search::search(p, log))
}

// What a search for so many slots says of the log: the verdict at its end, or the log's refusal.
pub fn judge(size: usize, searched: Result<LogSearch, Refused>) -> Result<Verdict, RunRefusal>
    ensures { result ≡ judged_after size searched }
{
    match searched {
        Ok(searched) => Ok(verdict_after(size, searched.search)),
        Err(refused) => Err(RunRefusal::Log(refused)),
    }
}

// The verdict at a log's end: the count is the greatest number.
pub fn verdict_after(size: usize, s: Search) -> Verdict
    ensures { result ≡ verdict_after size s }
{
    if s.found != size {
        return Verdict {
            found: None,
            numbers: [0; event::SLOTS],
        };
    }
    let numbers = s.numbers;
    Verdict {
        found: Some(greatest(numbers) as usize),
        numbers,
    }
}

// The greatest of the numbers.
#[tactic(auto, unfolding(crate::specs::Answers::greatest_of))]
pub fn greatest(numbers: [u16; event::SLOTS]) -> u16
    ensures { result ≡ greatest_of slot_limit numbers }
{
    let mut most: u16 = 0;
    for j in 0..event::SLOTS {
        most = numbers[j].max(most);
    }
    most
}
