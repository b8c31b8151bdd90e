// The events that a run names, held to the first list: "among all lists of events, in slot order, that satisfy the rule within the reported count, the one smallest at the first place
// where they differ". All lists of numbers from 1 to the count are gone through in rising order, up to the first that satisfies the rule.
use crate::tally::{COUNTS, FIRST};
use run::RunRefusal;
use session::Verdict;
use swap_search::truth::Truth;
use swap_search::{counts, lists};

// Whether the run names the first list, where it says that there is a match.
pub(crate) fn agrees(
    judged: Result<Verdict, RunRefusal>,
    t: Truth,
    counts: &mut [u64; COUNTS],
) -> bool {
    let Ok(verdict) = judged else {
        return true;
    };
    let Some(count) = verdict.found else {
        return true;
    };
    named_first(t, count, verdict.numbers, counts)
}

// How many runs were compared, how many of these had more than one list to name, and how many named another than the first.
fn named_first(t: Truth, count: usize, numbers: [u16; 5], counts: &mut [u64; COUNTS]) -> bool {
    let size = t.sketch.size;
    let first = lists::first_from(t, size, count, 0);
    let list = first.and_then(|n| lists::list_of(n, count, size));
    let right = list == Some(numbers);
    counts::add(counts, FIRST, 1);
    counts::add_if(
        counts,
        FIRST + 1,
        first.is_some_and(|n| another(t, count, n)),
    );
    counts::add_if(counts, FIRST + 2, !right);
    right
}

// Whether a list after the first satisfies the rule too.
fn another(t: Truth, count: usize, first: u32) -> bool {
    lists::first_from(t, t.sketch.size, count, first.saturating_add(1)).is_some()
}
