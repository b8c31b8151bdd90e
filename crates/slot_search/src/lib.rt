// A search through a whole log, for one slot of a pattern at a time: each is filled by the first event that can fill it.
#![tactic(auto)]

ghost use Rattle.std.specs.Prelude.{◌≡◌, cond};
ghost use Rattle.clock.specs.Clocks.{stamp_by, no_stamp};
ghost use Rattle.passes.specs.LastPlaces.{followed_on};
ghost use Rattle.first.specs.Search.{fills_slot};
ghost use Rattle.slot_search.specs.Patterns.{Usable, sought_of};
ghost use Rattle.slot_search.specs.Searching.{SearchedIn};

use clock::Stamp;
use event::Event;
use event::refusal::Refused;
use event_log::Pattern;
use first::Search;
use passes::{Followed, Sought};

// How many events the log holds, and the search at its end.
#[derive(Clone, Copy)]
pub struct LogSearch {
    pub events: usize,
    pub search: Search,
}

// One pass over the log: each event goes by the rules, and the first that fits the slot looked for fills it.
pub fn search(p: Pattern, log: &[u8]) -> Result<LogSearch, Refused>
    requires { Usable p }
    ensures { SearchedIn p.slots p.size log.now result }
{
    let sought = with_keys(p);
    let mut state = rules::fresh();
    let mut followed = Followed::fresh();
    let mut s = first::none_found(&sought);
    let mut taken: usize = 0;
    let mut at: usize = 0;
    loop {
        let Some((event, next)) = event_log::step(log, at, &mut state, taken)? else {
            return Ok(LogSearch {
                events: taken,
                search: s,
            });
        };
        taken += 1;
        let key = command::key_at(log, at);
        at = next;
        let stamp = stamp_newest(&s, &sought, &mut followed, key, event);
        // Where the keys differ the event does not fit the slot looked for, and else the nested match decides.
        if s.want != key {
            continue;
        }
        if !fills(&sought, s.found, event) {
            continue;
        }
        s = first::choose(log, &sought, s, taken, &mut followed, stamp);
    }
}

// The slots of a pattern with their keys.
fn with_keys(p: Pattern) -> Sought
    ensures { result ≡ sought_of p }
{
    let slots = p.slots;
    let keys = slots::keys_of(slots);
    Sought {
        slots,
        keys,
        size: p.size,
    }
}

// While the clocks run they take the newest event, and its place is kept: its stamp, or no counts where they stand still.
fn stamp_newest(s: &Search, sought: &Sought, followed: &mut Followed, key: u16, e: Event) -> Stamp
    ensures stamp { result ≡ cond s.now.running (stamp_by followed.old.clocks e) no_stamp }
    ensures after { followed.new ≡ cond s.now.running (followed_on sought.now.keys key e followed.old) followed.old }
{
    if !s.running {
        return clock::NO_STAMP;
    }
    // Copied here, so that nothing is copied for an event where the clocks stand still.
    let taken = e;
    followed.follow(sought.keys, key, taken)
}

// Whether the event fits slot k, counted from 0; there is none from the limit on.
fn fills(sought: &Sought, k: usize, e: Event) -> bool
    ensures { result ≡ fills_slot sought.now.slots k e }
{
    sought.slots.get(k).is_some_and(|slot| event::fit(*slot, e))
}
