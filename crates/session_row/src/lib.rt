// Many patterns in one pass: one event for each session of a lent row.
#![tactic(auto)]

ghost use Rattle.std.specs.Prelude.{◌≡◌, ◌<◌, ◌≤◌, Some};
ghost use Rattle.std.specs.List.{All};
ghost use Rattle.event.specs.Refusals.{number_given};
ghost use Rattle.session_row.specs.Row.{most, places, Alone, alone_with, HandsAs, how_many_in, one_refused, RowAnswered, FirstHanded};

use event::Event;
use event::refusal::Refusal;
use session::Session;

// The longest row that a call takes.
pub const MOST: usize = 16;

// One place more: room for a row that is too long.
pub const PLACES: usize = MOST + 1;

// Why not every session of a row took what it was handed: the row is too long, and none had its turn; or some refused.
#[derive(Clone, Copy)]
pub enum RowRefusal {
    TooLong,
    Refused(RowRefused),
}

// How many sessions of a row refused, the lowest place, from 1, that did, and the reason of its refusal.
#[derive(Clone, Copy)]
pub struct RowRefused {
    pub count: usize,
    pub place: usize,
    pub reason: Refusal,
}

// Sessions held by value, beside what became of the event in a row of the first of them.
#[derive(Clone, Copy)]
pub struct RowHanded {
    pub answer: Result<(), RowRefusal>,
    pub sessions: [Session; PLACES],
}

// Hands one event to each session of a row, in row order. One that refuses stays as it was, and the others go on.
pub fn take_all(row: &mut [Session], e: Event) -> Result<(), RowRefusal>
    ensures { RowAnswered (alone_with e) row.old result row.new }
{
    each_in_turn(row, |s| hand(s, e))
}

// What taking one event makes of a session.
fn hand(s: Session, e: Event) -> (Result<(), Refusal>, Session)
    ensures { (number_given result.0 ≡ (alone_with e s).number) × (result.1 ≡ (alone_with e s).after) }
{
    let handed = s.take(e);
    let session = handed.session;
    (handed.answer.map_err(|refused| refused.reason), session)
}

// Gives each session of a row its turn, in row order, by value: `hand` says whether it refuses, and what it is then. Sessions of any kind.
pub fn each_in_turn<S: Copy, F: Fn(S) -> (Result<(), Refusal>, S)>(
    row: &mut [S],
    hand: F,
) -> Result<(), RowRefusal>
    requires { F.IsAlwaysCallable hand }
    ensures { (alone : S → Alone S) → All (HandsAs (F.post hand) alone) row.old → RowAnswered alone row.old result row.new }
{
    if row.len() > MOST {
        return Err(RowRefusal::TooLong);
    }
    let mut refused: Option<RowRefused> = None;
    for i in 0..row.len() {
        let (answer, session) = hand(row[i]);
        row[i] = session;
        if let Err(reason) = answer {
            refused = Some(one_refused(refused, i, reason));
        }
    }
    match refused {
        None => Ok(()),
        Some(refused) => Err(RowRefusal::Refused(refused)),
    }
}

// Those that refused, with one more, at the row's place i + 1.
fn one_refused(refused: Option<RowRefused>, i: usize, reason: Refusal) -> RowRefused
    requires { (i < most) × (how_many_in refused ≤ i) }
    ensures { result ≡ one_refused refused i reason }
{
    match refused {
        None => RowRefused {
            count: 1,
            place: i + 1,
            reason,
        },
        Some(first) => RowRefused {
            count: first.count + 1,
            place: first.place,
            reason: first.reason,
        },
    }
}

// Lends the first n of some sessions held by value as a row, for one event.
// Kept: `row_batch::hand_batch` does the same; one function over a closure for both proves, but is longer than the lines they share, and each of the two
// then needs an answer by hand.
pub fn hand_first(sessions: [Session; PLACES], n: usize, e: Event) -> RowHanded
    requires { n ≤ places }
    ensures { FirstHanded (alone_with e) sessions n result }
{
    let mut held = sessions;
    let answer = take_all(&mut held[..n], e);
    RowHanded {
        answer,
        sessions: held,
    }
}
