// What the program `load` makes of its arguments, and the line that it prints, as text in a lent buffer.
#![tactic(auto)]

ghost use Rattle.std.specs.Prelude.{◌≡◌, List, ℕ};
ghost use Rattle.page.specs.Page.{empty_page, onto, PutIn};
ghost use Rattle.load_text.specs.LoadText.{seed_and_count, making, space_after, told, made_is, load_line};

use event::refusal::Refused;
use page::Page;

// Why no log was made: the arguments are no seed and count, or the load is refused.
// Kept: a refusal by its number and not by its reason, since the line is promised for any number (`write`, `load_line`).
#[derive(Clone, Copy)]
pub enum LoadError {
    Usage,
    Refused { number: u8, offset: usize },
}

// Makes the load that the program's arguments ask for, at the start of a lent space: how many bytes it has.
pub fn make_load(pair: Option<(u64, u64)>, space: &mut [u8]) -> Result<usize, LoadError>
    ensures answer { made_is result ≡ making (seed_and_count pair) space.old }
    ensures after { space.new ≡ space_after (seed_and_count pair) space.old }
{
    let (first, second) = pair.ok_or(LoadError::Usage)?;
    let seed = u32::try_from(first).map_err(|_| LoadError::Usage)?;
    load_log::write(seed, second as usize, space).map_err(told)
}

// A refusal as it is told.
fn told(refused: Refused) -> LoadError
    ensures { result ≡ told refused }
{
    LoadError::Refused {
        number: refused.reason.number(),
        offset: refused.offset,
    }
}

// Writes what is printed for it at the start of a lent buffer.
pub fn write(made: Result<usize, LoadError>, buffer: &mut [u8]) -> Result<usize, Refused>
    ensures { PutIn (λ (text : List ℕ). text ≡ load_line (made_is made)) buffer.old buffer.new result }
{
    line(made).put(buffer)
}

#[tactic(auto, using(page::proofs::Onto::onto_append))]
fn line(made: Result<usize, LoadError>) -> Page
    ensures { result ≡ onto empty_page (load_line (made_is made)) }
{
    let p = page::empty();
    match made {
        Ok(size) => p.number(size).text(b" bytes\n"),
        Err(LoadError::Refused { number, offset }) => p.refusal(number, offset),
        Err(LoadError::Usage) => p.text(b"usage: load SEED COUNT\n"),
    }
}
