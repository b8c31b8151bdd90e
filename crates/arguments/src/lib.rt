// The numbers that a program is given as arguments.
#![tactic(auto)]

ghost use Rattle.std.specs.Prelude.{◌+◌, ◌-◌, ◌*◌, ◌≤◌, length, SomeIff, IfSome};
ghost use Rattle.io.specs.Counts.{IsPrefixLen};
ghost use Rattle.arguments.specs.Numerals.{Extends, NumberGiven, PairGiven};

use std::env::FillError;
use std::rt::Env;

// The most figures of an argument that is a number.
const FIGURES: usize = 20;

// The number that an argument is, or that it is none.
#[tactic(auto, using(crate::proofs::Reading::wrong_length, crate::proofs::Reading::one_more, crate::proofs::Reading::ends, crate::proofs::Reading::all_read))]
pub fn number(bytes: &[u8]) -> Option<u64>
    ensures { NumberGiven bytes.now result }
{
    if !(1..=FIGURES).contains(&bytes.len()) {
        return None;
    }
    let mut value = 0;
    for &byte in bytes {
        value = with_figure(value, byte)?;
    }
    Some(value)
}

// The value with a figure behind it: none where the byte is no figure, or the value not below 2^64.
fn with_figure(value: u64, byte: u8) -> Option<u64>
    ensures { SomeIff result (Extends value byte) (10 * value + (byte - 48)) }
{
    if !byte.is_ascii_digit() {
        return None;
    }
    let figure = u64::from(byte - b'0');
    value.checked_mul(10)?.checked_add(figure)
}

// The numbers of a program that takes two: `given` is how many arguments it has, beside its own name.
#[tactic(auto, using(crate::proofs::Reading::other_count, crate::proofs::Reading::first_none, crate::proofs::Reading::second_none, crate::proofs::Reading::both))]
pub fn pair_of(given: usize, first: &[u8], second: &[u8]) -> Option<(u64, u64)>
    ensures { PairGiven given first.now second.now result }
{
    if given != 2 {
        return None;
    }
    let m = number(first)?;
    let n = number(second)?;
    Some((m, n))
}

// The two numbers that this program was started with. What the system gives is assumed and not proved, and no contract can say it.
// An argument longer than its space is no number, as it must be.
pub fn given_pair(rt: &impl Env) -> Option<(u64, u64)> {
    let given = arg_count(rt).saturating_sub(1);
    let mut first = [0u8; FIGURES];
    let mut second = [0u8; FIGURES];
    let m = arg(rt, 1, &mut first)?;
    let n = arg(rt, 2, &mut second)?;
    pair_of(given, &first[..m], &second[..n])
}

// How many arguments this program was started with, its own name among them.
pub fn arg_count(rt: &impl Env) -> usize {
    (0..usize::MAX)
        .find(|&n| matches!(rt.arg(n, &mut []), Err(FillError::NotPresent)))
        .unwrap_or(usize::MAX)
}

// Puts the n-th argument at the start of a space: how many bytes it has; none where there is no such argument, or where it is longer than the space.
// Kept: a length and not a slice, since what a lent slice leaves of its space takes a proof by hand to say.
pub fn arg(rt: &impl Env, n: usize, space: &mut [u8]) -> Option<usize>
    ensures { IfSome result (λ size. IsPrefixLen size space.new × size ≤ length space.old) }
{
    rt.arg(n, space).ok()
}
