// The log that shows a match: a pattern and a log judged, and on a match the replay written to a lent buffer.
#![tactic(auto)]

ghost use Rattle.run.specs.Answers.{judged_is};
ghost use Rattle.replay_log.specs.Replay.{ReplayOf, run_part, length_part};

use event::refusal::Refusal;
use run::RunRefusal;
use session::Verdict;

// The verdict of a run over the log, and how many bytes of replay were written.
#[derive(Clone, Copy)]
pub struct Replayed {
    pub verdict: Verdict,
    pub length: usize,
}

// Judges a whole log by a pattern. On a match the replay log is written at the start of the lent buffer, and in every other case the buffer stays as it was:
// without one, where a run refuses the pattern or the log, and for 15, where the buffer has fewer bytes than the log.
#[tactic(auto, using(crate::proofs::Calling::refused_alike, crate::proofs::Calling::short_of_it, crate::proofs::Calling::no_match_shown, crate::proofs::Calling::replay_written))]
pub fn write(pattern: &[u8], log: &[u8], buffer: &mut [u8]) -> Result<Replayed, RunRefusal>
    ensures { ReplayOf pattern.now log.now buffer.old (judged_is (run_part result)) (length_part result) buffer.new }
{
    let verdict = run::run(pattern, log)?;
    if buffer.len() < log.len() {
        return Err(RunRefusal::Log(Refusal::NoRoom.at(0)));
    }
    let Some(count) = verdict.found else {
        return Ok(Replayed { verdict, length: 0 });
    };
    let slots = event_log::read_pattern(pattern).unwrap().size;
    let length = replay_passes::write(log, count, verdict.numbers, slots, buffer);
    Ok(Replayed { verdict, length })
}
