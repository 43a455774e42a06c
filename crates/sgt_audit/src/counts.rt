//! Counts of outcomes, compared with the history.
ghost use Rattle.std.specs.Prelude.{◌≡◌, ◌↔◌, IsTrue, [], ◌∷◌};
ghost use Rattle.std.specs.List.{count_by};
ghost use Rattle.sgt_audit.specs.AllOutcomes.{is_done, is_left, is_untaken, is_no_memory, NumbersAgree};

use crate::outcome::Outcome;
use crate::survey::Ends;

/// How many outcomes of a kind there are.
#[derive(Clone, Copy, Default)]
struct Kinds {
    done: usize,
    left: usize,
    untaken: usize,
    no_memory: usize,
}

/// Whether the numbers of commits, aborts by the caller and workers that left agree with the outcomes.
pub fn counts_agree<N>(ends: Ends, outcomes: &[Outcome<N>], workers: u32) -> bool
    ensures { IsTrue result ↔ NumbersAgree ends.commits ends.quits outcomes.now workers }
{
    let kinds = kinds_of(outcomes);
    let workers = workers as usize;
    ends.commits == kinds.done
        && ends.quits.saturating_sub(kinds.left) <= kinds.no_memory
        && kinds.left <= workers
        && (kinds.untaken == 0 || kinds.left == workers)
}

/// How many outcomes there are of each kind that is counted.
fn kinds_of<N>(outcomes: &[Outcome<N>]) -> Kinds
    ensures done { result.done ≡ count_by is_done outcomes.now }
    ensures left { result.left ≡ count_by is_left outcomes.now }
    ensures untaken { result.untaken ≡ count_by is_untaken outcomes.now }
    ensures no_memory { result.no_memory ≡ count_by is_no_memory outcomes.now }
{
    let mut kinds = Kinds::default();
    for outcome in outcomes {
        let one = kind_of(outcome);
        kinds.done += one.done;
        kinds.left += one.left;
        kinds.untaken += one.untaken;
        kinds.no_memory += one.no_memory;
    }
    kinds
}

/// One, in the field of the outcome's kind, if that kind is counted.
fn kind_of<N>(outcome: &Outcome<N>) -> Kinds
    ensures done { result.done ≡ count_by is_done (outcome.now ∷ []) }
    ensures left { result.left ≡ count_by is_left (outcome.now ∷ []) }
    ensures untaken { result.untaken ≡ count_by is_untaken (outcome.now ∷ []) }
    ensures no_memory { result.no_memory ≡ count_by is_no_memory (outcome.now ∷ []) }
{
    let mut kinds = Kinds::default();
    match outcome {
        Outcome::Done(_) => kinds.done = 1,
        Outcome::Left(_) => kinds.left = 1,
        Outcome::Untaken => kinds.untaken = 1,
        Outcome::NoMemory => kinds.no_memory = 1,
        Outcome::Asked(_) | Outcome::Gave(_) | Outcome::Refused(_) => (),
    }
    kinds
}
