// Worked cases of dates, lifetimes, ranges and marks: one list, and the proof that every one of them holds.
#![tactic(auto)]

ghost use Rattle.std.specs.Prelude.{◌≡◌, length};
ghost use Rattle.std.specs.List.{AllByRecursion};
ghost use Rattle.cases.specs.Cases.{Told, cases};

/// Tells how many cases there are.
#[tactic(auto, using(crate::proofs::Shown::all_hold))]
pub fn worked_cases_hold() -> usize
    ensures count { result ≡ length cases }
    ensures hold { AllByRecursion Told cases }
{
    14
}
