//! The theorem on releases, and laws of one answer, as contracts of functions that do nothing.

ghost use Rattle.std.specs.Prelude.{◌≡◌, ℕ, ◌<◌, ◌≤◌, List, Bool};
ghost use Rattle.std.specs.List.{AllZip};
ghost use Rattle.leak_bound.specs.Records.{Tests, distinct_count};
ghost use Rattle.black_box.specs.Bound.{box_bound};
ghost use Rattle.black_box.specs.Schedule.{IsSchedule, IsInOrder};
ghost use Rattle.black_box.specs.Outcomes.{Outcome, IsOutcome};
ghost use Rattle.black_box.specs.Files.{Holds};

/// The schedule of releases, where the slots of the first epoch lie q cycles apart and t is the limit. Both are
/// at least 1.
///
/// `few`: any list of runs shows at most (t + 1) ^ b different lists of releases, where b counts the binary
/// digits of t.
///
/// `one`: each run has one list of releases.
///
/// `in_order`: the releases are those of the first events, in their order, and none comes before its event is
/// ready.
pub fn few_release_lists()
    ensures few { (q t : ℕ) → 0 < q → 0 < t → (runs lists : List (List ℕ)) → AllZip (IsSchedule q t) runs lists →
        (same : List ℕ → List ℕ → Bool) → Tests same → distinct_count same lists ≤ box_bound t }
    ensures one { (q t : ℕ) → 0 < q → (ready : List ℕ) →
        (rs : List ℕ) × IsSchedule q t ready rs × ((others : List ℕ) → IsSchedule q t ready others → others ≡ rs) }
    ensures in_order { (q t : ℕ) → 0 < q → (ready rs : List ℕ) → IsSchedule q t ready rs → IsInOrder ready rs }
{}

/// A list of runs has one list of outcomes.
pub fn one_list_of_outcomes()
    ensures { (q t : ℕ) (runs : List (List ℕ)) (outcomes others : List Outcome)
        → AllZip (IsOutcome q t) runs outcomes → AllZip (IsOutcome q t) runs others → outcomes ≡ others }
{}

/// A file holds one list of runs.
pub fn one_list_of_runs()
    ensures { (bytes : List ℕ) (runs others : List (List ℕ)) → Holds bytes runs → Holds bytes others → runs ≡ others }
{}
