// What follows from the outcomes of all lanes.
ghost use Rattle.std.specs.Prelude.{◌≡◌, ◌≤◌, ℕ, vec_len, vec_capacity, MatchResult, map, List, IsPermutation};
ghost use Rattle.std.specs.List.Sorted.{IsNonDecreasingBy};
ghost use Rattle.copy_workers.specs.declared.receipt.Outcome.{Outcome};
ghost use Rattle.copy_workers.specs.Works.{ended};
ghost use Rattle.location_cache.specs.Rule.{once_to};
ghost use Rattle.copy_workers.specs.Outcomes.{outcome_of, IsFirstFault};

use crate::conclude::conclude;
use crate::receipt::{JobFault, Outcome, Receipt};

/// Puts the outcomes in the order of their jobs: the receipts, or the first that is a failure.
pub(crate) fn settle(
    mut outcomes: Vec<Outcome>,
    receipts: Vec<Receipt>,
) -> Result<Vec<Receipt>, JobFault>
    requires empty { vec_len receipts ≡ 0 }
    requires once { (last : ℕ) × (last ≤ vec_capacity receipts)
        × ((job : ℕ) → ended job outcomes.items ≡ once_to last job) }
    ensures { (sorted : List Outcome) × IsPermutation outcomes.items sorted
        × IsNonDecreasingBy (λ o. o.job) sorted
        × MatchResult result (λ all. sorted ≡ map outcome_of all.items) (IsFirstFault sorted) }
{
    outcomes.sort_unstable_by_key(
        |o: &Outcome| -> u32
            ensures { result ≡ o.entry.now.job }
        { o.job },
    );
    conclude(outcomes, receipts)
}
