// What follows from the outcomes of jobs.
ghost use Rattle.std.specs.Prelude.{◌≡◌, ◌≤◌, vec_len, vec_capacity, MatchResult, map};
ghost use Rattle.copy_workers.specs.Outcomes.{outcome_of, IsFirstFault};

use crate::receipt::{JobFault, Outcome, Receipt};

#[tactic(auto, using(crate::proofs::Ends::one_more, crate::proofs::Ends::first_fault))]
/// The receipts of all outcomes, or the first that is a failure.
pub(crate) fn conclude(
    outcomes: Vec<Outcome>,
    mut receipts: Vec<Receipt>,
) -> Result<Vec<Receipt>, JobFault>
    requires empty { vec_len receipts ≡ 0 }
    requires room { vec_len outcomes ≤ vec_capacity receipts }
    ensures { MatchResult result (λ all. outcomes.items ≡ map outcome_of all.items) (IsFirstFault outcomes.items) }
{
    for outcome in outcomes {
        let Outcome { job, lane, end } = outcome;
        match end {
            Ok(how) => receipts.push(Receipt { job, lane, how }).unwrap(),
            Err(cause) => return Err(JobFault { job, cause }),
        }
    }
    Ok(receipts)
}
