// A place for a partition in the free runs: first, last or best; maximum sizes.
// Scope: module 6 (First, last, best place, maximum sizes); refusals 15, 16. Rules: Q.
// For callers: `places::find_first_place`, `find_last_place`, `find_optimal_place`; `sizes::get_maximum_…`.
#![tactic(auto)]

pub mod places;
pub mod sizes;

ghost use Rattle.std.specs.Prelude.{◌≡◌, [], ◌∷◌, ◌≤◌};
ghost use Rattle.table_free.specs.Free.{runs_in, most_runs};
ghost use Rattle.table_place.specs.Place.{roomy, chosen, preferred};

use table_free::{Run, Runs};

// Which of the runs that are long enough.
#[derive(Clone, Copy)]
pub enum Rule {
    First,
    Last,
    Smallest,
}

// The better of the best so far and a later run, if that is long enough.
#[tactic(auto, using(base::proofs::Tests::tests), unfolding(crate::specs::Place::roomy))]
fn better(rule: Rule, size: u32, best: Option<Run>, r: Run) -> Option<Run>
    ensures { result ≡ preferred rule best (roomy size (r ∷ [])) }
{
    if r.length < size {
        return best;
    }
    let Some(b) = best else {
        return Some(r);
    };
    match rule {
        Rule::First => Some(b),
        Rule::Last => Some(r),
        Rule::Smallest => {
            if r.length < b.length {
                return Some(r);
            }
            Some(b)
        }
    }
}

// The run that the rule takes of those that are long enough.
#[tactic(auto, using(crate::proofs::Laws::steps))]
pub fn spot_in(x: Runs, rule: Rule, size: u32) -> Option<Run>
    requires { x.count ≤ most_runs }
    ensures { result ≡ chosen rule (roomy size (runs_in x)) }
{
    let mut best = None;
    for r in &x.at[..x.count] {
        best = better(rule, size, best, *r);
    }
    best
}
