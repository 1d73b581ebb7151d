//! The bound on a ring's length.
ghost use Rattle.std.specs.Prelude.{◌≡◌, ◌≤◌};

use super::{Fault, Rule};

/// How many boats a ring may have at most: 2 to 16. No other bound can be made.
// A ghost field and no `impl Model`: a model's value would have to carry the same fact again.
#[derive(Clone, Copy, PartialEq, Eq, Debug)]
pub struct Bound {
    number: usize,
    ghost fits: { (2 ≤ number) × (number ≤ 16) },
}

/// The bound of that number, or the refusal of it.
impl TryFrom<usize> for Bound {
    type Error = Fault;

    ghost use Rattle.std.specs.Prelude.{◌≡◌};
    ghost use Rattle.std.specs.Result.{result_map_both};
    ghost use Rattle.exchange.specs.Bounds.{most_boats, bound_fault};
    ghost use Rattle.exchange.specs.Checks.{unless};

    ghost try_from_gives = { λ number r. result_map_both most_boats (λ f. f) r ≡ unless (bound_fault number) number };

    fn try_from(number: usize) -> Result<Bound, Fault> {
        if !(2..=16).contains(&number) {
            return Err(Rule::WrongBound.at(number));
        }
        Ok(Bound { number })
    }
}

impl Bound {
    ghost use Rattle.exchange.specs.Bounds.{most_boats};

    /// The bound as a number.
    pub fn number(self) -> usize
        ensures { result ≡ most_boats self }
    {
        self.number
    }
}
