// How many fact references a test has.
ghost use Rattle.std.specs.Prelude.{◌≡◌, ◌+◌, ◌-◌, ◌^◌, length, min};
ghost use Rattle.cpe_rows.specs.Prelude.{fact_names};

use cpe_rows::Test;

// The number plus the number of fact references of a test, or the largest number if the sum is above it.
pub(crate) fn with_facts_of(test: &Test, number: usize) -> usize
    ensures { result ≡ min (number + length (fact_names test.now)) (2 ^ 64 - 1) }
{
    match test {
        Test::Logic { of, .. } => {
            let mut sum = number;
            for child in of.as_slice() {
                sum = with_facts_of(child, sum);
            }
            sum
        }
        Test::Fact(_) => number.saturating_add(1),
        Test::Check(_) => number,
    }
}
