// What the choice of points comes to when the legs that were not tested count as good.
ghost use Rattle.std.specs.Prelude.{◌*◌, ◌≤◌, length};
ghost use Rattle.point_choice.specs.Cuts.{FewestAnswers};
ghost use Rattle.point_choice.specs.NotTested.{GoodOrNotTested, Hoped};

use crate::{POSITIONS, fewest_legs};

// Gives 1 to the legs that were not tested, row by row.
fn hope_rows(table: &mut [u8], n: usize, tests: usize)
    requires { (n ≤ 64) × (65 * n ≤ length table.old) }
    ensures { Hoped n tests table.old table.new }
{
    let mut left = tests;
    for i in 0..n {
        let row = POSITIONS * i;
        let end = i + left.min(n - i);
        table[row + end + 1..row + n + 1].fill(1);
        left -= end - i;
    }
}

// How many legs the route to take has when the legs that were not tested count as good, or `None` where there is none even so. The table is overwritten:
// those legs get 1.
pub fn hoped_legs(table: &mut [u8], n: usize, tests: usize) -> Option<usize>
    requires { (n ≤ 64) × (65 * n ≤ length table.old) }
    ensures fewest { FewestAnswers (GoodOrNotTested n tests table.old) n result }
    ensures hoped { Hoped n tests table.old table.new }
{
    hope_rows(table, n, tests);
    fewest_legs(table, n)
}
