// The writer's choice of points: where a stretch of `n` lines is cut into good legs. Number 65 * i + j of a table is 1 where the leg from
// position `i` to position `j` is good.
#![tactic(auto)]

ghost use Rattle.std.specs.Prelude.{◌+◌, ◌*◌, ◌≤◌, ◌<◌, length};
ghost use Rattle.point_choice.specs.Cuts.{GoodIn, FirstCut, TellsFewest, FewestAnswers, CutAnswers};

pub mod untested;

// The greatest count of a stretch's positions: one more than of its lines.
const POSITIONS: usize = 65;

// The count of legs where there is no route: more than any route has, so that two counts compare as numbers.
const NO_ROUTE: usize = 65;

// Where the first leg of the route to take ends, and how many legs it has: `NO_ROUTE` where there is none.
#[derive(Clone, Copy)]
struct Next {
    to: usize,
    legs: usize,
}

// The first leg from `i`, given how many legs it takes from each later position. Of equal ones the longest is taken.
fn first_cut(good: &[u8], n: usize, best: &[usize; POSITIONS], i: usize) -> Next
    requires i_lt_n { (i < n) × (n ≤ 64) × (65 * n ≤ length good.now) }
    requires tells_fewest { TellsFewest (GoodIn good.now) n best.now (i + 1) }
    ensures { FirstCut (GoodIn good.now) n i result.to result.legs }
{
    let mut to = i;
    let mut least = 64;
    for j in i + 1..n + 1 {
        let after = best[j];
        if good[POSITIONS * i + j] == 1 {
            if after <= least {
                to = j;
                least = after;
            }
        }
    }
    let legs = least + 1;
    Next { to, legs }
}

// How many legs it takes from each position.
fn fewest(good: &[u8], n: usize) -> [usize; POSITIONS]
    requires { (n ≤ 64) × (65 * n ≤ length good.now) }
    ensures { TellsFewest (GoodIn good.now) n result 0 }
{
    let mut best = [NO_ROUTE; POSITIONS];
    best[n] = 0;
    for i in (0..n).rev() {
        best[i] = first_cut(good, n, &best, i).legs;
    }
    best
}

// How many legs the route to take has, or `None` where there is none.
fn fewest_legs(good: &[u8], n: usize) -> Option<usize>
    requires { (n ≤ 64) × (65 * n ≤ length good.now) }
    ensures { FewestAnswers (GoodIn good.now) n result }
{
    let legs = fewest(good, n)[0];
    if legs == NO_ROUTE { None } else { Some(legs) }
}

// How many legs the route to take has, or `None` where there is none: `cuts` gets 0 and then where each leg ends.
pub fn choose(good: &[u8], n: usize, cuts: &mut [u32]) -> Option<usize>
    requires { (n ≤ 64) × (65 * n ≤ length good.now) × (n < length cuts.old) }
    ensures { CutAnswers (GoodIn good.now) n result cuts.old cuts.new }
{
    let best = fewest(good, n);
    if best[0] == NO_ROUTE {
        return None;
    }
    cuts[0] = 0;
    let mut i = 0;
    let mut k = 0;
    // A walk along the route, by steps as long as its legs.
    while i < n {
        i = first_cut(good, n, &best, i).to;
        k += 1;
        cuts[k] = i as u32;
    }
    Some(k)
}
