// How a search goes on from the line at a place of its queue. A leaving line needs the nearest line that may turn into it, and one more for a tie: so most
// lines that end at a node have nothing to do there, and of the others only the first two, and the free one, go along all lines that leave it.
#![tactic(auto)]

ghost use Rattle.std.specs.Prelude.{◌≡◌, length, ℕ, ◌+◌, ◌≤◌, ◌<◌, None, Some, MatchOption};
ghost use Rattle.std.specs.Option.{ForSome};
ghost use Rattle.work_area.specs.Area.{last_barred_from, search_to, ban_chain};
ghost use Rattle.model.specs.Map.{greatest_ban_count, Map};
ghost use Rattle.model.specs.Work.{work_length};
ghost use Rattle.search_cells.specs.Area.{Mirrored, Chained};
ghost use Rattle.buffers.specs.Kept.{Kept};
ghost use Rattle.relaxation.specs.Underway.{Task, Underway};
ghost use Rattle.expansion.specs.Steps.{NoteFor, GoesOn, GoneBefore, PairBefore, Marks, WalksBegun, Starts, WalkLine, WalkNext, Sets, Walked, Expanded};

use banned_turns::bans_from;
use buffers::wide;
use relaxation::{Going, relax};
use search_cells::adjacency::{first_leaving, next_leaving};
use search_cells::cells::{
    KEY_WEIGHT, LIST_WEIGHT, MARK_WEIGHT, MIRROR_END, SEVERAL, key_of, length_to, line_of,
};
use search_cells::list::ReachedLines;
use work_area::{BAN_EARLIER, BAN_SECONDS, HEADS, LAST_BARRED, NEXT, QUEUE, field};

// Two lines with banned turns that end at one node.
#[derive(Clone, Copy)]
pub struct Pair {
    pub one: usize,
    pub other: usize,
}

// What is noted at the lines that follow line `l`, whose banned turns are `chain`: the line, or that several are as near; or 0 where it has nothing to
// do, since a nearer free line that ends at the same node has gone on.
fn note_for(work: &[u32], lines: usize, l: usize, chain: usize) -> u32
    requires l_lt_lines { l < lines }
    requires mirrored { (m : Map) × Mirrored work.now lines m }
    ensures { (m : Map) → Mirrored work.now lines m → NoteFor m l chain work.now result }
{
    let v = wide(field(work, l, MIRROR_END));
    let x = work[HEADS + v] / LIST_WEIGHT;
    let own = (l + 1) as u32;
    if x == 0 {
        return own;
    }
    if x == own {
        return own;
    }
    let nearest = wide((x - 1) % KEY_WEIGHT);
    if length_to(work, nearest) < length_to(work, l) {
        return 0;
    }
    if chain != 0 {
        return own;
    }
    if x < SEVERAL { own } else { SEVERAL }
}

// The line at place `place` of the queue, as the search goes on from it.
fn going_at(work: &[u32], lines: usize, place: usize) -> Going
    requires { (q : Task) × (class limit count end : ℕ) × Underway q lines class limit place count end work.now × (place < end) }
    ensures { (q : Task) (class limit count end : ℕ) → Underway q lines class limit place count end work.now → place < end
        → GoesOn q.map lines place work.now result }
{
    let line = line_of(work[QUEUE + place]);
    let length = length_to(work, line);
    let chain = bans_from(work, lines, line);
    let note = note_for(work, lines, line, chain);
    Going {
        line,
        length,
        chain,
        note,
    }
}

// Where a line begins to go on: along the turns that are banned from the other line, where there is one; or along the lines that leave its end, 1 + the
// first or 0, where it has something to do.
fn walk_start(work: &[u32], lines: usize, going: Going, other: Option<usize>) -> usize
    requires line_lt_lines { (going.line < lines) × ForSome other (λ o. o < lines) }
    requires mirrored { (m : Map) × Mirrored work.now lines m × Chained work.now lines m }
    ensures { (m : Map) → Mirrored work.now lines m → Chained work.now lines m
        → Starts m lines going.line going.note other result }
{
    if let Some(o) = other {
        return bans_from(work, lines, o);
    }
    if going.note == 0 {
        return 0;
    }
    first_leaving(work, lines, wide(field(work, going.line, MIRROR_END)))
}

// The line at `at` of such a walk.
fn walk_line(work: &[u32], other: Option<usize>, at: usize) -> usize
    requires { (0 < at) × ForSome other (λ o. at ≤ greatest_ban_count) × (work_length ≤ length work.now) }
    ensures { WalkLine work.now other at result }
{
    if other.is_some() {
        wide(work[BAN_SECONDS + (at - 1)])
    } else {
        at - 1
    }
}

// Where the walk goes on behind `at`.
fn walk_next(work: &[u32], lines: usize, other: Option<usize>, at: usize) -> usize
    requires at_nonzero { (0 < at) × ForSome other (λ o. at ≤ greatest_ban_count) × (other ≡ None → at ≤ lines) }
    requires mirrored { (m : Map) × Mirrored work.now lines m × Chained work.now lines m }
    ensures { (m : Map) → Mirrored work.now lines m → Chained work.now lines m
        → WalkNext m work.now other at result }
{
    if other.is_some() {
        wide(work[BAN_EARLIER + (at - 1)])
    } else {
        next_leaving(work, lines, at)
    }
}

// Goes on from a line to each line of a walk that can follow it: the list and the queue now. There is one loop for both walks, with one call of `relax`.
fn walk(
    work: &mut [u32],
    lines: usize,
    going: Going,
    other: Option<usize>,
    list: ReachedLines,
    class: u32,
    limit: u32,
) -> ReachedLines
    requires other_lt_lines { ForSome other (λ o. o < lines) }
    requires by_index { (q : Task) × (place : ℕ) × Underway q lines class limit place list.count list.end work.old
        × Sets q.map lines place list.end going other work.old }
    ensures { (q : Task) (place : ℕ) → Underway q lines class limit place list.count list.end work.old
        → Sets q.map lines place list.end going other work.old
        → Walked q lines class limit place going other work.old work.new result.count result.end }
{
    let mut at = walk_start(work, lines, going, other);
    let mut reached = list;
    while 0 < at {
        let j = walk_line(work, other, at);
        reached = relax(work, lines, going, j, reached, class, limit);
        at = walk_next(work, lines, other, at);
    }
    reached
}

// Line `x - 1`, if there is one, has banned turns, ends where line `l` does, and stands before the key `key` in the queue: then the search has gone on from
// it.
fn gone_before(work: &[u32], lines: usize, l: usize, key: u32, x: usize) -> Option<usize>
    requires { (l < lines) × ((m : Map) × Mirrored work.now lines m) }
    ensures { (m : Map) → Mirrored work.now lines m
        → MatchOption result ((o : ℕ) → x ≡ o + 1 → GoneBefore m lines l key work.now o → ⊥) (λ o. (x ≡ o + 1) × GoneBefore m lines l key work.now o) }
{
    let other = x.checked_sub(1)?;
    if lines <= other {
        return None;
    }
    if field(work, other, MIRROR_END) != field(work, l, MIRROR_END) {
        return None;
    }
    if bans_from(work, lines, other) == 0 {
        return None;
    }
    let own = key_of(length_to(work, other), other);
    if key <= own {
        return None;
    }
    Some(other)
}

// Two lines that have gone on before line `l`, whose key is `key`, from the same node, if the node's cell has them. What else stands there is no harm.
fn pair_before(work: &[u32], lines: usize, l: usize, key: u32) -> Option<Pair>
    requires { (l < lines) × ((m : Map) × Mirrored work.now lines m) }
    ensures { (m : Map) → Mirrored work.now lines m → ForSome result (λ p. PairBefore m lines l key work.now p) }
{
    let cell = work[LAST_BARRED + wide(field(work, l, MIRROR_END))];
    let one = gone_before(work, lines, l, key, wide(cell % LIST_WEIGHT))?;
    let other = gone_before(work, lines, l, key, wide(cell / LIST_WEIGHT))?;
    if one == other {
        return None;
    }
    Some(Pair { one, other })
}

// Keeps line `l` in the cell of the node where it ends, and the last one that was kept there.
fn keep_last(work: &mut [u32], lines: usize, l: usize)
    requires { (l < lines) × ((m : Map) × Mirrored work.old lines m) }
    ensures { Kept last_barred_from search_to work.old work.new }
{
    let at = LAST_BARRED + wide(field(work, l, MIRROR_END));
    work[at] = work[at] % LIST_WEIGHT * LIST_WEIGHT + (l + 1) as u32;
}

// Line `l`, whose banned turns are `chain`, marks the lines that they lead into. So a look at one line tells whether the turn into it is banned.
fn mark_bans(work: &mut [u32], lines: usize, l: usize, chain: usize)
    requires { (l < lines) × ((m : Map) × Mirrored work.old lines m × (chain ≡ ban_chain m.bans l)) }
    ensures { (m : Map) → Mirrored work.old lines m → chain ≡ ban_chain m.bans l
        → Marks m lines l work.old work.new }
{
    let mut x = chain;
    while 0 < x {
        let at = NEXT + wide(work[BAN_SECONDS + (x - 1)]);
        work[at] = work[at] % MARK_WEIGHT + MARK_WEIGHT * l as u32;
        x = wide(work[BAN_EARLIER + (x - 1)]);
    }
}

// What a line does before its walks. One with banned turns that has something to do marks the lines that it may not turn into, and gives two such lines
// that have gone on before it from the same node: only the turns that are banned from one of them are left for it. Any other gives none.
fn begin_walks(work: &mut [u32], lines: usize, place: usize, going: Going) -> Option<Pair>
    requires { (q : Task) × (class limit count end : ℕ) × Underway q lines class limit place count end work.old × (place < end)
        × GoesOn q.map lines place work.old going }
    ensures { (q : Task) (class limit count end : ℕ) → Underway q lines class limit place count end work.old → place < end
        → GoesOn q.map lines place work.old going → WalksBegun q.map lines place going work.old work.new result }
{
    if going.chain == 0 {
        return None;
    }
    if going.note == 0 {
        return None;
    }
    let key = work[QUEUE + place];
    let pair = pair_before(work, lines, going.line, key);
    keep_last(work, lines, going.line);
    mark_bans(work, lines, going.line, going.chain);
    pair
}

// How many walks a line goes: one along its node, or one for each line of a pair.
fn walks(pair: Option<Pair>) -> usize
    ensures { MatchOption pair (result ≡ 1) (λ p. result ≡ 2) }
{
    if pair.is_some() { 2 } else { 1 }
}

// Along whose banned turns walk `i` is, if along any.
fn walk_of(pair: Option<Pair>, i: usize) -> Option<usize>
    ensures { MatchOption pair (result ≡ None) (λ p. (i ≡ 0 → result ≡ Some p.one) × (0 < i → result ≡ Some p.other)) }
{
    let Pair { one, other } = pair?;
    Some(if i == 0 { one } else { other })
}

// Goes on from the line at place `place` of the queue: the list and the queue now. There is one call of `walk`, so that its machine code stands here.
pub fn expand(
    work: &mut [u32],
    lines: usize,
    place: usize,
    list: ReachedLines,
    class: u32,
    limit: u32,
) -> ReachedLines
    requires place_lt_end { place < list.end }
    requires underway { (q : Task) × Underway q lines class limit place list.count list.end work.old }
    ensures { (q : Task) → Underway q lines class limit place list.count list.end work.old
        → Expanded q lines class limit place work.old work.new result.count result.end }
{
    let going = going_at(work, lines, place);
    let pair = begin_walks(work, lines, place, going);
    let mut reached = list;
    for i in 0..walks(pair) {
        reached = walk(work, lines, going, walk_of(pair, i), reached, class, limit);
    }
    reached
}
