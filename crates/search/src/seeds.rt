// How a search begins: the lines that ways may begin with are reached, each at its own length.
ghost use Rattle.std.specs.Prelude.{◌≡◌, ℕ, ◌≤◌, ◌<◌, length};
ghost use Rattle.model.specs.Map.{greatest_line_count, Map};
ghost use Rattle.model.specs.Work.{work_length};
ghost use Rattle.search_cells.specs.Area.{far, length_to, queued};
ghost use Rattle.way_lengths.specs.Ways.{node, Begins};
ghost use Rattle.relaxation.specs.Underway.{Task, task};
ghost use Rattle.search.specs.Seeds.{Seeding, Seeded, InsertedSeed, SeededNode};

use search_cells::adjacency::{first_leaving, next_leaving};
use search_cells::cells::key_of;
use search_cells::list::{ReachedLines, insert, put, sends};
use work_area::{FRC, LENGTH, QUEUE, field};

// Puts a line into the queue that ends at `end`, by its length, before all that are farther. The first of them may be.
fn insert_seed(work: &mut [u32], end: usize, key: u32)
    requires { (end < greatest_line_count) × (work_length ≤ length work.old) }
    ensures { InsertedSeed end key work.old work.new }
{
    if end == 0 {
        work[QUEUE] = key;
        return;
    }
    let head = work[QUEUE];
    if head <= key {
        insert(work, end, key);
        return;
    }
    work[QUEUE] = key;
    insert(work, end, head);
}

// Reaches line `j` where its class and its length allow that: the list and the queue now.
pub fn seed(
    work: &mut [u32],
    lines: usize,
    j: usize,
    list: ReachedLines,
    class: u32,
    limit: u32,
) -> ReachedLines
    requires j_lt_lines { j < lines }
    requires seeding { (q : Task) × Seeding q lines class limit list.count list.end work.old × (far ≤ length_to work.old j) }
    ensures { (q : Task) → Seeding q lines class limit list.count list.end work.old → far ≤ length_to work.old j
        → Begins q.map q.from j → Seeded q lines class limit j work.old work.new result.count result.end }
{
    if class < field(work, j, FRC) {
        return list;
    }
    let length = field(work, j, LENGTH);
    if limit < length {
        return list;
    }
    put(work, j, 0, length, list.count);
    let count = list.count + 1;
    if !sends(work, lines, j, length, limit) {
        return ReachedLines {
            count,
            end: list.end,
        };
    }
    insert_seed(work, list.end, key_of(length, j));
    ReachedLines {
        count,
        end: list.end + 1,
    }
}

// Reaches each line that leaves node `v`, where its class and its length allow that. No line is reached before.
pub fn seed_node(work: &mut [u32], lines: usize, v: usize, class: u32, limit: u32) -> ReachedLines
    requires { (m : Map) × Seeding (task m (node v)) lines class limit 0 0 work.old × (v < length m.nodes) }
    ensures { (m : Map) → Seeding (task m (node v)) lines class limit 0 0 work.old → v < length m.nodes
        → SeededNode m lines class v limit work.old work.new result.count result.end }
{
    let mut list = ReachedLines { count: 0, end: 0 };
    let mut at = first_leaving(work, lines, v);
    while 0 < at {
        list = seed(work, lines, at - 1, list, class, limit);
        at = next_leaving(work, lines, at);
    }
    list
}
