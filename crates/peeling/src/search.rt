// The next equation to take: for each equation the number of its absent members, a cursor that goes over the equations once, and in a tournament those
// before the cursor that are unused and have at most one. A stored symbol changes only the equations that it stands in.
ghost use Rattle.std.specs.Prelude.{◌≡◌, List, ℕ, ◌+◌, ◌-◌, ◌*◌, ◌^◌, ◌≤◌, ◌<◌, MatchOption, max, length, get_or, set};
ghost use Rattle.model.specs.Shape.{tree as shape};
ghost use Rattle.model.specs.Symbols.{count};
ghost use Rattle.model.specs.Repair.{absent_at};
ghost use Rattle.equation.specs.Rooms.{Marked, Stands, members_at};
ghost use Rattle.peeling.specs.Search.{Countable, Counted, Lowerable, Lowered, Next, Ordered, Over, Picked, Thread, ready};

use equation::count_absent;
use parity_table::index;
use tournament::{least, set};

// How many members of the equation that starts at starts[number] of the words are absent.
fn absent_in(words: &[u32], starts: &[usize], number: usize, marks: &[u8], j: usize) -> usize
    requires { Stands words.now starts.now number × Marked marks.now (members_at words.now starts.now number) j }
    ensures { result ≡ count (absent_at shape marks.now j) (members_at words.now starts.now number) }
{
    let at = starts[number];
    let end = at + index::count_members(words, at);
    count_absent(&words[at..end], marks, j)
}

// Fills absent for the equations that used has entries of, whose members start at the entries of starts from number `from` on, and empties the order:
// the cursor stands before them all.
pub fn prepare(
    words: &[u32],
    starts: &[usize],
    from: usize,
    marks: &[u8],
    used: &[u8],
    absent: &mut [u8],
    order: &mut [u32],
    j: usize,
)
    requires { Countable words.now starts.now from j (length used.now) marks.now × (length absent.old ≡ length used.now)
        × (length order.old ≡ 2 * length used.now) }
    ensures { Counted words.now starts.now from j (length used.now) marks.now absent.new
        × Ordered used.now absent.new 0 order.new }
{
    order.fill(used.len() as u32);
    for (e, left) in absent.iter_mut().enumerate() {
        *left = absent_in(words, starts, from + e, marks, j) as u8;
    }
}

// Whether equation e is unused and has at most one absent member.
fn is_ready(used: &[u8], absent: &[u8], e: usize) -> bool
    requires { (e < length used.now) × (length absent.now ≡ length used.now) }
    ensures { result ≡ ready used.now absent.now e }
{
    used[e] == 0 && absent[e] <= 1
}

// The lowest such equation from `at` on.
fn next_ready(used: &[u8], absent: &[u8], at: usize) -> Option<usize>
    requires { (at ≤ length used.now) × (length absent.now ≡ length used.now) }
    ensures { Next used.now absent.now at result }
{
    (at..used.len()).find(|&e| is_ready(used, absent, e))
}

// The lowest equation that can be taken: one before the cursor `at`, which leaves the order, or else the next from there on.
pub fn pick(used: &[u8], absent: &[u8], order: &mut [u32], at: usize) -> Option<usize>
    requires { Ordered used.now absent.now at order.old × (length absent.now ≡ length used.now) × (1 ≤ length used.now)
        × (length used.now ≤ 2 ^ 30) × (at ≤ length used.now) }
    ensures { MatchOption result (Over used.now absent.now order.new) (λ e. Picked used.now absent.now at e order.new) }
{
    let n = used.len();
    let e = least(order) as usize;
    if n <= e {
        return next_ready(used, absent, at);
    }
    set(order, e, n as u32);
    Some(e)
}

// The cursor, once equation e is taken: past it. No `max`: one before the cursor leaves it as it is, and another takes it on.
pub fn past(at: usize, e: usize) -> usize
    requires { e < 2 ^ 30 }
    ensures { result ≡ max at (e + 1) }
{
    if e < at { at } else { e + 1 }
}

// Equation q has one absent member fewer. Where it is before the cursor and has one left, it enters the order; where it has none it was there already,
// unless it is used.
fn note(used: &[u8], absent: &mut [u8], order: &mut [u32], at: usize, q: usize)
    requires { Ordered used.now absent.old at order.old × (length absent.old ≡ length used.now) × (length used.now ≤ 2 ^ 30)
        × (q < length used.now) × (1 ≤ get_or absent.old q 0) }
    ensures { (absent.new ≡ set absent.old q (get_or absent.old q 0 - 1))
        × Ordered used.now absent.new at order.new }
{
    let left = absent[q] - 1;
    absent[q] = left;
    if left != 1 {
        return;
    }
    if at <= q {
        return;
    }
    if used[q] != 0 {
        return;
    }
    set(order, q, q as u32);
}

// Symbol x is absent no more: notes it in each equation that it stands in, along its thread through last and next.
pub fn lower(
    last: &[u32],
    next: &[u32],
    used: &[u8],
    absent: &mut [u8],
    order: &mut [u32],
    at: usize,
    x: usize,
)
    requires { Lowerable last.now next.now used.now absent.old order.old at x }
    ensures { Ordered used.now absent.new at order.new
        × ((words starts : List ℕ) (from : ℕ)
        → Thread words starts from (length used.now) last.now next.now x
        → Lowered words starts from (length used.now) x absent.old absent.new) }
{
    // each slot says the next: there is nothing to iterate over
    let mut slot = last[x] as usize;
    while 0 < slot {
        let s = slot - 1;
        note(used, absent, order, at, s / 8);
        slot = next[s] as usize;
    }
}
