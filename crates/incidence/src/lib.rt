// For each symbol of a layer, the equations that it stands in: lists threaded through the slots of the equations' members.
#![tactic(auto)]

ghost use Rattle.std.specs.Prelude.{◌+◌, length};
ghost use Rattle.incidence.specs.Incidence.{Threadable, Threaded};

use parity_table::index;

// Equation e follows the ones before it: the slot of each of its members leads to the last one that held the symbol, and is now the last one itself.
fn add_equation(
    words: &[u32],
    starts: &[usize],
    from: usize,
    e: usize,
    last: &mut [u32],
    next: &mut [u32],
)
    requires { Threadable words.now starts.now from (e + 1) (length last.old) (length next.old) × Threaded words.now starts.now from e last.old next.old }
    ensures { Threaded words.now starts.now from (e + 1) last.new next.new }
{
    let at = starts[from + e];
    let size = index::count_members(words, at);
    let members = &words[at..at + size];
    for (i, &x) in members.iter().enumerate() {
        let y = x as usize;
        let s = 8 * e + i;
        next[s] = last[y];
        last[y] = (s + 1) as u32;
    }
}

// Fills last and next for n equations, whose members start at the entries of starts from number `from` on: entry x of last is the last slot that holds
// symbol x, and the entry in next of a slot that holds x is the one before it, each counted from 1, and 0 where there is none.
pub fn fill(
    words: &[u32],
    starts: &[usize],
    from: usize,
    n: usize,
    last: &mut [u32],
    next: &mut [u32],
)
    requires { Threadable words.now starts.now from n (length last.old) (length next.old) }
    ensures { Threaded words.now starts.now from n last.new next.new }
{
    last.fill(0);
    for e in 0..n {
        add_equation(words, starts, from, e, last, next);
    }
}
