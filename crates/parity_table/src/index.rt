// Where the equations of a table stand in its words, so that each is reached at once.
ghost use Rattle.std.specs.Prelude.{◌≡◌, ◌*◌, ◌≤◌, ◌<◌, length, drop, ltb};
ghost use Rattle.std.specs.List.{prefix_len};
ghost use Rattle.parity_table.specs.Shape.{max_depth, k_of};
ghost use Rattle.parity_table.specs.Table.{layer_word};
ghost use Rattle.parity_table.specs.Parse.{members_of, opens_equation, index_of, over, number_in, HasEquation, Located};

use crate::{WordKind, data_count};

// Where the members of an equation stand.
#[derive(Clone, Copy)]
pub struct Span {
    pub at: usize,
    pub size: usize,
}

// The word is a member.
fn is_member(word: u32) -> bool
    ensures { result ≡ ltb word (layer_word 0) }
{
    WordKind::of(word) == WordKind::Member
}

// The word opens an equation.
fn opens_equation(word: u32) -> bool
    ensures { result ≡ opens_equation word }
{
    WordKind::of(word) == WordKind::Equation
}

// Fills starts, from the front, with the place of the first member of each equation, in order.
pub fn fill(ws: &[u32], starts: &mut [usize])
    requires { length (index_of ws.now) ≤ length starts.old }
    ensures { starts.new ≡ over (index_of ws.now) starts.old }
{
    let mut found: usize = 0;
    for (i, &w) in ws.iter().enumerate() {
        if opens_equation(w) {
            starts[found] = i + 1;
            found += 1;
        }
    }
}

// How many members stand in front.
fn count_front(ws: &[u32]) -> usize
    ensures { result ≡ prefix_len (λ w. ltb w (layer_word 0)) ws.now }
{
    ws.iter().take_while(|&&w| is_member(w)).count()
}

// How many members stand from word at on.
pub fn count_members(ws: &[u32], at: usize) -> usize
    requires { at ≤ length ws.now }
    ensures { result ≡ length (members_of (drop at ws.now)) }
{
    count_front(&ws[at..])
}

// The number of equation e of layer j among all equations.
pub fn number_of(j: usize, e: usize) -> usize
    requires { (j < max_depth) × (e < 3 * k_of j) }
    ensures { result ≡ number_in j e }
{
    3 * (data_count(j) - data_count(0)) + e
}

// Equation e of layer j of an accepted table, by its index.
pub fn equation(ws: &[u32], starts: &[usize], j: usize, e: usize) -> Span
    requires { HasEquation ws.now starts.now j e }
    ensures { Located ws.now j e result.at result.size }
{
    let number = number_of(j, e);
    let at = starts[number];
    let size = count_members(ws, at);
    Span { at, size }
}
