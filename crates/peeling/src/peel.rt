// (b): "Take the lowest unused equation with at most one absent member." It is the first of the order, which has those before a cursor, or else
// the next from the cursor on. A turn changes the order only at the equation itself and at those that have the symbol that it stored.
ghost use Rattle.std.specs.Prelude.{◌≡◌, List, ℕ, ◌+◌, ◌^◌, ◌≤◌, length};
ghost use Rattle.model.specs.Shape.{Shape, Hangs};
ghost use Rattle.model.specs.Repair.{peel};
ghost use Rattle.symbol_hash.specs.SymbolHash.{symbol_hash};
ghost use Rattle.peeling.specs.Levels.{Peelable, Reads};
ghost use Rattle.peeling.specs.States.{Came, Kept, gain_of};

use crate::search::{lower, past, pick};
use crate::{Refutation, Run};
use equation::{Turn, take};
use symbol_hash::Kind;

// What a turn at equation e came to: the symbol that it stored, if any, or what refutes the layer.
fn gain(turn: Turn, e: usize) -> Result<Option<usize>, Refutation>
    ensures { result ≡ gain_of e turn }
{
    match turn {
        Turn::Used => Ok(None),
        Turn::Stored(x) => Ok(Some(x)),
        Turn::Fault { withheld, size } => Err(Refutation::Fault {
            equation: e,
            withheld,
            size,
        }),
        Turn::Twins(x) => Err(Refutation::Twins(x)),
    }
}

// Peels layer j, whose equations' members start at the entries of starts from number `from` on, with so many symbols stored before. It has as many
// equations as there are entries of used. Where none can be taken any more, absent and order are right for another call.
pub fn peel_layer(
    kind: Kind,
    root: &[u8],
    words: &[u32],
    starts: &[usize],
    from: usize,
    last: &[u32],
    next: &[u32],
    tree: &mut [u8],
    marks: &mut [u8],
    out: &mut [u8],
    used: &mut [u8],
    absent: &mut [u8],
    order: &mut [u32],
    j: usize,
    mut stored: usize,
) -> Run
    requires { Peelable root.now words.now starts.now last.now next.now tree.old marks.old out.old used.old absent.old
        order.old from j × (stored ≤ 2 ^ 20) }
    ensures { ((S : Shape) → Hangs S j → (tbl : List (List (List ℕ)))
        → Reads tbl words.now starts.now from j (length used.old)
        → Came (peel S (symbol_hash kind) root.now tbl j (length used.old)) j tree.old
        marks.old out.old used.old tree.new marks.new out.new used.new
        stored result.stored result.outcome)
        × (result.stored ≤ stored + length used.old)
        × Kept words.now starts.now from j marks.new used.new absent.new order.new
        result.outcome }
{
    let mut at = 0;
    while let Some(e) = pick(used, absent, order, at) {
        at = past(at, e);
        let number = from + e;
        let turn = take(
            kind, root, words, starts, number, tree, marks, out, used, j, e,
        );
        match gain(turn, e) {
            Ok(None) => {}
            Ok(Some(x)) => {
                stored += 1;
                lower(last, next, used, absent, order, at, x);
            }
            Err(found) => {
                return Run {
                    stored,
                    outcome: Err(found),
                };
            }
        }
    }
    Run {
        stored,
        outcome: Ok(()),
    }
}
