// The repairer's core: 01, "Repair", layer by layer from the top, for a table and buffers that are known to be right.
#![tactic(auto)]

mod layer; // one layer: (a), (b), (c)

ghost use Rattle.std.specs.Prelude.{◌-◌, ◌≤◌};
ghost use Rattle.parity_table.specs.Shape.{k_of};
ghost use Rattle.parity_table.specs.Parse.{equations_above};
ghost use Rattle.repair.specs.Buffers.{Given, RoomFor};
ghost use Rattle.repair.specs.Reports.{Repaired};

use layer::repair_layer;
use parity_table::Table;
use symbol_hash::Kind;

// The lists of the search for the next equation of a layer: of each equation, whether it is used and how many members are absent; the order of the
// equations that can be taken; and the threads through the equations of each symbol.
#[derive(Drop)]
pub struct SearchLists<'a> {
    pub used: &'a mut [u8],
    pub absent: &'a mut [u8],
    pub order: &'a mut [u32],
    pub last: &'a mut [u32],
    pub next: &'a mut [u32],
}

// "The ends are: whole, fault, unavailable, twins."
#[derive(Clone, Copy, Debug, PartialEq, Eq)]
pub enum End {
    Whole,
    // the proof's layer, equation, withheld member and length
    Fault {
        layer: usize,
        equation: usize,
        withheld: usize,
        size: usize,
    },
    // the first incomplete layer
    Unavailable(usize),
    // the layer and number of the two symbols
    Twins {
        layer: usize,
        number: usize,
    },
}

// What a repair reports: the number of symbols stored, and its end.
#[derive(Clone, Copy, Debug, PartialEq, Eq)]
pub struct Report {
    pub stored: usize,
    pub end: End,
}

// Repairs a tree whose symbols are hashed by their volume's kind. What the lists for the search in a layer hold doesn't matter.
pub fn repair(
    kind: Kind,
    table: &Table,
    root: &[u8],
    lists: SearchLists,
    tree: &mut [u8],
    marks: &mut [u8],
    out: &mut [u8],
) -> Report
    requires { Given table.now.depth root.now tree.old marks.old out.old × RoomFor (k_of (table.now.depth - 1)) lists }
    ensures { Repaired kind root.now table.now.layers tree.old marks.old out.old
        tree.new marks.new out.new result.stored result.end
        × (result.stored ≤ equations_above table.now.depth) }
{
    let SearchLists {
        used,
        absent,
        order,
        last,
        next,
    } = lists;
    let depth = table.depth();
    let mut stored = 0;
    for j in 0..depth {
        let lists = SearchLists {
            used: &mut *used,
            absent: &mut *absent,
            order: &mut *order,
            last: &mut *last,
            next: &mut *next,
        };
        let passed = repair_layer(kind, table, root, lists, tree, marks, out, j, stored);
        stored = passed.stored;
        if let Some(end) = passed.end {
            return Report { stored, end };
        }
    }
    Report {
        stored,
        end: End::Whole,
    }
}
