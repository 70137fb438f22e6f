// The absent members of an equation.
ghost use Rattle.std.specs.Prelude.{◌≡◌};
ghost use Rattle.std.specs.List.{find};
ghost use Rattle.model.specs.Shape.{tree as shape};
ghost use Rattle.model.specs.Symbols.{count};
ghost use Rattle.model.specs.Repair.{absent_at};
ghost use Rattle.equation.specs.Rooms.{Marked};

use coded_tree::first_place;

// How many of the members, symbols of layer j, are absent.
pub fn count_absent(members: &[u32], marks: &[u8], j: usize) -> usize
    requires { Marked marks.now members.now j }
    ensures { result ≡ count (absent_at shape marks.now j) members.now }
{
    let base = first_place(j);
    let mut n: usize = 0;
    // Not filter and count: that branches at each mark, where this adds the test's bit, and takes some five times as long where many are absent.
    for &y in members {
        if marks[base + y as usize] != 1 {
            n += 1;
        }
    }
    n
}

// The first absent one of the members.
pub fn first_absent(members: &[u32], marks: &[u8], j: usize) -> Option<usize>
    requires { Marked marks.now members.now j }
    ensures { result ≡ find (absent_at shape marks.now j) members.now }
{
    let base = first_place(j);
    members
        .iter()
        .map(|&y| y as usize)
        .find(|&y| marks[base + y] != 1)
}
