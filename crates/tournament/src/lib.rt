// The least of n numbers, kept while they change one at a time: a tournament, each node of which is the lesser of the two below it.
#![tactic(auto)]

ghost use Rattle.std.specs.Prelude.{◌/◌, ◌≤◌, ◌<◌, length};
ghost use Rattle.tournament.specs.Tournament.{entries, Tournament, Entered, Least};

// Entry e becomes v, and each node above it, from the lowest up to one that stays as it is, the lesser of the two below it.
pub fn set(tree: &mut [u32], e: usize, v: u32)
    requires { Tournament tree.old × (e < length tree.old / 2) }
    ensures { Entered tree.old e v tree.new }
{
    let mut i = tree.len() / 2 + e;
    tree[i] = v;
    // a way up by halves, which no range goes
    while 1 < i {
        i /= 2;
        let m = tree[2 * i].min(tree[2 * i + 1]);
        if tree[i] == m {
            return;
        }
        tree[i] = m;
    }
}

// The least entry.
pub fn least(tree: &[u32]) -> u32
    requires { Tournament tree.now × (2 ≤ length tree.now) }
    ensures { Least (entries tree.now) result }
{
    tree[1]
}
