// A table that the reader has accepted, with the place of each equation's members, so that each is reached at once.
ghost use Rattle.std.specs.Prelude.{◌≡◌, ◌*◌, ◌<◌};
ghost use Rattle.parity_table.specs.Shape.{k_of};
ghost use Rattle.parity_table.specs.Parse.{Indexed, table_of};
ghost use Rattle.parity_table.specs.Table.{equation_of};
ghost use Rattle.parity_table.specs.Accepted.{Accepted, Kept, accepted};

use crate::index;
use std::marker::Model;

// What a clause sees of it are its depth and its layers.
#[derive(Drop)]
pub struct Table<'a> {
    depth: usize,
    words: &'a [u32],
    starts: &'a [usize],
}

impl<'a> Model for Table<'a> {
    ghost Value = { Accepted };

    ghost view = { λ t. accepted t.depth (table_of t.words.now) };

    ghost invariant = { λ t. Indexed t.depth t.words.now t.starts.now };
}

impl<'a> Table<'a> {
    // The table of words that the reader has accepted, by their index.
    pub fn new(depth: usize, words: &'a [u32], starts: &'a [usize]) -> Table<'a>
        requires { Indexed depth words.now starts.now }
        ensures { result ≡ accepted depth (table_of words.now) }
    {
        Table {
            depth,
            words,
            starts,
        }
    }

    // The depth. Whoever asks for it learns that it is a tree's, and that the layers keep the rules of a table of this depth.
    pub fn depth(&self) -> usize
        ensures depth { result ≡ self.now.depth }
        ensures kept { Kept self.now }
    {
        self.depth
    }

    // The members of equation e of layer j.
    pub fn members(&self, j: usize, e: usize) -> &'a [u32]
        requires { (j < self.now.depth) × (e < 3 * k_of j) }
        ensures { result.now ≡ equation_of self.now.layers j e }
    {
        let s = index::equation(self.words, self.starts, j, e);
        let end = s.at + s.size;
        &self.words[s.at..end]
    }

    // The words, and where the members of each equation start in them.
    pub fn parts(&self) -> (&'a [u32], &'a [usize])
        ensures indexed { Indexed self.now.depth result.0.now result.1.now }
        ensures layers { table_of result.0.now ≡ self.now.layers }
    {
        (self.words, self.starts)
    }
}
