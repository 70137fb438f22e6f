// The table reader: word by word from the front, to the first wrong one.
#![tactic(auto)]

ghost use Rattle.std.specs.Prelude.{◌≡◌, ◌+◌, ◌*◌, ◌<◌, ◌≤◌, ◌^◌, eqb};
ghost use Rattle.parity_table.specs.Shape.{max_depth};
ghost use Rattle.parity_table.specs.Reader.{member_fits, read_of};
ghost use Rattle.table_reader.specs.Steps.{word_at, word_is, WordRead, MembersRead, EquationRead, EquationsRead, LayerRead, LayersRead, EndRead};

use parity_table::{END, EQUATION, LAYER, TableError, data_count, depth_fits};
use std::cmp::Ordering;

// Number x may be a member after count members, at least low, in an equation whose last is last. As one boolean expression it is compiled to no branches,
// and reading a table then takes half as long again.
fn member_fits(last: usize, count: usize, low: usize, x: usize) -> bool
    ensures { result ≡ member_fits last count low x }
{
    if x < low {
        return false;
    }
    match x.cmp(&last) {
        Ordering::Less => count < 7,
        Ordering::Equal => 0 < count,
        Ordering::Greater => false,
    }
}

// w is the word of value v of the kind whose words start at base.
fn is_word(w: u32, base: u32, v: usize) -> bool
    ensures { result ≡ eqb w (base + v) }
{
    base <= w && (w - base) as usize == v
}

// A table's list of words together with the place of the next one.
#[derive(Clone, Copy)]
pub struct TableReader<'a> {
    pub words: &'a [u32],
    pub at: usize,
}

// Each part of a table is read from the next word on. Where its words fit, the reader then stands past them; else the error is the first wrong word,
// or the number of words of a list that is short.
impl<'a> TableReader<'a> {
    // The next word.
    fn next(&self) -> Option<u32>
        ensures { result ≡ word_at self.now.words.now self.now.at }
    {
        self.words.get(self.at).copied()
    }

    // The next word is that of value v of the kind whose words start at base.
    fn next_is(&self, base: u32, v: usize) -> bool
        ensures { result ≡ word_is self.now.words.now self.now.at (base + v) }
    {
        self.next().is_some_and(|w| is_word(w, base, v))
    }

    // The word of value v of the kind whose words start at base.
    fn word(&mut self, base: u32, v: usize) -> Result<(), TableError>
        ensures same { self.new.words ≡ self.old.words }
        ensures read { WordRead self.old.words.now self.old.at (base + v) self.new.at result }
    {
        if !self.next_is(base, v) {
            return Err(TableError::Wrong(self.at));
        }
        self.at += 1;
        Ok(())
    }

    // The members of an equation whose last member is last.
    fn members(&mut self, last: usize) -> Result<(), TableError>
        ensures same { self.new.words ≡ self.old.words }
        ensures read { MembersRead self.old.words.now self.old.at last self.new.at result }
    {
        let mut count: usize = 0;
        let mut low: usize = 0;
        loop {
            let Some(w) = self.next() else {
                return Err(TableError::Wrong(self.at));
            };
            let x = w as usize;
            if !member_fits(last, count, low, x) {
                return Err(TableError::Wrong(self.at));
            }
            self.at += 1;
            if x == last {
                return Ok(());
            }
            count += 1;
            low = x + 1;
        }
    }

    // Equation e of a layer with k data symbols.
    fn equation(&mut self, k: usize, e: usize) -> Result<(), TableError>
        requires { (k ≤ 4 * 2 ^ max_depth) × (e < 3 * k) }
        ensures same { self.new.words ≡ self.old.words }
        ensures read { EquationRead self.old.words.now self.old.at k e self.new.at result }
    {
        self.word(EQUATION, e)?;
        self.members(k + e)
    }

    // The equations of a layer with k data symbols.
    fn equations(&mut self, k: usize) -> Result<(), TableError>
        requires { k ≤ 4 * 2 ^ max_depth }
        ensures same { self.new.words ≡ self.old.words }
        ensures read { EquationsRead self.old.words.now self.old.at k self.new.at result }
    {
        for e in 0..3 * k {
            self.equation(k, e)?;
        }
        Ok(())
    }

    // Layer j.
    fn layer(&mut self, j: usize) -> Result<(), TableError>
        requires { j < max_depth }
        ensures same { self.new.words ≡ self.old.words }
        ensures read { LayerRead self.old.words.now self.old.at j self.new.at result }
    {
        self.word(LAYER, j)?;
        self.equations(data_count(j))
    }

    // All layers of a table of this depth.
    fn layers(&mut self, depth: usize) -> Result<(), TableError>
        requires { depth ≤ max_depth }
        ensures same { self.new.words ≡ self.old.words }
        ensures read { LayersRead self.old.words.now self.old.at depth self.new.at result }
    {
        for j in 0..depth {
            self.layer(j)?;
        }
        Ok(())
    }

    // The end word, and nothing after it.
    fn end(&mut self) -> Result<(), TableError>
        ensures { EndRead self.old.words.now self.old.at result }
    {
        self.word(END, self.at)?;
        if self.at < self.words.len() {
            return Err(TableError::Wrong(self.at));
        }
        Ok(())
    }
}

// Reads a table of this depth.
pub fn read(ws: &[u32], depth: usize) -> Result<(), TableError>
    ensures { result ≡ read_of depth ws.now }
{
    if !depth_fits(depth) {
        return Err(TableError::Depth);
    }
    let mut reader = TableReader { words: ws, at: 0 };
    reader.layers(depth)?;
    reader.end()
}
