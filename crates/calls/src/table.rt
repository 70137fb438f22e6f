// Tests 3 and 10: a table keeps the rules, and every data symbol is a member of at least two equations of its layer.
ghost use Rattle.std.specs.Prelude.{◌≡◌};
ghost use Rattle.calls.specs.Tests.{table_stop, cover_stop, words_tested};

use crate::Stop;
use coverage::Uncovered;
use parity_table::TableError;
use table_reader::read;

impl From<TableError> for Stop {
    ghost from_gives = { λ e s. s ≡ table_stop e };

    fn from(e: TableError) -> Stop {
        match e {
            TableError::Depth => Stop::Depth,
            TableError::Length => Stop::Length,
            TableError::Wrong(i) => Stop::Table(i),
        }
    }
}

impl From<Uncovered> for Stop {
    ghost from_gives = { λ u s. s ≡ cover_stop u };

    fn from(u: Uncovered) -> Stop {
        Stop::Uncovered {
            layer: u.layer,
            symbol: u.symbol,
        }
    }
}

// Checks a table of this depth, as words: tests 1, 3, 10.
pub fn check_words(ws: &[u32], depth: usize) -> Result<(), Stop>
    ensures { result ≡ words_tested depth ws.now }
{
    read(ws, depth)?;
    coverage::check(ws, depth)?;
    Ok(())
}
