// Tests 1 and 2, then those of a record and of a table. A call that is lent a table makes its words and index in buffers of its own.
ghost use Rattle.std.specs.Prelude.{◌≡◌, true, ◌&&◌, ◌≤◌, length, take, replicate};
ghost use Rattle.parity_table.specs.Parse.{index_of, over};
ghost use Rattle.calls.specs.Room.{Room, WordsRoom, stops_at_depth};
ghost use Rattle.table_bytes.specs.Bytes.{length_fits};
ghost use Rattle.calls.specs.Tests.{opened, headed, admitted, admitted_by, left, words_left, starts_left};

use crate::records::{test_head, test_named};
use crate::{Stop, check_words, numbers_of};
use parity_table::{depth_fits, index, is_deep};
use table_bytes::{MAX_WORDS, SHALLOW_WORDS, length_fits, words_from};

// Tests 1 and 2: `sized` says whether the call's own buffers have the lengths of this depth.
pub fn enter(depth: usize, sized: bool) -> Result<(), Stop>
    ensures { result ≡ opened depth sized }
{
    if !depth_fits(depth) {
        return Err(Stop::Depth);
    }
    if !sized {
        return Err(Stop::Length);
    }
    Ok(())
}

// Tests 1, 2, 11: `sized` says of the record too whether it has its length.
pub fn enter_by(depth: usize, sized: bool, root_record: &[u8]) -> Result<(), Stop>
    requires { sized ≡ true → length root_record.now ≡ 556 }
    ensures { result ≡ headed depth sized root_record.now }
{
    enter(depth, sized)?;
    test_head(depth, root_record)
}

// Tests 1, 2, 3, 10. The table's words go to the front of words, which is the call's own: those of a table that is refused stay there.
fn test_table(depth: usize, sized: bool, table: &[u8], words: &mut [u32]) -> Result<(), Stop>
    requires { WordsRoom depth words.old }
    ensures { (result ≡ admitted depth sized table.now)
        × (words.new ≡ words_left depth sized table.now words.old) }
{
    enter(depth, sized && length_fits(table.len()))?;
    let n = words_from(table, words);
    check_words(&words[..n], depth)
}

// Whether an answer is 1, at another depth than 0. Functions with large arrays asked it when they called themselves to stay out of other frames
// (docs/DECISIONS.md, "Arrays of deeper calls"); it is kept for who uses it.
#[tactic(auto, unfolding(crate::specs::Room::stops_at_depth))]
pub fn stops_at_depth(depth: usize, a: Result<(), Stop>) -> bool
    ensures { result ≡ stops_at_depth depth a }
{
    numbers_of(a).number == 1 && 0 < depth
}

// check_table with room for so many words, which is on the stack of a call of this function alone.
#[inline(never)]
fn check_by<const WORDS: usize>(depth: usize, table: &[u8]) -> Result<(), Stop>
    requires room { WordsRoom depth (replicate WORDS 0) }
    requires most { WORDS ≤ MAX_WORDS }
    ensures { result ≡ admitted depth true table.now }
{
    let mut words = [0u32; WORDS];
    test_table(depth, true, table, &mut words)
}

// Checks a table of this depth, as bytes, for the answer alone.
pub fn check_table(depth: usize, table: &[u8]) -> Result<(), Stop>
    ensures { result ≡ admitted depth true table.now }
{
    if is_deep(depth) {
        return check_by::<MAX_WORDS>(depth, table);
    }
    check_by::<SHALLOW_WORDS>(depth, table)
}

// Tests 1, 2, 3, 10. The words of a table go to the front of words, and the index of one that is admitted to the front of starts.
pub fn admit(
    depth: usize,
    sized: bool,
    table: &[u8],
    words: &mut [u32],
    starts: &mut [usize],
) -> Result<(), Stop>
    requires { Room depth words.old starts.old }
    ensures { (result ≡ admitted depth sized table.now)
        × (words.new ≡ words_left depth sized table.now words.old)
        × (starts.new ≡ starts_left depth sized table.now starts.old) }
{
    test_table(depth, sized, table, words)?;
    index::fill(&words[..table.len() / 4], starts);
    Ok(())
}

// Tests 1, 2, 11, 3, 10, 12, by a record; `admit` tests 1 and 2 again, which pass.
pub fn admit_by(
    depth: usize,
    sized: bool,
    root_record: &[u8],
    table: &[u8],
    words: &mut [u32],
    starts: &mut [usize],
) -> Result<(), Stop>
    requires { Room depth words.old starts.old × (sized ≡ true → length root_record.now ≡ 556) }
    ensures { (result ≡ admitted_by depth sized root_record.now table.now)
        × (words.new
        ≡ left (headed depth (sized && length_fits (length table.now)) root_record.now)
        (words_left depth sized table.now words.old) words.old)
        × (starts.new
        ≡ left (headed depth (sized && length_fits (length table.now)) root_record.now)
        (starts_left depth sized table.now starts.old) starts.old) }
{
    enter_by(depth, sized && length_fits(table.len()), root_record)?;
    admit(depth, sized, table, words, starts)?;
    test_named(root_record, table)
}
