// Test 4: the marks of a tree, one byte for each symbol, 1 held or 0 absent.
ghost use Rattle.std.specs.Prelude.{◌≡◌, ◌≤◌, true, length, take, position, ltb};
ghost use Rattle.parity_table.specs.Members.{every};
ghost use Rattle.calls.specs.Tests.{test_marks};

use crate::Stop;

// How many marks in front are 0 or 1, counted by sixteens: up to the first sixteen with another, else up to where fewer are left. A search could
// stop at each mark, and the greatest of sixteen is one operation of vectors; a tree's marks come in sixteens.
fn fine_front(marks: &[u8]) -> usize
    ensures inside { result ≤ length marks.now }
    ensures fine { every (λ v. ltb v 2) (take result marks.now) ≡ true }
{
    let (sixteens, _) = marks.as_chunks::<16>();
    for (i, sixteen) in sixteens.iter().enumerate() {
        if 1 < octets::greatest(sixteen) {
            return 16 * i;
        }
    }
    16 * sixteens.len()
}

// The lowest place whose mark is neither 0 nor 1.
fn first_bad(marks: &[u8]) -> Option<usize>
    ensures { result ≡ position (λ m. ltb 1 m) marks.now }
{
    let front = fine_front(marks);
    let p = marks[front..].iter().position(|&m| 1 < m)?;
    Some(front + p)
}

pub fn test_marks(marks: &[u8]) -> Result<(), Stop>
    ensures { result ≡ test_marks marks.now }
{
    match first_bad(marks) {
        Some(p) => Err(Stop::Mark(p)),
        None => Ok(()),
    }
}
