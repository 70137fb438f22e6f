// Checking a fault proof.
ghost use Rattle.std.specs.Prelude.{◌≡◌, ◌≤◌, replicate};
ghost use Rattle.fault_proof.specs.Verdicts.{verdict_of};
ghost use Rattle.calls.specs.Room.{Room};
ghost use Rattle.fault_calls.specs.Checking.{proof_sized, judged, proof_checked};

use calls::{Stop, admit_by};
use fault_proof::Refusal;
use parity_table::{MAX_EQUATIONS, SHALLOW_EQUATIONS, Table, is_deep};
use table_bytes::{MAX_WORDS, SHALLOW_WORDS};

// The checker's verdict as an answer: why a proof is turned down, as why the call stopped. No `From`, since neither type is of this crate, and no
// `map_err`: the five cases stand side by side, as in the definition.
fn answer_of(v: Result<(), Refusal>) -> Result<(), Stop>
    ensures { result ≡ judged (verdict_of v) }
{
    match v {
        Ok(()) => Ok(()),
        Err(Refusal::WrongHead) => Err(Stop::Head),
        Err(Refusal::WrongLength) => Err(Stop::Length),
        Err(Refusal::Broken { layer, position }) => Err(Stop::Hash { layer, position }),
        Err(Refusal::NoFault) => Err(Stop::NoFault),
    }
}

// Whether a record has its length, and a proof is long enough for a head.
fn sizes_fit(record_len: usize, proof: usize) -> bool
    ensures { result ≡ proof_sized record_len proof }
{
    record_len == root_record::BYTES && 12 <= proof
}

// check, with arrays of these lengths for the table's words and index. They are on the stack of a call of this function alone.
#[inline(never)]
fn check_by<const WORDS: usize, const EQUATIONS: usize>(
    depth: usize,
    root_record: &[u8],
    table: &[u8],
    proof: &[u8],
) -> Result<(), Stop>
    requires room { Room depth (replicate WORDS 0) (replicate EQUATIONS 0) }
    requires most { (WORDS ≤ MAX_WORDS) × (EQUATIONS ≤ MAX_EQUATIONS) }
    ensures { result ≡ proof_checked depth root_record.now table.now proof.now }
{
    let mut words = [0u32; WORDS];
    let mut starts = [0usize; EQUATIONS];
    let sized = sizes_fit(root_record.len(), proof.len());
    admit_by(depth, sized, root_record, table, &mut words, &mut starts)?;
    let kind = root_record::kind(root_record);
    let n = table.len() / 4;
    let root = &root_record[root_record::ROOT_AT..];
    let table = Table::new(depth, &words[..n], &starts);
    answer_of(fault_proof::check(kind, &table, root, proof))
}

// Checks a fault proof against a record and a table that comes as bytes: tests 1, 2, 11, 3, 10, 12, 6, then 2 again for the length its head
// demands, 7, 8. Ok: a fault is shown.
pub fn check(depth: usize, root_record: &[u8], table: &[u8], proof: &[u8]) -> Result<(), Stop>
    ensures { result ≡ proof_checked depth root_record.now table.now proof.now }
{
    if is_deep(depth) {
        return check_by::<MAX_WORDS, MAX_EQUATIONS>(depth, root_record, table, proof);
    }
    check_by::<SHALLOW_WORDS, SHALLOW_EQUATIONS>(depth, root_record, table, proof)
}
