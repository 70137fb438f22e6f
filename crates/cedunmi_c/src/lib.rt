// The C interface, declared in include/cedunmi.h: numbers and byte slices in, one number out. `cedunmi_exports` gives these calls to C.
#![tactic(auto)]

ghost use Rattle.std.specs.Prelude.{◌≡◌, true, ◌+◌, ◌*◌, ◌^◌, ◌<◌, length, Ok};
ghost use Rattle.octets.specs.BigEndian.{bytes_of};
ghost use Rattle.sha256.specs.Call.{answer, after};
ghost use Rattle.house_table.specs.House.{house_words, house_answer, house_out};
ghost use Rattle.calls.specs.Stops.{Small};
ghost use Rattle.calls.specs.Tests.{read_answer, admitted};
ghost use Rattle.root_record.specs.Records.{kind_in};
ghost use Rattle.volume_calls.specs.Writing.{tree_written_by};
ghost use Rattle.volume_calls.specs.Writing as writing;
ghost use Rattle.volume_calls.specs.Reading.{block_read};
ghost use Rattle.volume_calls.specs.Reading as reading;
ghost use Rattle.sample_calls.specs.Taking.{sample_taken};
ghost use Rattle.sample_calls.specs.Taking as taking;
ghost use Rattle.sample_calls.specs.Checking.{sample_checked};
ghost use Rattle.fault_calls.specs.Checking.{proof_checked};
ghost use Rattle.fault_calls.specs.Repairing.{outcome_of, Fits, Recorded};
ghost use Rattle.fault_calls.specs.Repairing as repairing;
ghost use Rattle.recoding.specs.Recoding.{recoded};
ghost use Rattle.cedunmi_c.specs.Result.{packed, hash_answer, call_result, repair_result, tree_in_c, block_in_c, sample_in_c, repaired_in_c};

use calls::{Numbers, Stop, numbers_of};
use fault_calls::{Ending, Outcome, ending_of, misfilled};
use sha256::WrongLength;

// The number in the lowest eight bits, the first value in the 24 above them, the second in the upper 32.
fn pack(n: Numbers) -> u64
    requires { (n.number < 2 ^ 8) × (n.first < 2 ^ 24) × (n.second < 2 ^ 32) }
    ensures { result ≡ packed n.number (n.first, n.second) }
{
    let number = n.number as u64;
    let first = n.first as u64;
    let second = n.second as u64;
    number + first * 256 + second * 4294967296
}

fn call_result(a: Result<(), Stop>) -> u64
    requires { Small a }
    ensures { result ≡ call_result a }
{
    pack(numbers_of(a))
}

// A repair that ended: 0, its end, and above the symbols stored the end's value.
fn end_result(e: Ending) -> u64
    requires { (e.end < 2 ^ 24) × (e.stored < 2 ^ 16) × (e.value < 2 ^ 16) }
    ensures { result ≡ packed 0 (e.end, e.stored + e.value * 2 ^ 16) }
{
    let first = e.end;
    let stored = e.stored;
    let value = e.value;
    pack(Numbers {
        number: 0,
        first,
        second: stored + value * 65536,
    })
}

// A repair that came to its end, by the kind that its record says.
fn outcome_result(root_record: &[u8], o: Outcome) -> u64
    requires { Fits (kind_in root_record.now) (outcome_of (Ok o)) × Recorded (length root_record.now) (outcome_of (Ok o)) }
    ensures { result ≡ repair_result (kind_in root_record.now) (outcome_of (Ok o)) }
{
    match o {
        Outcome::Ended(r) => end_result(ending_of(root_record::kind(root_record), r)),
        Outcome::Misfilled(stored) => end_result(misfilled(stored)),
    }
}

fn repair_result(root_record: &[u8], o: Result<Outcome, Stop>) -> u64
    requires { Fits (kind_in root_record.now) (outcome_of o) × Recorded (length root_record.now) (outcome_of o) }
    ensures { result ≡ repair_result (kind_in root_record.now) (outcome_of o) }
{
    match o {
        Ok(outcome) => outcome_result(root_record, outcome),
        Err(s) => call_result(Err(s)),
    }
}

// The hasher's answer as a call's.
fn hash_answer(a: Result<(), WrongLength>) -> Result<(), Stop>
    ensures { result ≡ hash_answer a }
{
    a.map_err(|_| Stop::Length)
}

// The SHA-256 of a message of at most 1,048,576 bytes into a digest of 32. 0: done; 2: a length is wrong, and nothing changed.
pub fn cmt_sha256(message: &[u8], digest: &mut [u8]) -> u64
    ensures { (result ≡ call_result (hash_answer (answer message.now digest.old)))
        × (digest.new ≡ after message.now digest.old) }
{
    call_result(hash_answer(sha256::digest(message, digest)))
}

// Whether a call takes these bytes as a parity table of this depth. 1: the depth; 2: the length; 3: the first wrong word, or the number of words;
// 10: the first layer with a data symbol in fewer than two of its equations, and the lowest such symbol.
pub fn cmt_table_check(depth: u64, table: &[u8]) -> u64
    ensures { result ≡ call_result (admitted depth true table.now) }
{
    call_result(calls::check_table(depth as usize, table))
}

// The house table of this depth into exactly as many bytes as it has. 1: the depth; 2: the length; and nothing changed.
pub fn cmt_house_table(depth: u64, table: &mut [u8]) -> u64
    ensures { (result ≡ call_result (read_answer (house_answer depth (length table.old) (length (house_words depth) * 4))))
        × (table.new
        ≡ house_out (house_answer depth (length table.old) (length (house_words depth) * 4)) (bytes_of (house_words depth))
        table.old) }
{
    call_result(house_table::write_bytes(table, depth as usize).map_err(Stop::from))
}

// Writes the tree of a block, its marks and its record, as a volume of kind 0, whose symbols are hashed with their places, or 1. 1: the depth; 2: a
// length; 11: another kind; 3: the table's first wrong word; 10: its first uncovered layer and symbol.
pub fn cmt_tree_write(
    depth: u64,
    kind: u64,
    table: &[u8],
    block: &[u8],
    tree: &mut [u8],
    marks: &mut [u8],
    root_record: &mut [u8],
) -> u64
    ensures { writing.leaves result tree.new marks.new root_record.new
        ≡ tree_in_c (tree_written_by depth kind table.now block.now tree.old marks.old root_record.old) }
{
    call_result(volume_calls::write_tree_by(
        depth as usize,
        kind,
        table,
        block,
        tree,
        marks,
        root_record,
    ))
}

// Copies the block out of a tree, as many bytes as the record says; the rest of the buffer stays. 1: the depth; 2: a length; 11: the record; 4: the
// lowest bad mark; 9: the first absent data symbol of the base.
pub fn cmt_block_read(
    depth: u64,
    root_record: &[u8],
    tree: &[u8],
    marks: &[u8],
    block: &mut [u8],
) -> u64
    ensures { reading.leaves result block.new
        ≡ block_in_c (block_read depth root_record.now tree.now marks.now block.old) }
{
    call_result(volume_calls::read_block(depth as usize, root_record, tree, marks, block))
}

// Takes a sample of a base symbol. 1: the depth; 2: a length; 4: the lowest bad mark; 5: the number; 9: the first absent symbol of the sample.
pub fn cmt_sample_take(depth: u64, number: u64, tree: &[u8], marks: &[u8], sample: &mut [u8]) -> u64
    ensures { taking.leaves result sample.new
        ≡ sample_in_c (sample_taken depth number tree.now marks.now sample.old) }
{
    call_result(sample_calls::take(depth as usize, number as usize, tree, marks, sample))
}

// Checks a sample of a base symbol against the record. 1: the depth; 2: a length; 11: the record; 5: the number; 7: the layer at which it breaks.
pub fn cmt_sample_check(depth: u64, number: u64, root_record: &[u8], sample: &[u8]) -> u64
    ensures { result ≡ call_result (sample_checked depth number root_record.now sample.now) }
{
    call_result(sample_calls::check(depth as usize, number as usize, root_record, sample))
}

// Checks a fault proof against a record and a table. 0: a fault is shown; 1: the depth; 2: a length; 11: the record; 3: the table's first wrong
// word; 10: its first uncovered layer and symbol; 12: it is another table than the record's; 6: the head; 7: the layer and the position at which it breaks; 8: the withheld hash fits.
pub fn cmt_proof_check(depth: u64, root_record: &[u8], table: &[u8], proof: &[u8]) -> u64
    ensures { result ≡ call_result (proof_checked depth root_record.now table.now proof.now) }
{
    call_result(fault_calls::check(depth as usize, root_record, table, proof))
}

// Repairs a tree by its record and a table; the output is for a fault proof or twins. 1: the depth; 2: a length; 11: the record; 3: the table's
// first wrong word; 10: its first uncovered layer and symbol; 12: it is another table than the record's; 4: the lowest bad mark. A repair that
// ended: 0, its end, the symbols stored, and the proof's length, the incomplete layer, or, of a kind 0 record, layer and number of twins.
pub fn cmt_repair(
    depth: u64,
    root_record: &[u8],
    table: &[u8],
    tree: &mut [u8],
    marks: &mut [u8],
    output: &mut [u8],
) -> u64
    ensures { repairing.leaves result tree.new marks.new output.new
        ≡ repaired_in_c depth root_record.now table.now tree.old marks.old output.old }
{
    let outcome = fault_calls::repair_tree(depth as usize, root_record, table, tree, marks, output);
    repair_result(root_record, outcome)
}

// Codes a whole volume anew, by the same table and as the other kind, into buffers of its own; the source stays. 1: the depth; 2: a length; 11: the
// record; 3: the table's first wrong word; 10: its first uncovered layer and symbol; 12: it is another table than the record's; 4: the lowest bad
// mark; 14: a repair would store symbols, or end otherwise than whole.
pub fn cmt_recode(
    depth: u64,
    root_record: &[u8],
    table: &[u8],
    tree: &[u8],
    marks: &[u8],
    new_tree: &mut [u8],
    new_marks: &mut [u8],
    new_record: &mut [u8],
) -> u64
    ensures { writing.leaves result new_tree.new new_marks.new new_record.new
        ≡ tree_in_c (recoded depth root_record.now table.now tree.now marks.now new_tree.old
        new_marks.old new_record.old) }
{
    call_result(recoding::recode(
        depth as usize,
        root_record,
        table,
        tree,
        marks,
        new_tree,
        new_marks,
        new_record,
    ))
}
