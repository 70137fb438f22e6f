// The calls of `cedunmi_c` for C, each under its own name and with its own clauses, as include/cedunmi.h declares them. The archive goes to C as
// libcedunmi_c.a.
#![tactic(auto)]

ghost use Rattle.std.specs.Prelude.{◌≡◌, true, ◌*◌, length};
ghost use Rattle.octets.specs.BigEndian.{bytes_of};
ghost use Rattle.sha256.specs.Call.{answer, after};
ghost use Rattle.house_table.specs.House.{house_words, house_answer, house_out};
ghost use Rattle.calls.specs.Tests.{read_answer, admitted};
ghost use Rattle.volume_calls.specs.Writing.{tree_written_by};
ghost use Rattle.volume_calls.specs.Writing as writing;
ghost use Rattle.volume_calls.specs.Reading.{block_read};
ghost use Rattle.volume_calls.specs.Reading as reading;
ghost use Rattle.sample_calls.specs.Taking.{sample_taken};
ghost use Rattle.sample_calls.specs.Taking as taking;
ghost use Rattle.sample_calls.specs.Checking.{sample_checked};
ghost use Rattle.fault_calls.specs.Checking.{proof_checked};
ghost use Rattle.fault_calls.specs.Repairing as repairing;
ghost use Rattle.recoding.specs.Recoding.{recoded};
ghost use Rattle.cedunmi_c.specs.Result.{hash_answer, call_result, tree_in_c, block_in_c, sample_in_c, repaired_in_c};

#[unsafe(no_mangle)]
pub extern "C" fn cmt_sha256(message: &[u8], digest: &mut [u8]) -> u64
    ensures { (result ≡ call_result (hash_answer (answer message.now digest.old)))
        × (digest.new ≡ after message.now digest.old) }
{
    cedunmi_c::cmt_sha256(message, digest)
}

#[unsafe(no_mangle)]
pub extern "C" fn cmt_table_check(depth: u64, table: &[u8]) -> u64
    ensures { result ≡ call_result (admitted depth true table.now) }
{
    cedunmi_c::cmt_table_check(depth, table)
}

#[unsafe(no_mangle)]
pub extern "C" fn cmt_house_table(depth: u64, table: &mut [u8]) -> u64
    ensures { (result ≡ call_result (read_answer (house_answer depth (length table.old) (length (house_words depth) * 4))))
        × (table.new
        ≡ house_out (house_answer depth (length table.old) (length (house_words depth) * 4)) (bytes_of (house_words depth))
        table.old) }
{
    cedunmi_c::cmt_house_table(depth, table)
}

#[unsafe(no_mangle)]
pub extern "C" fn cmt_tree_write(
    depth: u64,
    kind: u64,
    table: &[u8],
    block: &[u8],
    tree: &mut [u8],
    marks: &mut [u8],
    root_record: &mut [u8],
) -> u64
    ensures { writing.leaves result tree.new marks.new root_record.new
        ≡ tree_in_c (tree_written_by depth kind table.now block.now tree.old marks.old root_record.old) }
{
    cedunmi_c::cmt_tree_write(depth, kind, table, block, tree, marks, root_record)
}

#[unsafe(no_mangle)]
pub extern "C" fn cmt_block_read(
    depth: u64,
    root_record: &[u8],
    tree: &[u8],
    marks: &[u8],
    block: &mut [u8],
) -> u64
    ensures { reading.leaves result block.new
        ≡ block_in_c (block_read depth root_record.now tree.now marks.now block.old) }
{
    cedunmi_c::cmt_block_read(depth, root_record, tree, marks, block)
}

#[unsafe(no_mangle)]
pub extern "C" fn cmt_sample_take(
    depth: u64,
    number: u64,
    tree: &[u8],
    marks: &[u8],
    sample: &mut [u8],
) -> u64
    ensures { taking.leaves result sample.new
        ≡ sample_in_c (sample_taken depth number tree.now marks.now sample.old) }
{
    cedunmi_c::cmt_sample_take(depth, number, tree, marks, sample)
}

#[unsafe(no_mangle)]
pub extern "C" fn cmt_sample_check(
    depth: u64,
    number: u64,
    root_record: &[u8],
    sample: &[u8],
) -> u64
    ensures { result ≡ call_result (sample_checked depth number root_record.now sample.now) }
{
    cedunmi_c::cmt_sample_check(depth, number, root_record, sample)
}

#[unsafe(no_mangle)]
pub extern "C" fn cmt_proof_check(depth: u64, root_record: &[u8], table: &[u8], proof: &[u8]) -> u64
    ensures { result ≡ call_result (proof_checked depth root_record.now table.now proof.now) }
{
    cedunmi_c::cmt_proof_check(depth, root_record, table, proof)
}

#[unsafe(no_mangle)]
pub extern "C" fn cmt_repair(
    depth: u64,
    root_record: &[u8],
    table: &[u8],
    tree: &mut [u8],
    marks: &mut [u8],
    output: &mut [u8],
) -> u64
    ensures { repairing.leaves result tree.new marks.new output.new
        ≡ repaired_in_c depth root_record.now table.now tree.old marks.old output.old }
{
    cedunmi_c::cmt_repair(depth, root_record, table, tree, marks, output)
}

#[unsafe(no_mangle)]
pub extern "C" fn cmt_recode(
    depth: u64,
    root_record: &[u8],
    table: &[u8],
    tree: &[u8],
    marks: &[u8],
    new_tree: &mut [u8],
    new_marks: &mut [u8],
    new_record: &mut [u8],
) -> u64
    ensures { writing.leaves result new_tree.new new_marks.new new_record.new
        ≡ tree_in_c (recoded depth root_record.now table.now tree.now marks.now new_tree.old
        new_marks.old new_record.old) }
{
    cedunmi_c::cmt_recode(
        depth,
        root_record,
        table,
        tree,
        marks,
        new_tree,
        new_marks,
        new_record,
    )
}
