// The root record: what a manual prints of a volume, its kind and depth, its length, its table by word count and hash, and the root.
#![tactic(auto)]

ghost use Rattle.std.specs.Prelude.{◌≡◌, ◌/◌, ◌^◌, ◌≤◌, ◌<◌, length};
ghost use Rattle.parity_table.specs.Shape.{max_depth};
ghost use Rattle.sha256.specs.Call.{longest};
ghost use Rattle.root_record.specs.Records.{record_of, kind_of, kind_in, size_in, root_in, head_right, names_table};

use parity_table::data_count;
use symbol_hash::Kind;

// How many kinds of volume there are: 00 and 01.
const KINDS: u32 = 2;

// The bytes of a record; those in front of the table's hash, and in front of the root.
pub const BYTES: usize = 556;

const HASH_AT: usize = 12;

pub const ROOT_AT: usize = 44;

// The kind of this number, 0 or 1.
pub fn kind_of(number: u64) -> Kind
    ensures { result ≡ kind_of number }
{
    match number {
        0 => Kind::Placed,
        _ => Kind::Plain,
    }
}

// Test 11: whether the head has its kinds, this depth, and a block's length that the base has room for.
#[tactic(auto, using(parity_table::proofs::Shape::k_small))]
pub fn head_right(depth: usize, root_record: &[u8]) -> bool
    requires { (1 ≤ depth) × (depth ≤ max_depth) × (length root_record.now ≡ 556) }
    ensures { result ≡ head_right depth root_record.now }
{
    heads::kind_at(root_record, 0) < KINDS
        && heads::value_at(root_record, 0) == depth
        && heads::names(root_record, 1, 2, 256 * data_count(depth - 1) + 1)
        && heads::kind_at(root_record, 2) == 3
}

// The volume's kind.
pub fn kind(root_record: &[u8]) -> Kind
    requires { length root_record.now ≡ 556 }
    ensures { result ≡ kind_in root_record.now }
{
    kind_of(u64::from(heads::kind_at(root_record, 0)))
}

// The length of the block.
pub fn size(root_record: &[u8]) -> usize
    requires { length root_record.now ≡ 556 }
    ensures { result ≡ size_in root_record.now }
{
    heads::value_at(root_record, 1)
}

// Test 12: whether the table has the word count and the hash that the record names.
pub fn names_table(root_record: &[u8], table: &[u8]) -> bool
    requires { (length root_record.now ≡ 556) × (length table.now ≤ longest) }
    ensures { result ≡ names_table root_record.now table.now }
{
    heads::value_at(root_record, 2) == table.len() / 4
        && octets::equal_at(&sha256::digest_of(table), root_record, HASH_AT)
}

// Writes what stands in front of the root: kind and depth, the block's length, and the table's word count and hash.
pub fn put(kind: Kind, depth: usize, size: usize, table: &[u8], root_record: &mut [u8])
    requires { (depth < 2 ^ 30) × (size < 2 ^ 30) × (length table.now ≤ longest) × (length root_record.old ≡ 556) }
    ensures { root_record.new ≡ record_of kind depth size table.now (root_in root_record.old) }
{
    heads::put(u32::from(kind), depth, size, table.len() / 4, root_record);
    root_record[HASH_AT..ROOT_AT].copy_from_slice(&sha256::digest_of(table));
}
