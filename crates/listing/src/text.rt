// The text that is printed, byte by byte.
ghost use Rattle.std.specs.Prelude.{◌≡◌, ◌+◌, ◌≤◌, length, take};
ghost use Rattle.std.proofs.lemmas.List.Edits.{sets};
ghost use Rattle.io.specs.Counts.{IsPrefixLen};
ghost use Rattle.listing.specs.Listing.{decimal, line, listing, printed};

use symbol_hash::Kind;

// Writes a number below 100 in decimal from byte at on; answers where it ends.
fn put_number(text: &mut [u8; 96], at: usize, n: u8) -> usize
    requires { at + length (decimal n) ≤ 96 }
    ensures { (result ≡ at + length (decimal n))
        × (text.new ≡ sets text.old at (decimal n)) }
{
    if n < 10 {
        text[at] = b'0' + n;
        return at + 1;
    }
    text[at] = b'0' + n / 10;
    text[at + 1] = b'0' + n % 10;
    at + 2
}

// Writes a symbol's line from byte at on; answers where it ends.
fn put_line(text: &mut [u8; 96], at: usize, number: u8, symbol: &[u8]) -> usize
    requires { (length symbol.now ≡ 256) × (at + length (line number symbol.now) ≤ 96) }
    ensures { (result ≡ at + length (line number symbol.now))
        × (text.new ≡ sets text.old at (line number symbol.now)) }
{
    let first = symbol[0];
    let p = put_number(text, at, number);
    text[p] = b' ';
    text[p + 1] = octets::hex::high(first, b'A');
    text[p + 2] = octets::hex::low(first, b'A');
    text[p + 3] = b'\n';
    p + 4
}

// Lists a tree.
fn list(tree: &[u8; 4096], text: &mut [u8; 96])
    ensures { text.new ≡ listing tree.now }
{
    octets::copy_at(b"tree 1 16\n", text, 0);
    let mut at: usize = 10;
    for i in 0..16 {
        at = put_line(text, at, i as u8, octets::symbol_at(tree, i));
    }
}

// What is printed of the input, at the start of text; answers how many bytes that are.
pub fn put(input: &[u8], text: &mut [u8; 96]) -> usize
    ensures prefix_len { IsPrefixLen result text.new }
    ensures text_after { take result text.new ≡ printed input.now }
{
    if input.len() != 1024 {
        return 0;
    }
    let mut table = [0u8; 244];
    let mut tree = [0u8; 4096];
    let mut marks = [0u8; 16];
    let mut root_record = [0u8; 556];
    house_table::write_bytes(&mut table, 1).unwrap();
    volume_calls::write_tree(
        1,
        Kind::Plain,
        &table,
        input,
        &mut tree,
        &mut marks,
        &mut root_record,
    )
    .unwrap();
    list(&tree, text);
    96
}
