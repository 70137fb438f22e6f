// The fault-proof checker.
ghost use Rattle.std.specs.Prelude.{◌≡◌, ◌≤◌, length, eqb};
ghost use Rattle.model.specs.Shape.{Shape, Hangs, tree as shape};
ghost use Rattle.model.specs.Symbols.{count};
ghost use Rattle.model.specs.Fault.{verdict};
ghost use Rattle.symbol_hash.specs.SymbolHash.{symbol_hash};
ghost use Rattle.fault_proof.specs.Verdicts.{verdict_of};
ghost use Rattle.fault_proof.specs.Lent.{Members};
ghost use Rattle.fault_proof.specs.Ruled.{ruled, judged};

use crate::head::withholds;
use crate::{Refusal, given, members};
use heads::{names, value_at};
use parity_table::{Table, data_count};
use symbol_hash::Kind;

// Tests 2, 7 and 8 of a proof that withholds symbol x of layer j, one of the members of its equation.
fn rule(
    kind: Kind,
    j: usize,
    x: usize,
    members: &[u32],
    root: &[u8],
    proof: &[u8],
) -> Result<(), Refusal>
    requires { Members j members.now root.now × (1 ≤ count (λ y. eqb y x) members.now) }
    ensures { verdict_of result ≡ ruled shape (symbol_hash kind) root.now j x members.now proof.now }
{
    if proof.len() != 12 + 256 * ((members.len() - 1) * (j + 1) + j) {
        return Err(Refusal::WrongLength);
    }
    members::check(kind, j, members, x, root, proof, 12)?;
    let mut formed = [0u8; 256];
    given::gather(&mut formed, j, members, x, proof, 12);
    let path = proof.len() - 256 * j;
    if symbol_hash::fits(kind, j, x, &formed, root, proof, path) {
        return Err(Refusal::NoFault);
    }
    Ok(())
}

// Checks a proof of at least 12 bytes whose head names layer j and an equation of these members: whether it withholds one of them, then
// tests 2, 7 and 8. The layer may be of any shape, under the tree's layers.
pub fn judge(
    kind: Kind,
    j: usize,
    members: &[u32],
    root: &[u8],
    proof: &[u8],
) -> Result<(), Refusal>
    requires { Members j members.now root.now × (12 ≤ length proof.now) }
    ensures { (S : Shape) → Hangs S j
        → verdict_of result ≡ judged S (symbol_hash kind) root.now j members.now proof.now }
{
    if !withholds(proof, members) {
        return Err(Refusal::WrongHead);
    }
    rule(kind, j, value_at(proof, 2), members, root, proof)
}

// Checks a proof of at least 12 bytes against a root and a table. It is accepted when every hash leads to the root and the hash of the
// exclusive-or of the given members differs from the hash committed for the withheld one. No value of the head is used before it is known
// to be below its bound.
pub fn check(kind: Kind, table: &Table, root: &[u8], proof: &[u8]) -> Result<(), Refusal>
    requires { (length root.now ≡ 512) × (12 ≤ length proof.now) }
    ensures { verdict_of result ≡ verdict shape (symbol_hash kind) root.now table.now.layers proof.now }
{
    if !names(proof, 0, 1, table.depth()) {
        return Err(Refusal::WrongHead);
    }
    let j = value_at(proof, 0);
    if !names(proof, 1, 2, 3 * data_count(j)) {
        return Err(Refusal::WrongHead);
    }
    let members = table.members(j, value_at(proof, 1));
    judge(kind, j, members, root, proof)
}
