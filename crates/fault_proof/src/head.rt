// The third word of a proof's head: kind 11 with the withheld member's number.
ghost use Rattle.std.specs.Prelude.{◌≡◌, ◌≤◌, length, leb, eqb};
ghost use Rattle.model.specs.Symbols.{count};
ghost use Rattle.fault_proof.specs.Ruled.{withholds as withholds_one};

// Whether x is one of the members.
fn is_member(members: &[u32], x: usize) -> bool
    ensures { result ≡ leb 1 (count (λ y. eqb y x) members.now) }
{
    members.iter().any(|&y| y as usize == x)
}

// Whether the third word has its kind, with the number of one of the members.
pub fn withholds(proof: &[u8], members: &[u32]) -> bool
    requires { 12 ≤ length proof.now }
    ensures { result ≡ withholds_one proof.now members.now }
{
    heads::kind_at(proof, 2) == 3 && is_member(members, heads::value_at(proof, 2))
}
