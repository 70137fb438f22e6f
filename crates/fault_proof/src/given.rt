// The given members: those of the equation other than the withheld one, each with its path.
ghost use Rattle.std.specs.Prelude.{◌≡◌, suc, ◌+◌, ◌*◌, ◌≤◌, length, drop};
ghost use Rattle.model.specs.Symbols.{zeros, others};
ghost use Rattle.model.specs.Fault.{given_xor};

// acc, 256 zero bytes, becomes the exclusive-or of the members of layer j other than x, which stand with their paths in b from byte at on.
pub fn gather(acc: &mut [u8], j: usize, members: &[u32], x: usize, b: &[u8], at: usize)
    requires { (acc.old ≡ zeros) × (at + 256 * (length (others x members.now) * suc j) ≤ length b.now) }
    ensures { acc.new ≡ given_xor j (others x members.now) (drop at b.now) }
{
    let mut from = at;
    for &y in members {
        if y as usize != x {
            octets::xor_at(acc, b, from);
            from += 256 * (j + 1);
        }
    }
}
