// FIPS 180-4, section 6.2.2, step 4: the intermediate hash value.
ghost use Rattle.std.specs.Prelude.{◌≡◌};
ghost use Rattle.sha256.specs.Hash.{intermediate_hash};

// The working variables v after the rounds, each added to its word of the hash value that came before.
pub fn intermediate_hash(v: [u32; 8], hash: [u32; 8]) -> [u32; 8]
    ensures { result ≡ intermediate_hash v hash }
{
    [
        v[0].wrapping_add(hash[0]),
        v[1].wrapping_add(hash[1]),
        v[2].wrapping_add(hash[2]),
        v[3].wrapping_add(hash[3]),
        v[4].wrapping_add(hash[4]),
        v[5].wrapping_add(hash[5]),
        v[6].wrapping_add(hash[6]),
        v[7].wrapping_add(hash[7]),
    ]
}
