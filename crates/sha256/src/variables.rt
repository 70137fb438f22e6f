// FIPS 180-4, section 6.2.2, step 2: the eight working variables take the hash value that came before.
ghost use Rattle.std.specs.Prelude.{◌≡◌};
ghost use Rattle.sha256.specs.Hash.{working_variables};

// The working variables, a to h. They are a value of their own: the rounds leave the hash value as it is.
pub fn working_variables(hash: [u32; 8]) -> [u32; 8]
    ensures { result ≡ working_variables hash }
{
    [
        hash[0], // a
        hash[1], // b
        hash[2], // c
        hash[3], // d
        hash[4], // e
        hash[5], // f
        hash[6], // g
        hash[7], // h
    ]
}
