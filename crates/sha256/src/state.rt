// FIPS 180-4, section 5.3.3: the initial hash value, which belongs to the type of hash values.
ghost use Rattle.std.specs.Prelude.{◌≡◌};
ghost use Rattle.sha256.specs.Initial.{initial};

// A hash value: its eight words.
#[derive(Clone, Copy)]
pub struct State {
    pub h: [u32; 8],
}

impl State {
    pub const INITIAL: [u32; 8] = [
        0x6a09e667, 0xbb67ae85, 0x3c6ef372, 0xa54ff53a, 0x510e527f, 0x9b05688c, 0x1f83d9ab,
        0x5be0cd19,
    ];

    pub fn new() -> Self
        ensures { result.h ≡ initial }
    {
        State { h: Self::INITIAL }
    }
}
