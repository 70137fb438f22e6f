// FIPS 180-4, section 4.1.2: the six functions of SHA-256, (4.2) to (4.7). specs/Functions.antt has the standard's forms. Five functions are
// computed in other forms, which are faster; each names the law of proofs/BitForms.antt by which it is equal.
ghost use Rattle.std.specs.Prelude.{◌≡◌, ◌<◌};
ghost use Rattle.sha256.specs.Words.{rotr as s_rotr};
ghost use Rattle.sha256.specs.Functions.{ch as s_ch, maj as s_maj, big_sigma0, big_sigma1, small_sigma0, small_sigma1};

// Section 3.2, 4: ROTR, x rotated right by n bits.
fn rotr(n: u32, x: u32) -> u32
    requires { (0 < n) × (n < 32) }
    ensures { result ≡ s_rotr n x }
{
    x.rotate_right(n)
}

// (4.2) Ch, without the complement: `ch-form`.
pub fn ch(x: u32, y: u32, z: u32) -> u32
    ensures { result ≡ s_ch x y z }
{
    z ^ (x & (y ^ z))
}

// (4.3) Maj; its x ^ y is the next round's y ^ z: `maj-form`.
pub fn maj(x: u32, y: u32, z: u32) -> u32
    ensures { result ≡ s_maj x y z }
{
    y ^ ((x ^ y) & (y ^ z))
}

// (4.4) Σ0, as the standard has it.
pub fn big_sigma_0(x: u32) -> u32
    ensures { result ≡ big_sigma0 x }
{
    rotr(2, x) ^ rotr(13, x) ^ rotr(22, x)
}

// (4.5) Σ1, its last two rotations nested: `rotr_nested`.
pub fn big_sigma_1(x: u32) -> u32
    ensures { result ≡ big_sigma1 x }
{
    rotr(6, x) ^ rotr(11, x ^ rotr(14, x))
}

// (4.6) σ0, its two rotations nested: `rotr_nested`.
pub fn small_sigma_0(x: u32) -> u32
    ensures { result ≡ small_sigma0 x }
{
    rotr(7, x ^ rotr(11, x)) ^ x >> 3
}

// (4.7) σ1, its two rotations nested: `rotr_nested`.
pub fn small_sigma_1(x: u32) -> u32
    ensures { result ≡ small_sigma1 x }
{
    rotr(17, x ^ rotr(2, x)) ^ x >> 10
}
