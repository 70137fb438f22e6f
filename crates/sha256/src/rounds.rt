// FIPS 180-4, section 6.2.2, step 3: the sixty-four rounds. The working variables and the schedule are handed on whole from round to round; the
// rounds stand at literal indexes, where the compiler copies nothing (docs/DECISIONS.md, "Handed on whole"), and are put together by `rounds_split`.
ghost use Rattle.std.specs.Prelude.{◌≡◌, ◌<◌, ◌≤◌};
ghost use Rattle.sha256.specs.Constants.{constants};
ghost use Rattle.sha256.specs.Hash.{temp1 as s_temp1, temp2 as s_temp2, round as s_round, rounds_from, rounds as s_rounds};

use crate::constants::K;
use crate::functions::{big_sigma_0, big_sigma_1, ch, maj};

// T1 = h + Σ1(e) + Ch(e, f, g) + K_t + W_t
fn temp1(e: u32, f: u32, g: u32, h: u32, k: u32, w: u32) -> u32
    ensures { result ≡ s_temp1 e f g h k w }
{
    h.wrapping_add(big_sigma_1(e))
        .wrapping_add(ch(e, f, g))
        .wrapping_add(k)
        .wrapping_add(w)
}

// T2 = Σ0(a) + Maj(a, b, c)
fn temp2(a: u32, b: u32, c: u32) -> u32
    ensures { result ≡ s_temp2 a b c }
{
    big_sigma_0(a).wrapping_add(maj(a, b, c))
}

// Round t, with the constants k: h = g, g = f, f = e, e = d + T1, d = c, c = b, b = a, a = T1 + T2.
fn round(w: [u32; 64], k: [u32; 64], t: usize, v: [u32; 8]) -> [u32; 8]
    requires { (k ≡ constants) × (t < 64) }
    ensures { result ≡ s_round w t v }
{
    let [a, b, c, d, e, f, g, h] = v;
    let t1 = temp1(e, f, g, h, k[t], w[t]);
    let t2 = temp2(a, b, c);
    [t1.wrapping_add(t2), a, b, c, d.wrapping_add(t1), e, f, g]
}

fn two_rounds(w: [u32; 64], k: [u32; 64], t: usize, v: [u32; 8]) -> [u32; 8]
    requires { (k ≡ constants) × (t < 63) }
    ensures { result ≡ rounds_from w t 2 v }
{
    round(w, k, t + 1, round(w, k, t, v))
}

// Sixteen rounds, from round T on.
fn sixteen_rounds<const T: usize>(w: [u32; 64], k: [u32; 64], v: [u32; 8]) -> [u32; 8]
    requires { (k ≡ constants) × (T ≤ 48) }
    ensures { result ≡ rounds_from w T 16 v }
{
    let v = two_rounds(w, k, T, v);
    let v = two_rounds(w, k, T + 2, v);
    let v = two_rounds(w, k, T + 4, v);
    let v = two_rounds(w, k, T + 6, v);
    let v = two_rounds(w, k, T + 8, v);
    let v = two_rounds(w, k, T + 10, v);
    let v = two_rounds(w, k, T + 12, v);
    two_rounds(w, k, T + 14, v)
}

// Step 3, with the schedule w, of the working variables v.
pub fn rounds(w: [u32; 64], v: [u32; 8]) -> [u32; 8]
    ensures { result ≡ s_rounds w v }
{
    let k = K;
    let v = sixteen_rounds::<0>(w, k, v);
    let v = sixteen_rounds::<16>(w, k, v);
    let v = sixteen_rounds::<32>(w, k, v);
    sixteen_rounds::<48>(w, k, v)
}
