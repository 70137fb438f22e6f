// FIPS 180-4, section 6.2.2, step 1: the message schedule. It is handed on whole from word to word; the words stand at literal indexes, where
// the compiler keeps it in place and copies nothing (docs/DECISIONS.md, "Handed on whole"), and are put together by `extended_split`.
ghost use Rattle.std.specs.Prelude.{◌≡◌, ◌+◌, ◌<◌, ◌≤◌, take};
ghost use Rattle.sha256.specs.Words.{◌⊞◌};
ghost use Rattle.sha256.specs.Functions.{small_sigma0, small_sigma1};
ghost use Rattle.sha256.specs.Hash.{extended, message_schedule};

use crate::functions::{small_sigma_0, small_sigma_1};

// W_t = M_t, for 0 ≤ t ≤ 15. Word by word: after `copy_from_slice` a block takes eleven moves more.
fn first_words(m: [u32; 16]) -> [u32; 64]
    ensures { take 16 result ≡ m }
{
    let mut w = [0u32; 64];
    for (t, word) in m.iter().enumerate() {
        w[t] = *word;
    }
    w
}

// W_t, for 16 ≤ t ≤ 63, from W_t-2, W_t-7, W_t-15 and W_t-16.
fn next(w2: u32, w7: u32, w15: u32, w16: u32) -> u32
    ensures { result ≡ small_sigma1 w2 ⊞ w7 ⊞ small_sigma0 w15 ⊞ w16 }
{
    small_sigma_1(w2)
        .wrapping_add(w7)
        .wrapping_add(small_sigma_0(w15))
        .wrapping_add(w16)
}

// The schedule with W_t, after the words before it.
fn extended_once(w: [u32; 64], t: usize) -> [u32; 64]
    requires { (16 ≤ t) × (t < 64) }
    ensures { take (t + 1) result ≡ extended (take t w) t 1 }
{
    let mut v = w;
    v[t] = next(w[t - 2], w[t - 7], w[t - 15], w[t - 16]);
    v
}

fn extended_twice(w: [u32; 64], t: usize) -> [u32; 64]
    requires { (16 ≤ t) × (t < 63) }
    ensures { take (t + 2) result ≡ extended (take t w) t 2 }
{
    extended_once(extended_once(w, t), t + 1)
}

// The schedule with sixteen words more, after the words before W_T.
fn sixteen_words<const T: usize>(w: [u32; 64]) -> [u32; 64]
    requires { (16 ≤ T) × (T ≤ 48) }
    ensures { take (T + 16) result ≡ extended (take T w) T 16 }
{
    let w = extended_twice(w, T);
    let w = extended_twice(w, T + 2);
    let w = extended_twice(w, T + 4);
    let w = extended_twice(w, T + 6);
    let w = extended_twice(w, T + 8);
    let w = extended_twice(w, T + 10);
    let w = extended_twice(w, T + 12);
    extended_twice(w, T + 14)
}

// Step 1, of the block with the words m.
pub fn message_schedule(m: [u32; 16]) -> [u32; 64]
    ensures { result ≡ message_schedule m }
{
    let w = first_words(m);
    let w = sixteen_words::<16>(w);
    let w = sixteen_words::<32>(w);
    sixteen_words::<48>(w)
}
