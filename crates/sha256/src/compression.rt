// FIPS 180-4, section 6.2.2: the four steps on one block.
ghost use Rattle.std.specs.Prelude.{◌≡◌};
ghost use Rattle.sha256.specs.Hash.{compress as s_compress};

use crate::intermediate::intermediate_hash;
use crate::rounds::rounds;
use crate::schedule::message_schedule;
use crate::state::State;
use crate::variables::working_variables;

// The hash value after the block with the words m, where s came before it.
pub fn compress(s: State, m: [u32; 16]) -> State
    ensures { result.h ≡ s_compress s.h m }
{
    let hash = s.h;
    // 1. Prepare the message schedule.
    let w = message_schedule(m);
    // 2. Initialize the eight working variables with the hash value that came before.
    let start = working_variables(hash);
    // 3. For t = 0 to 63.
    let v = rounds(w, start);
    // 4. Compute the intermediate hash value.
    let next = intermediate_hash(v, hash);
    State { h: next }
}
