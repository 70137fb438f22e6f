// SHA-256, as FIPS 180-4 has it, of a message of 0 to 1,048,576 bytes. The modules stand in the order of the standard's sections.
#![tactic(auto)]

mod functions; // 4.1.2: the six functions
mod constants; // 4.2.2: the sixty-four constants
mod padding; // 5.1.1: padding the message
mod parsing; // 5.2.1: parsing the message
mod state; // 5.3.3: the initial hash value
mod schedule; // 6.2.2, step 1: the message schedule
mod variables; // 6.2.2, step 2: the working variables
mod rounds; // 6.2.2, step 3: the sixty-four rounds
mod intermediate; // 6.2.2, step 4: the intermediate hash value
mod compression; // 6.2.2: the four steps on a block
mod hash; // 6.2.2: all blocks of a message, and the digest

ghost use Rattle.std.specs.Prelude.{◌≡◌, ◌+◌, ◌≤◌, ◌++◌, length};
ghost use Rattle.octets.specs.BigEndian.{be};
ghost use Rattle.sha256.specs.Hash.{sha256};
ghost use Rattle.sha256.specs.Call.{longest, answer, after};

// The message is over the limit, or the digest's buffer is not 32 bytes long.
#[derive(Clone, Copy, Debug, PartialEq, Eq)]
pub struct WrongLength;

const LONGEST: usize = 1048576;

// Writes the SHA-256 of the message into the lent digest; refuses, and changes nothing, where a length is wrong.
pub fn digest(message: &[u8], digest: &mut [u8]) -> Result<(), WrongLength>
    ensures { (result ≡ answer message.now digest.old)
        × (digest.new ≡ after message.now digest.old) }
{
    if message.len() > LONGEST || digest.len() != 32 {
        return Err(WrongLength);
    }
    hash::put_digest(hash::hash(message), digest);
    Ok(())
}

// The SHA-256 of a message within the limit.
pub fn digest_of(message: &[u8]) -> [u8; 32]
    requires { length message.now ≤ longest }
    ensures { result ≡ sha256 message.now }
{
    let mut digest = [0u8; 32];
    hash::put_digest(hash::hash(message), &mut digest);
    digest
}

// Writes the SHA-256 of a word's four bytes with the message after them, which is not copied. Word and message fill a block at least.
pub fn digest_with_word(word: u32, message: &[u8], digest: &mut [u8])
    requires { (60 ≤ length message.now) × (length message.now + 4 ≤ longest) × (length digest.old ≡ 32) }
    ensures { digest.new ≡ sha256 (be 4 word ++ message.now) }
{
    hash::put_digest(hash::hash_with_word(word, message), digest);
}
