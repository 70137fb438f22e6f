// Bytes as hexadecimal digits, in lower case or upper case by the first letter that is given.
ghost use Rattle.std.specs.Prelude.{◌≡◌, ◌*◌, ◌/◌, ◌%◌, ◌≤◌, ◌<◌, length};
ghost use Rattle.octets.specs.Hex.{hex_digit, hex_of, lower};

// The character of a digit below 16.
fn digit(n: u8, letter: u8) -> u8
    requires { (n < 16) × (letter ≤ 250) }
    ensures { result ≡ hex_digit letter n }
{
    if n < 10 { b'0' + n } else { letter + (n - 10) }
}

// The characters of a byte's two digits.
pub fn high(x: u8, letter: u8) -> u8
    requires { letter ≤ 250 }
    ensures { result ≡ hex_digit letter (x / 16) }
{
    digit(x / 16, letter)
}

pub fn low(x: u8, letter: u8) -> u8
    requires { letter ≤ 250 }
    ensures { result ≡ hex_digit letter (x % 16) }
{
    digit(x % 16, letter)
}

// Writes the bytes of s into out as digits in lower case, two to a byte.
pub fn put_hex(s: &[u8], out: &mut [u8])
    requires { length out.old ≡ length s.now * 2 }
    ensures { out.new ≡ hex_of lower s.now }
{
    for (i, &x) in s.iter().enumerate() {
        out[i * 2] = high(x, b'a');
        out[i * 2 + 1] = low(x, b'a');
    }
}
