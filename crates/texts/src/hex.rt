//! Bytes as pairs of hex digits.
ghost use Rattle.std.specs.Prelude.{◌≡◌, ◌*◌, ◌<◌, ◌≤◌, IfOk, IsAscii, length, take, vec_items};
ghost use Rattle.std.specs.Char.{digit_char};
ghost use Rattle.std.specs.Option.{option_map};
ghost use Rattle.std.specs.Fmt.{WritesOnOk};
ghost use Rattle.texts.specs.Hex.{digit_of, byte_of, bytes_of, hexed};

use std::alloc::{AllocError, Global};
use std::{fmt, str};

// The byte of two hex digits, of either case.
fn byte(high: u8, low: u8) -> Option<u8>
    ensures { result ≡ byte_of (digit_of high) (digit_of low) }
{
    let high = (high as char).to_digit(16)?;
    let low = (low as char).to_digit(16)?;
    Some((16 * high + low) as u8)
}

// The bytes that pairs of hex digits write.
pub(crate) fn read_hex(heap: Global, word: &str) -> Result<Option<Vec<u8>>, AllocError>
    ensures { IfOk result (λ o. option_map vec_items o ≡ bytes_of word.now) }
{
    let (pairs, rest) = word.as_bytes().as_chunks::<2>();
    if !rest.is_empty() {
        return Ok(None);
    }
    let mut bytes = Vec::new(heap);
    for [high, low] in pairs {
        let Some(byte) = byte(*high, *low) else {
            return Ok(None);
        };
        bytes.push(byte)?;
    }
    Ok(Some(bytes))
}

// The character of a digit below 16, which is ASCII.
fn digit_char(digit: u8) -> u8
    requires { digit < 16 }
    ensures { result ≡ digit_char digit }
{
    if digit < 10 {
        b'0' + digit
    } else {
        b'a' - 10 + digit
    }
}

// Puts two hex digits for each byte at the front of a text.
fn put_hex(text: &mut [u8; 64], bytes: &[u8])
    requires { length bytes.now ≤ 32 }
    ensures digits { take (2 * length bytes.now) text.new ≡ hexed bytes.now }
    ensures ascii { IsAscii (hexed bytes.now) }
{
    for i in 0..bytes.len() {
        text[2 * i] = digit_char(bytes[i] / 16);
        text[2 * i + 1] = digit_char(bytes[i] % 16);
    }
}

// Writes two hex digits for each byte, as many bytes at once as a key may have.
pub(crate) fn write_hex<W: fmt::Write>(f: &mut fmt::Formatter<W>, bytes: &[u8]) -> fmt::Result
    ensures { WritesOnOk W.write_str_gives f.old result (hexed bytes.now) f.new }
{
    let mut text = [0; 64];
    for chunk in bytes.chunks(32) {
        put_hex(&mut text, chunk);
        f.write_str(str::from_utf8(&text[..2 * chunk.len()]).unwrap())?;
    }
    Ok(())
}
