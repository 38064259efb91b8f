//! A short text, put together before it is written.

ghost use Rattle.std.specs.Prelude.{◌≡◌, ◌+◌, ◌≤◌, ◌++◌, length, decimal};
ghost use Rattle.arrayvec.specs.ArrayVec.{array_vec_len};

use arrayvec::ArrayVec;
use itoa::Buffer;

/// A text of at most 256 bytes, enough for one line.
pub type Text = ArrayVec<u8, 256>;

/// Adds bytes at the end.
pub fn put(text: &mut Text, part: &[u8])
    requires { array_vec_len text.old + length part.now ≤ 256 }
    ensures items { text.new.items ≡ text.old.items ++ part.now }
    ensures len { array_vec_len text.new ≡ array_vec_len text.old + length part.now }
{
    let _ = text.try_extend_from_slice(part);
}

/// Adds a number in decimal at the end, which has at most 20 digits.
pub fn put_number(text: &mut Text, number: u64)
    requires { array_vec_len text.old + 20 ≤ 256 }
    ensures items { text.new.items ≡ text.old.items ++ decimal number }
    ensures len { array_vec_len text.new ≤ array_vec_len text.old + 20 }
{
    let mut buffer = Buffer::new();
    put(text, buffer.format(number).as_bytes());
}

/// A text of these bytes, of which there are at most 256.
pub fn word(bytes: &[u8]) -> Text
    requires { length bytes.now ≤ 256 }
    ensures value { result.items ≡ bytes.now }
    ensures len { array_vec_len result ≡ length bytes.now }
{
    let mut text = Text::new();
    put(&mut text, bytes);
    text
}

/// A text of at most 100 bytes, and a number in decimal behind it.
pub fn numbered(bytes: &[u8], number: u64) -> Text
    requires { length bytes.now ≤ 100 }
    ensures value { result.items ≡ bytes.now ++ decimal number }
    ensures len { array_vec_len result ≤ length bytes.now + 20 }
{
    let mut text = word(bytes);
    put_number(&mut text, number);
    text
}
