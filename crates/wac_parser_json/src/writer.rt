//! Where JSON is written: words, numbers and strings.

ghost use Rattle.std.specs.Prelude.{◌≡◌, ◌+◌, ◌<◌, ◌≤◌, length, take, drop, decimal};
ghost use Rattle.std.specs.List.{prefix_len};
ghost use Rattle.std.specs.Char.{digit_char};
ghost use Rattle.json.specs.Run.{is_plain};
ghost use Rattle.json.specs.Print.{escape, escape_byte, escape_letter};
ghost use Rattle.serde_json.specs.Data.{boolean, string};
ghost use Rattle.wac_parser_json.specs.Writers.{Writes, WritesBytes};

use itoa::Buffer;
use wac_streams::{ByteSink, write_bytes};

/// A sink, and whether a write to it failed. From then on nothing is written.
pub(crate) struct JsonWriter<'w, W: ByteSink> {
    pub(crate) sink: &'w mut W,
    pub(crate) failed: bool,
}

/// How many bytes at the front stand for themselves in a string.
fn plain_len(bytes: &[u8]) -> usize
    ensures value { result ≡ prefix_len is_plain bytes.now }
    ensures fits { result ≤ length bytes.now }
{
    bytes.iter().take_while(|b| is_plain(**b)).count()
}

fn is_plain(byte: u8) -> bool
    ensures { result ≡ is_plain byte }
{
    byte != b'"' && byte != b'\\' && byte >= 0x20
}

/// The letter behind the backslash, or 0 where the byte has none.
fn escape_letter(byte: u8) -> u8
    ensures { result ≡ escape_letter byte }
{
    match byte {
        b'"' | b'\\' => byte,
        8 => b'b',
        12 => b'f',
        b'\n' => b'n',
        b'\r' => b'r',
        b'\t' => b't',
        _ => 0,
    }
}

fn hex_digit(digit: u8) -> u8
    requires { digit < 16 }
    ensures { result ≡ digit_char digit }
{
    if digit < 10 {
        b'0' + digit
    } else {
        b'a' - 10 + digit
    }
}

impl<W: ByteSink> JsonWriter<'_, W> {
    fn bytes(&mut self, bytes: &[u8])
        ensures { WritesBytes W.contents W.calls self.old bytes.now self.new }
    {
        if self.failed {
            return;
        }
        if write_bytes(self.sink, bytes).is_err() {
            self.failed = true;
        }
    }

    pub(crate) fn word(&mut self, text: &str)
        ensures { WritesBytes W.contents W.calls self.old text.now self.new }
    {
        self.bytes(text.as_bytes());
    }

    pub(crate) fn boolean(&mut self, value: bool)
        ensures { Writes W.contents W.calls self.old (boolean value) self.new }
    {
        if value {
            self.word("true");
        } else {
            self.word("false");
        }
    }

    pub(crate) fn number(&mut self, number: u64)
        ensures { WritesBytes W.contents W.calls self.old (decimal number) self.new }
    {
        let mut buffer = Buffer::new();
        self.word(buffer.format(number));
    }

    /// Writes a text in quotes.
    pub(crate) fn string(&mut self, text: &str)
        ensures { Writes W.contents W.calls self.old (string text.now) self.new }
    {
        self.word("\"");
        self.escaped(text.as_bytes());
        self.word("\"");
    }

    /// Writes bytes as they stand in a string.
    pub(crate) fn escaped(&mut self, bytes: &[u8])
        ensures { WritesBytes W.contents W.calls self.old (escape bytes.now) self.new }
    {
        let mut at = 0;
        while at < bytes.len() {
            at += self.escaped_front(&bytes[at..]);
        }
    }

    /// Writes a front of the bytes as it stands in a string, and answers its length.
    fn escaped_front(&mut self, bytes: &[u8]) -> usize
        requires { 0 < length bytes.now }
        ensures some { 0 < result }
        ensures fits { result ≤ length bytes.now }
        ensures text { WritesBytes W.contents W.calls self.old (escape (take result bytes.now)) self.new }
    {
        let plain = plain_len(bytes);
        if plain > 0 {
            self.bytes(&bytes[..plain]);
            return plain;
        }
        self.escaped_byte(bytes[0]);
        1
    }

    fn escaped_byte(&mut self, byte: u8)
        ensures { WritesBytes W.contents W.calls self.old (escape_byte byte) self.new }
    {
        let letter = escape_letter(byte);
        if letter > 0 {
            self.bytes(&[b'\\', letter]);
            return;
        }
        if byte < 0x20 {
            self.bytes(&[
                b'\\',
                b'u',
                b'0',
                b'0',
                hex_digit(byte / 16),
                hex_digit(byte % 16),
            ]);
            return;
        }
        self.bytes(&[byte]);
    }
}
