//! Names as they are printed.
ghost use Rattle.std.specs.{Prelude.{◌≡◌, ◌<◌, Some}, Fmt.{WritesOnOk}, List.{list_all}};
ghost use Rattle.t1_join.specs.Shown.{hex_digit, is_plain, escaped, shown};

use std::fmt;

/// A name, or other bytes, to be printed: a byte from 33 to 126 other than the backslash as it stands, and any other byte
/// as `\x` and two hexadecimal digits.
#[derive(Clone, Copy, Debug)]
pub struct Shown<'a>(pub &'a [u8]);

/// A hexadecimal digit.
fn hex_digit(n: u8) -> u8
    requires { n < 16 }
    ensures { result ≡ hex_digit n }
{
    if n < 10 { b'0' + n } else { b'a' - 10 + n }
}

/// Whether a byte is printed as it stands.
fn is_plain(byte: u8) -> bool
    ensures { result ≡ is_plain byte }
{
    33 <= byte && byte <= 126 && byte != b'\\'
}

/// Writes one byte.
fn write_byte<W: fmt::Write>(f: &mut fmt::Formatter<W>, byte: u8) -> fmt::Result
    ensures { WritesOnOk W.write_str_gives f.old result (escaped byte) f.new }
{
    if is_plain(byte) {
        return f.write_char(byte as char);
    }
    f.write_str("\\x")?;
    f.write_char(hex_digit(byte / 16) as char)?;
    f.write_char(hex_digit(byte % 16) as char)
}

impl Shown<'_> {
    /// Whether each byte is printed as it stands, so that nothing else is printed than the bytes themselves.
    pub fn is_plain(&self) -> bool
        ensures { result ≡ list_all is_plain self.now.0.now }
    {
        'bytes: for byte in self.0 {
            if !is_plain(*byte) {
                return false;
            }
        }
        true
    }
}

impl fmt::Display for Shown<'_> {
    ghost output = { λ s. Some (shown s.0.now) };

    fn fmt<W: fmt::Write>(&self, f: &mut fmt::Formatter<W>) -> fmt::Result {
        'bytes: for byte in self.0 {
            write_byte(f, *byte)?;
        }
        Ok(())
    }
}
