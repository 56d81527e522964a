//! Names and texts of a script, whose other bytes are written `\x` and two digits.
ghost use Rattle.std.specs.Prelude.{◌≡◌, IfOk};
ghost use Rattle.h5_model.specs.Scripts.Lines.{escape_from as escape_read, hex_from as hex_read, unescaped_text as unescaped_read};
ghost use Rattle.h5_model.specs.Scripts.Text.{is_plain as plain};

use h5_model::Items;
use std::alloc::{AllocError, Global};

/// Whether a byte is printed as it stands: from `!` to `~`, and not the backslash.
fn is_plain(byte: u8) -> bool
    ensures { result ≡ plain byte }
{
    b'!' <= byte && byte <= b'~' && byte != b'\\'
}

/// The number of a hexadecimal digit, lower-case.
fn hex_from(digit: u8) -> Option<u8>
    ensures { result ≡ hex_read digit }
{
    match digit {
        b'0'..=b'9' => Some(digit - b'0'),
        b'a'..=b'f' => Some(digit - b'a' + 10),
        _ => None,
    }
}

/// The byte of the escape behind a backslash: `x` and two digits, with what follows them.
fn escape_from(bytes: &[u8]) -> Option<u8>
    ensures { result ≡ escape_read bytes.now }
{
    let [b'x', high, low, ..] = bytes else {
        return None;
    };
    Some(16 * hex_from(*high)? + hex_from(*low)?)
}

/// The bytes that a word of a script stands for. `Ok(None)` says that a byte may not stand in it as it is, or that an
/// escape is wrong.
///
/// # Errors
///
/// `AllocError` if memory is refused.
pub fn unescaped(alloc: Global, word: &[u8]) -> Result<Option<Items<u8>>, AllocError>
    ensures { IfOk result (λ bytes. bytes ≡ unescaped_read word.now) }
{
    let mut bytes = Vec::new(alloc);
    let mut at = 0;
    'bytes: while at < word.len() {
        let byte = word[at];
        if byte == b'\\' {
            let Some(byte) = escape_from(&word[at + 1..]) else {
                return Ok(None);
            };
            bytes.push(byte)?;
            at += 4;
        } else if is_plain(byte) {
            bytes.push(byte)?;
            at += 1;
        } else {
            return Ok(None);
        }
    }
    Ok(Some(Items::new(bytes)))
}
