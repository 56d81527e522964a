//! Texts of answers. Each function appends to a buffer; where memory is refused, the buffer keeps
//! what it held, and may have a part of the text behind it.
ghost use Rattle.std.specs.Prelude.{◌≡◌, ◌<◌, ◌++◌, codes};
ghost use Rattle.std.specs.Fmt.{decimal, signed_decimal};
ghost use Rattle.h5_model.specs.Scripts.Text.{escaped_text, escaped_byte, hex_digit as digit_of, is_plain as plain, size_text, sizes_text, type_text, values_text};
ghost use Rattle.h5_model.specs.Scripts.Answers.{stored_values};
ghost use Rattle.h5_model.specs.Edits.EditFaults.{refused_text};
ghost use Rattle.h5_model.specs.Views.ViewFaults.{view_fault_text};
ghost use Rattle.std.specs.List.{join_by, list_all, zip};
ghost use Rattle.h5_text.specs.Appends.{Appends};
ghost use Rattle.h5_text.specs.Stores.{store_text};

use h5_model::{EditFault, Fixed, Store, ViewFault};
use h5_types::decode;
use itoa::Buffer;
use std::alloc::AllocError;

/// Appends the bytes.
///
/// # Errors
///
/// `AllocError` if memory is refused. `out` then still begins with its old bytes; a part of the text may stand behind
/// them.
pub fn push_text(out: &mut Vec<u8>, text: &[u8]) -> Result<(), AllocError>
    ensures { Appends result out.old.items out.new.items text.now }
{
    out.extend_from_slice(text)
}

/// Appends a number.
pub(crate) fn push_number(out: &mut Vec<u8>, number: u64) -> Result<(), AllocError>
    ensures { Appends result out.old.items out.new.items (decimal number) }
{
    let mut buffer = Buffer::new();
    push_text(out, buffer.format(number).as_bytes())
}

/// Appends a value.
pub(crate) fn push_value(out: &mut Vec<u8>, value: i128) -> Result<(), AllocError>
    ensures { Appends result out.old.items out.new.items (signed_decimal value) }
{
    let mut buffer = Buffer::new();
    push_text(out, buffer.format(value).as_bytes())
}

/// The hexadecimal digit of a number below 16, lower-case.
fn hex_digit(number: u8) -> u8
    requires { number < 16 }
    ensures { result ≡ digit_of number }
{
    if number < 10 {
        b'0' + number
    } else {
        b'a' + (number - 10)
    }
}

/// Whether a byte is printed as it stands: from `!` to `~`, and not the backslash.
fn is_plain(byte: u8) -> bool
    ensures { result ≡ plain byte }
{
    b'!' <= byte && byte <= b'~' && byte != b'\\'
}

/// Appends a byte of a name, or its escape.
fn push_byte(out: &mut Vec<u8>, byte: u8) -> Result<(), AllocError>
    ensures { Appends result out.old.items out.new.items (escaped_byte byte) }
{
    if is_plain(byte) {
        return push_text(out, &[byte]);
    }
    push_text(
        out,
        &[b'\\', b'x', hex_digit(byte / 16), hex_digit(byte % 16)],
    )
}

/// Appends a name or a text. Bytes that are not printable, spaces and backslashes are escaped.
///
/// # Errors
///
/// `AllocError` if memory is refused. `out` then still begins with its old bytes; a part of the text may stand behind
/// them.
pub fn push_escaped(out: &mut Vec<u8>, bytes: &[u8]) -> Result<(), AllocError>
    ensures { Appends result out.old.items out.new.items (escaped_text bytes.now) }
{
    // Most names are plain, and are appended at once.
    if are_plain(bytes) {
        return push_text(out, bytes);
    }
    for byte in bytes {
        push_byte(out, *byte)?;
    }
    Ok(())
}

/// Whether each of the bytes is printed as it stands.
fn are_plain(bytes: &[u8]) -> bool
    ensures { result ≡ list_all plain bytes.now }
{
    bytes.iter().all(|byte| is_plain(*byte))
}

/// Appends the name of a type, such as `u8`.
///
/// # Errors
///
/// `AllocError` if memory is refused. `out` then still begins with its old bytes; a part of the text may stand behind
/// them.
pub fn push_type(out: &mut Vec<u8>, fixed: &Fixed) -> Result<(), AllocError>
    ensures { Appends result out.old.items out.new.items (type_text fixed.now) }
{
    push_text(out, if fixed.is_signed() { b"i" } else { b"u" })?;
    push_number(out, 8 * fixed.size() as u64)?;
    if fixed.size() == 1 {
        return Ok(());
    }
    push_text(out, if fixed.is_big() { b"be" } else { b"le" })
}

/// Appends a list of sizes.
///
/// # Errors
///
/// `AllocError` if memory is refused. `out` then still begins with its old bytes; a part of the text may stand behind
/// them.
pub fn push_sizes(out: &mut Vec<u8>, sizes: &[u64]) -> Result<(), AllocError>
    ensures { Appends result out.old.items out.new.items (sizes_text sizes.now) }
{
    push_text(out, b"{")?;
    for (k, size) in sizes.iter().enumerate() {
        push_text(out, if k > 0 { b", " } else { b"" })?;
        push_number(out, *size)?;
    }
    push_text(out, b"}")
}

/// Appends a size, with its maximum where that differs; a maximum of `None` is unlimited.
pub(crate) fn push_size(
    out: &mut Vec<u8>,
    size: u64,
    maximum: Option<u64>,
) -> Result<(), AllocError>
    ensures { Appends result out.old.items out.new.items (size_text (size, maximum)) }
{
    push_number(out, size)?;
    match maximum {
        None => push_text(out, b"/inf"),
        Some(most) if most == size => Ok(()),
        Some(most) => {
            push_text(out, b"/")?;
            push_number(out, most)
        }
    }
}

/// Appends sizes with their maxima, of which there are as many.
pub(crate) fn push_extent(
    out: &mut Vec<u8>,
    sizes: &[u64],
    maxima: &[Option<u64>],
) -> Result<(), AllocError>
    ensures { Appends result out.old.items out.new.items
        (codes "{" ++ join_by size_text (codes ", ") (zip sizes.now maxima.now) ++ codes "}") }
{
    push_text(out, b"{")?;
    for k in 0..sizes.len().min(maxima.len()) {
        push_text(out, if k > 0 { b", " } else { b"" })?;
        push_size(out, sizes[k], maxima[k])?;
    }
    push_text(out, b"}")
}

/// Appends the answer to a refused line: `refused`, the number and the name.
///
/// # Errors
///
/// `AllocError` if memory is refused. `out` then still begins with its old bytes; a part of the text may stand behind
/// them.
pub fn push_refused(out: &mut Vec<u8>, fault: EditFault) -> Result<(), AllocError>
    ensures { Appends result out.old.items out.new.items (refused_text fault) }
{
    push_text(out, b"refused ")?;
    push_number(out, u64::from(fault.number()))?;
    push_text(out, b" ")?;
    push_text(out, fault.name().as_bytes())?;
    push_text(out, b"\n")
}

/// Appends the answer to a line that asks for a view and is refused. A refused path is answered as for an edit.
///
/// # Errors
///
/// `AllocError` if memory is refused. `out` then still begins with its old bytes; a part of the text may stand behind
/// them.
pub fn push_view_fault(out: &mut Vec<u8>, fault: ViewFault) -> Result<(), AllocError>
    ensures { Appends result out.old.items out.new.items (view_fault_text fault) }
{
    if let ViewFault::Path(fault) = fault {
        return push_refused(out, fault);
    }
    push_text(out, b"fault ")?;
    push_number(out, u64::from(fault.number()))?;
    push_text(out, b" ")?;
    push_text(out, fault.name().as_bytes())?;
    push_text(out, b"\n")
}

/// Appends a space and a value.
///
/// # Errors
///
/// `AllocError` if memory is refused. `out` then still begins with its old bytes; a part of the text may stand behind
/// them.
pub fn push_spaced_value(out: &mut Vec<u8>, value: i128) -> Result<(), AllocError>
    ensures { Appends result out.old.items out.new.items (codes " " ++ signed_decimal value) }
{
    push_text(out, b" ")?;
    push_value(out, value)
}

/// Appends the values of an attribute, with a space before each.
///
/// # Errors
///
/// `AllocError` if memory is refused. `out` then still begins with its old bytes; a part of the text may stand behind
/// them.
pub fn push_values(out: &mut Vec<u8>, values: &[i128]) -> Result<(), AllocError>
    ensures { Appends result out.old.items out.new.items (values_text values.now) }
{
    for value in values {
        push_spaced_value(out, *value)?;
    }
    Ok(())
}

/// Appends values, with a space before each. `bytes` are the values as they are stored: as many bytes for each as the
/// type's size.
///
/// # Errors
///
/// `AllocError` if memory is refused. `out` then still begins with its old bytes; a part of the text may stand behind
/// them.
pub fn push_stored_values(out: &mut Vec<u8>, fixed: &Fixed, bytes: &[u8]) -> Result<(), AllocError>
    ensures { Appends result out.old.items out.new.items
        (values_text (stored_values fixed.now bytes.now)) }
{
    let size = fixed.size();
    for k in 0..bytes.len() / size {
        let at = k * size;
        push_spaced_value(out, decode(fixed, &bytes[at..at + size]))?;
    }
    Ok(())
}

/// Appends how the cells of a dataset are stored, in chunks with their sizes.
pub(crate) fn push_store(out: &mut Vec<u8>, store: &Store<&[u64]>) -> Result<(), AllocError>
    ensures { Appends result out.old.items out.new.items (store_text store.now) }
{
    match store {
        Store::Compact => push_text(out, b"compact"),
        Store::Contiguous => push_text(out, b"contiguous"),
        Store::Chunked(sizes) => {
            push_text(out, b"chunked ")?;
            push_sizes(out, sizes)
        }
    }
}

/// Appends the answer to an accepted edit: `ok`, and how many chunks of views were refreshed.
///
/// # Errors
///
/// `AllocError` if memory is refused. `out` then still begins with its old bytes; a part of the text may stand behind
/// them.
pub fn push_accepted(out: &mut Vec<u8>, refreshed: u64) -> Result<(), AllocError>
    ensures { Appends result out.old.items out.new.items
        (codes "ok " ++ (decimal refreshed ++ codes "\n")) }
{
    push_text(out, b"ok ")?;
    push_number(out, refreshed)?;
    push_text(out, b"\n")
}

/// Appends the answer to a view that was opened: `view`, and its number.
///
/// # Errors
///
/// `AllocError` if memory is refused. `out` then still begins with its old bytes; a part of the text may stand behind
/// them.
pub fn push_opened(out: &mut Vec<u8>, number: u32) -> Result<(), AllocError>
    ensures { Appends result out.old.items out.new.items
        (codes "view " ++ (decimal number ++ codes "\n")) }
{
    push_text(out, b"view ")?;
    push_number(out, u64::from(number))?;
    push_text(out, b"\n")
}
