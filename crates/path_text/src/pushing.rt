//! Bytes, put behind a text.
ghost use Rattle.std.specs.Prelude.{◌≡◌, ◌++◌, OnOk};
ghost use Rattle.std.specs.Fmt.{decimal, signed_decimal};

use itoa::Buffer;
use std::alloc::AllocError;

/// Puts bytes behind the text.
pub(crate) fn push(text: &mut Vec<u8>, bytes: &[u8]) -> Result<(), AllocError>
    ensures { OnOk result (text.new.items ≡ text.old.items ++ bytes.now) }
{
    text.extend_from_slice(bytes)
}

/// Puts an unsigned number behind the text, in decimal.
pub(crate) fn push_number(text: &mut Vec<u8>, number: u64) -> Result<(), AllocError>
    ensures { OnOk result (text.new.items ≡ text.old.items ++ decimal number) }
{
    let mut digits = Buffer::new();
    push(text, digits.format(number).as_bytes())
}

/// Puts a moment behind the text, in decimal.
pub(crate) fn push_moment(text: &mut Vec<u8>, moment: i64) -> Result<(), AllocError>
    ensures { OnOk result (text.new.items ≡ text.old.items ++ signed_decimal moment) }
{
    let mut digits = Buffer::new();
    push(text, digits.format(moment).as_bytes())
}
