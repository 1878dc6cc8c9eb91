//! Numbers and the last line, put behind bytes.
ghost use Rattle.std.specs.Prelude.{◌≡◌, ◌<◌, ◌++◌, [], ◌∷◌, OnOk};
ghost use Rattle.manifest.specs.Manifest.{digit_text, flag_text, halves_text, long_text, number_text, with_end, word_text};

use itoa::Buffer;
use journal::crc_from;
use std::alloc::AllocError;

/// What the register is before a check's first byte.
const ALL_ONES: u32 = 0xffff_ffff;

/// Puts a decimal number without a zero before it, and what ends it.
pub(crate) fn put_number(number: u64, end: u8, out: &mut Vec<u8>) -> Result<(), AllocError>
    ensures { OnOk result (out.new.items ≡ out.old.items ++ number_text end number) }
{
    out.extend_from_slice(Buffer::new().format(number).as_bytes())?;
    out.extend_from_slice(&[end])
}

/// Puts whether, and a space.
pub(crate) fn put_flag(flag: bool, out: &mut Vec<u8>) -> Result<(), AllocError>
    ensures { OnOk result (out.new.items ≡ out.old.items ++ flag_text flag) }
{
    out.extend_from_slice(if flag { b"1 " } else { b"0 " })
}

/// A number below 16 as a hexadecimal digit, which is no capital.
fn digit_of(number: u8) -> u8
    requires { number < 16 }
    ensures { result ∷ [] ≡ digit_text number }
{
    if number < 10 {
        b'0' + number
    } else {
        87 + number
    }
}

/// Puts two of them.
fn put_byte(number: u8, out: &mut Vec<u8>) -> Result<(), AllocError>
    ensures { OnOk result (out.new.items ≡ out.old.items ++ halves_text 16 digit_text number) }
{
    out.extend_from_slice(&[digit_of(number / 16), digit_of(number % 16)])
}

/// Puts four of them.
fn put_short(number: u16, out: &mut Vec<u8>) -> Result<(), AllocError>
    ensures { OnOk result (out.new.items ≡ out.old.items ++ halves_text 256 (halves_text 16 digit_text) number) }
{
    put_byte((number / 256) as u8, out)?;
    put_byte((number % 256) as u8, out)
}

/// Puts eight of them.
#[tactic(auto, unfolding(crate::specs::Manifest::word_text))]
pub(crate) fn put_word(number: u32, out: &mut Vec<u8>) -> Result<(), AllocError>
    ensures { OnOk result (out.new.items ≡ out.old.items ++ word_text number) }
{
    put_short((number / 65_536) as u16, out)?;
    put_short((number % 65_536) as u16, out)
}

/// Puts sixteen of them, and what ends them.
#[tactic(auto, unfolding(crate::specs::Manifest::long_text))]
pub(crate) fn put_long(number: u64, end: u8, out: &mut Vec<u8>) -> Result<(), AllocError>
    ensures { OnOk result (out.new.items ≡ out.old.items ++ (long_text number ++ end ∷ [])) }
{
    put_word((number / 4_294_967_296) as u32, out)?;
    put_word((number % 4_294_967_296) as u32, out)?;
    out.extend_from_slice(&[end])
}

/// Puts the last line, with the check of all bytes before it.
pub(crate) fn put_end(out: &mut Vec<u8>) -> Result<(), AllocError>
    ensures { OnOk result (out.new.items ≡ with_end out.old.items) }
{
    let check = crc_from(ALL_ONES, out.as_slice());
    out.extend_from_slice(b"end ")?;
    put_word(check, out)?;
    out.extend_from_slice(b"\n")
}
