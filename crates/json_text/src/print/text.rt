// Printing strings: runs of bytes that stand for themselves as a whole, and escapes between them.
ghost use Rattle.std.specs.Prelude.{◌≡◌, ◌<◌, ◌∷◌, ◌++◌, [], OnOk, OnErr};
ghost use Rattle.std.specs.List.{flat_map};
ghost use Rattle.std.specs.Char.{digit_char};
ghost use Rattle.json_text.specs.Print.{escaped, string_text, Extends};

use crate::token::string::plain_len;
use std::alloc::AllocError;

fn digit_char(digit: u8) -> u8
    requires { digit < 16 }
    ensures { result ≡ digit_char digit }
{
    if digit < 10 {
        b'0' + digit
    } else {
        b'a' + (digit - 10)
    }
}

#[tactic(auto, using(crate::proofs::Kept::kept), unfolding(crate::specs::Print::escaped))]
fn print_byte(b: u8, out: &mut Vec<u8>) -> Result<(), AllocError>
    ensures ok { OnOk result (out.new.items ≡ out.old.items ++ escaped b) }
    ensures kept { OnErr result (Extends out.old.items out.new.items) }
{
    match b {
        b'"' => out.extend_from_slice(b"\\\""),
        b'\\' => out.extend_from_slice(b"\\\\"),
        8 => out.extend_from_slice(b"\\b"),
        9 => out.extend_from_slice(b"\\t"),
        10 => out.extend_from_slice(b"\\n"),
        12 => out.extend_from_slice(b"\\f"),
        13 => out.extend_from_slice(b"\\r"),
        0..0x20 => {
            let spelled = [
                b'\\',
                b'u',
                b'0',
                b'0',
                digit_char(b / 16),
                digit_char(b % 16),
            ];
            out.extend_from_slice(&spelled)
        }
        _ => out.extend_from_slice(&[b]),
    }
}

#[tactic(auto, using(crate::proofs::Kept::kept))]
fn write_content(text: &[u8], out: &mut Vec<u8>) -> Result<(), AllocError>
    ensures ok { OnOk result (out.new.items ≡ out.old.items ++ flat_map escaped text.now) }
    ensures kept { OnErr result (Extends out.old.items out.new.items) }
{
    let mut rest = text;
    'parts: loop {
        let (plain, from) = rest.split_at(plain_len(rest));
        out.extend_from_slice(plain)?;
        match from {
            [] => return Ok(()),
            [b, after @ ..] => {
                print_byte(*b, out)?;
                rest = after;
            }
        }
    }
}

#[cold]
#[tactic(auto, using(crate::proofs::Kept::kept))]
fn print_escaped(text: &[u8], out: &mut Vec<u8>) -> Result<(), AllocError>
    ensures ok { OnOk result (out.new.items ≡ out.old.items ++ string_text text.now) }
    ensures kept { OnErr result (Extends out.old.items out.new.items) }
{
    out.push(b'"')?;
    write_content(text, out)?;
    out.push(b'"')?;
    Ok(())
}

// A string in which each byte stands for itself.
#[inline]
#[tactic(auto, using(crate::proofs::Kept::kept))]
fn print_plain(text: &[u8], out: &mut Vec<u8>) -> Result<(), AllocError>
    ensures ok { OnOk result (out.new.items ≡ out.old.items ++ 34 ∷ (text.now ++ 34 ∷ [])) }
    ensures kept { OnErr result (Extends out.old.items out.new.items) }
{
    out.reserve(text.len() + 2)?;
    out.push_reserved(b'"');
    out.extend_from_slice(text)?;
    out.push_reserved(b'"');
    Ok(())
}

#[tactic(auto, using(crate::proofs::PrintSteps::content_plain))]
pub(crate) fn print_string(text: &str, out: &mut Vec<u8>) -> Result<(), AllocError>
    ensures ok { OnOk result (out.new.items ≡ out.old.items ++ string_text text.now) }
    ensures kept { OnErr result (Extends out.old.items out.new.items) }
{
    let bytes = text.as_bytes();
    if plain_len(bytes) < bytes.len() {
        return print_escaped(bytes, out);
    }
    print_plain(bytes, out)
}

/// Appends what stands between the quotes of the JSON string with this content.
pub fn print_content(text: &[u8], out: &mut Vec<u8>) -> Result<(), AllocError>
    ensures ok { OnOk result (out.new.items ≡ out.old.items ++ flat_map escaped text.now) }
    ensures unchanged { OnErr result (out.new.items ≡ out.old.items) }
{
    let before = out.len();
    let written = write_content(text, out);
    if written.is_err() {
        out.truncate(before);
    }
    written
}
