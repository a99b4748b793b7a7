// Writing numbers and texts behind bytes.
ghost use Rattle.std.specs.Prelude.{◌<◌, ◌≤◌, ◌^◌, length};
ghost use Rattle.proof_codec.specs.Private.{WritesAs, IsWide};
ghost use Rattle.proof_codec.specs.Numbers.{IsByte, byte, FitsU32, number_bytes, IsText, text_bytes, wide, IsInteger, integer};

use formula_core::OutOfMemory;

pub(crate) fn write_byte(out: &mut Vec<u8>, value: u8) -> Result<(), OutOfMemory>
    ensures { WritesAs IsByte byte value out.old.items out.new.items result }
{
    out.push(value)?;
    Ok(())
}

pub(crate) fn write_number(out: &mut Vec<u8>, value: u32) -> Result<(), OutOfMemory>
    ensures { WritesAs FitsU32 number_bytes value out.old.items out.new.items result }
{
    out.extend_from_slice(&value.to_le_bytes())?;
    Ok(())
}

fn write_wide(out: &mut Vec<u8>, value: u64) -> Result<(), OutOfMemory>
    ensures { WritesAs IsWide wide value out.old.items out.new.items result }
{
    out.extend_from_slice(&value.to_le_bytes())?;
    Ok(())
}

pub(crate) fn write_integer(out: &mut Vec<u8>, value: i128) -> Result<(), OutOfMemory>
    ensures { WritesAs IsInteger integer value out.old.items out.new.items result }
{
    let bits = value.cast_unsigned();
    write_wide(out, (bits % (1 << 64)) as u64)?;
    write_wide(out, (bits / (1 << 64)) as u64)?;
    Ok(())
}

/// Writes a text: its length, and its bytes.
pub(crate) fn write_text(out: &mut Vec<u8>, text: &str) -> Result<(), OutOfMemory>
    requires { length text.now ≤ 65536 }
    ensures { WritesAs (IsText 65536) text_bytes text.now out.old.items out.new.items result }
{
    write_number(out, text.len() as u32)?;
    out.extend_from_slice(text.as_bytes())?;
    Ok(())
}
