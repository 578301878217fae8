//! The line of an address.

use crate::fault::Fault;
use crate::find::{nearest_symbol, section_at};
use macho_verified::VerifiedImage;

/// How many bytes a line shows at most.
const SHOWN: u64 = 16;

/// Prints the line of the address that the word names, with `0x`.
pub(crate) fn write_line(
    rt: &(impl AllocGlobal + Print),
    image: &VerifiedImage,
    word: &str,
) -> Result<(), Fault> {
    let digits = word.strip_prefix("0x").ok_or(Fault::Words)?;
    let address = u64::from_str_radix(digits, 16).ok().ok_or(Fault::Words)?;
    print!(rt; "{address:#x}")?;
    write_symbol(rt, image, address)?;
    write_section(rt, image, address)?;
    println!(rt; "")?;
    Ok(())
}

/// Prints the symbol that begins nearest before the address, and how far before it.
fn write_symbol(rt: &impl Print, image: &VerifiedImage, address: u64) -> Result<(), Fault> {
    let Some(symbol) = nearest_symbol(image, address) else {
        return Ok(());
    };
    let name = symbol.name().unwrap_or(b"(no name)");
    let past = address - symbol.symbol().value;
    let name = str::from_utf8(name).unwrap_or("(not UTF-8)");
    print!(rt; " {name} + {past:#x}")?;
    Ok(())
}

/// Prints the section that has the address, and the bytes from there on.
fn write_section(rt: &impl Print, image: &VerifiedImage, address: u64) -> Result<(), Fault> {
    let Some(section) = section_at(image, address) else {
        return Ok(());
    };
    let name = str::from_utf8(section.name()).unwrap_or("(not UTF-8)");
    print!(rt; " in {name}:")?;
    let start = address - section.addr();
    let rest = (section.size() - start).min(SHOWN);
    match image.bytes_at(address, rest) {
        Some(bytes) => write_bytes(rt, bytes),
        None => Ok(print!(rt; " no bytes in the file")?),
    }
}

/// Prints the bytes in hexadecimal digits.
fn write_bytes(rt: &impl Print, bytes: &[u8]) -> Result<(), Fault> {
    for byte in bytes {
        print!(rt; " {byte:02x}")?;
    }
    Ok(())
}
