//! The calls that are made on a file.

use crate::refusals::announce;
use crate::refusals::fault::Fault;
use macho_fat::slices;
use macho_fields::Bytes;
use macho_image::Image;
use macho_report::write_layout;
use macho_rules::{Mapping, check_image, verify};
use macho_text::FromWrite;
use macho_verified::VerifiedImage;
use std::io;

/// The addresses that a mapping is asked for: in each segment of an executable, and past the last.
const ADDRESSES: [u64; 5] = [
    0,
    0x1_0000_0000,
    0x1_0000_2000,
    0x1_0000_302b,
    0x1_0000_4000,
];

/// Calls `slices`, and prints a line for each.
pub(crate) fn call_slices(rt: &HostRuntime, file: &[u8]) -> Result<(), Fault> {
    announce(rt)?;
    let list = slices(rt.alloc(), Bytes::new(file))?;
    for slice in list.as_slice() {
        println!(rt; "{slice:?}")?;
    }
    Ok(())
}

/// Calls `verify`, and writes the layout.
pub(crate) fn call_verify(rt: &HostRuntime, file: &[u8]) -> Result<(), Fault> {
    announce(rt)?;
    let verified = verify(rt.alloc(), file)?;
    write_layout(&verified, &mut FromWrite::new(&mut rt.stdout()))?;
    Ok(())
}

/// Calls `check_image` for a file that is one image.
pub(crate) fn call_check_image(rt: &HostRuntime, file: &[u8]) -> Result<(), Fault> {
    let Ok(image) = Image::open(Bytes::new(file), None) else {
        return Err(Fault::NoCall);
    };
    announce(rt)?;
    check_image(rt.alloc(), &image)?;
    println!(rt; "unbroken")?;
    Ok(())
}

/// The calls that make the mapping of an image.
#[derive(Clone, Copy)]
pub(crate) enum Mapper {
    /// `Mapping::of`.
    Of,
    /// `Mapping::of_image`.
    OfImage,
    /// `VerifiedImage::mapping`.
    OfVerified,
}

/// Makes the call for the first slice, and prints what is at some addresses.
pub(crate) fn call_mapper(rt: &HostRuntime, file: &[u8], mapper: Mapper) -> Result<(), Fault> {
    let verified = verify(rt.alloc(), file)?;
    let Some(image) = VerifiedImage::of(&verified, 0) else {
        return Err(Fault::NoCall);
    };
    announce(rt)?;
    let mapping = match mapper {
        Mapper::Of => Mapping::of(rt.alloc(), &verified, 0)?,
        Mapper::OfImage => Some(Mapping::of_image(rt.alloc(), image.image())?),
        Mapper::OfVerified => Some(image.mapping(rt.alloc())?),
    };
    print_sources(rt, mapping)?;
    Ok(())
}

/// Prints what is at the addresses.
fn print_sources(rt: &HostRuntime, mapping: Option<Mapping>) -> io::Result<()> {
    let Some(mut mapping) = mapping else {
        return println!(rt; "no image");
    };
    for address in ADDRESSES {
        let source = mapping.source(address);
        println!(rt; "{address:#x} {source:?}")?;
    }
    Ok(())
}
