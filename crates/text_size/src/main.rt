#![tactic(auto)]
//! Prints how many bytes the segment __TEXT has in the first slice of an accepted file.

use macho_rules::verify;
use macho_verified::VerifiedImage;
use std::io::Read;
use std::process::ExitCode;

fn text_size(rt: &HostRuntime) -> Option<usize> {
    let mut file = Vec::new(rt.alloc());
    rt.stdin().read_to_end(&mut file).ok()?;
    let verified = verify(rt.alloc(), &file).ok()?;
    let image = VerifiedImage::of(&verified, 0)?;
    for segment in image.segments() {
        if segment.segment().name() == b"__TEXT".as_slice() {
            return Some(segment.bytes().len());
        }
    }
    None
}

fn main(rt: HostRuntime) -> ExitCode {
    let Some(size) = text_size(&rt) else {
        let _ = eprintln!(rt; "no accepted image with such a segment");
        return ExitCode::FAILURE;
    };
    match println!(rt; "{size}") {
        Ok(()) => ExitCode::SUCCESS,
        Err(_) => ExitCode::FAILURE,
    }
}
