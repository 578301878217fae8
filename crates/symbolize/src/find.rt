//! What is nearest to an address, and what has it.

ghost use Rattle.std.specs.Prelude.{◌↔◌, All, IsTrue, MatchOption};
ghost use Rattle.symbolize.specs.Find.{symbols, IsAtOrBefore, IsNearest};
ghost use Rattle.symbolize.specs.Find.{sections, HasAddress, IsFirstAt};

use macho_image::Section;
use macho_verified::{VerifiedImage, VerifiedSymbol};

/// The symbol of a section that begins nearest before the address, or at it. If several begin
/// there, it is the last of them.
pub(crate) fn nearest_symbol<'a>(
    image: &VerifiedImage<'a>,
    address: u64,
) -> Option<VerifiedSymbol<'a>>
    ensures { MatchOption result
        (All (λ symbol. ¬ IsAtOrBefore address symbol) (symbols image.now))
        (IsNearest address (symbols image.now)) }
{
    let mut nearest = None;
    let mut start = 0;
    for symbol in image.symbols() {
        let value = symbol.symbol().value;
        if start <= value && is_at_or_before(&symbol, address) {
            start = value;
            nearest = Some(symbol);
        }
    }
    nearest
}

/// Whether the symbol names an address of a section, at or before this one. A debugging entry does
/// not.
fn is_at_or_before(symbol: &VerifiedSymbol, address: u64) -> bool
    ensures { IsTrue result ↔ IsAtOrBefore address symbol.now }
{
    let symbol = symbol.symbol();
    symbol.names_section() && symbol.value <= address
}

/// The first section of a mapped segment that has the address.
pub(crate) fn section_at<'a>(image: &VerifiedImage<'a>, address: u64) -> Option<Section<'a>>
    ensures { MatchOption result
        (All (λ section. ¬ HasAddress address section) (sections image.now))
        (IsFirstAt address (sections image.now)) }
{
    image
        .image()
        .sections()
        .find(|section| has_address(section, address))
}

/// Whether the section is of a mapped segment, and the address is one of its own.
fn has_address(section: &Section, address: u64) -> bool
    ensures { IsTrue result ↔ HasAddress address section.now }
{
    section.segment().vmsize() != 0 && section.memory().holds(address)
}
