//! The sealed rules of an image, in their order.

ghost use Rattle.std.specs.Prelude.{◌≤◌, length, None};
ghost use Rattle.macho_fields.specs.Field.{part};
ghost use Rattle.macho_fields.specs.Layers.{NothingBreaks, Decides};
ghost use Rattle.macho_fields.specs.Rules.{BreaksImage as Breaks};
ghost use Rattle.macho_linked.specs.Rules.{BreaksImage as BreaksLinked};
ghost use Rattle.macho_seals.specs.Good.{IsWholeSignature};
ghost use Rattle.macho_sealed.specs.Rules.{BreaksImage};
ghost use Rattle.macho_spans.specs.Span.{end_of};
ghost use Rattle.macho_tables.specs.DataTables.{IsDataTable};

use crate::profile::Sealed;
use macho_fields::header::loader::LC_CODE_SIGNATURE;
use macho_fields::{Break, Rule, Span};
use macho_image::Image;
use macho_rules::ProfileRules;
use macho_seals::executable::first_executable;
use macho_seals::hashes::first_other_hash;
use macho_seals::repeated::first_repeated;
use macho_seals::slack::first_slack;
use macho_tables::data_table::data_table;
use macho_tables::place::place_from;

// Decides the sealed rules of an image that breaks no rule of the layout and no linked rule, in their order. It returns
// the first broken one, with its place in the image.
pub(crate) fn check_image(image: &Image) -> Result<(), Break>
    requires layout { NothingBreaks (Breaks image.now None) }
    requires linked { NothingBreaks (BreaksLinked image.now) }
    ensures { Decides (BreaksImage image.now) result }
{
    match data_table(image, LC_CODE_SIGNATURE) {
        Some(table) => check_signature(image, table),
        None => Err(Break::at(Rule::SignatureMissing, 0)),
    }
}

// Decides the rules of an image with a signature, which has these bytes.
fn check_signature(image: &Image, table: Span) -> Result<(), Break>
    requires table { IsDataTable image.now LC_CODE_SIGNATURE table }
    requires inside { end_of table ≤ length image.now }
    requires whole { IsWholeSignature table.start (part table.start table.len image.now) }
    ensures { Decides (BreaksImage image.now) result }
{
    let bytes = image.bytes();
    let signature = bytes.slice(table);
    let executable = first_executable(image, table);
    Sealed::judge(image, Rule::SignatureExecutable, executable)?;
    let repeated = place_from(table.start, first_repeated(signature));
    Sealed::judge(image, Rule::DirectoryRepeated, repeated)?;
    let slack = first_slack(bytes, table.start, signature);
    Sealed::judge(image, Rule::SignatureSlack, slack)?;
    let hash = first_other_hash(bytes, table.start, signature);
    Sealed::judge(image, Rule::SignatureHash, hash)
}
