//! What follows from the definitions alone: under each rule the readers that it is about give one answer. Each law is the
//! contract of a function that does nothing when it is called: the premises are its `requires`, the conclusion its
//! `ensures`.

ghost use Rattle.std.specs.Prelude.{◌≡◌, ℕ, None};
ghost use Rattle.macho_fields.specs.First.{IsUnbroken};
ghost use Rattle.macho_fields.specs.Layers.{NothingBreaks};
ghost use Rattle.macho_fields.specs.RuleList.{profile_of};
ghost use Rattle.macho_fields.specs.Rules.{BreaksFile, BreaksImage};
ghost use Rattle.macho_fields.specs.Universal.{OfEachImage};
ghost use Rattle.macho_fields.specs.declared.rule.Profile.TheVariants.{Unambiguous};
ghost use Rattle.macho_fields.specs.declared.rule.Rule.{Rule};
ghost use Rattle.macho_linked.specs.Rules.{IsLinkedUnbroken};
ghost use Rattle.macho_strict.specs.First.{IsStrictlyUnbroken};
ghost use Rattle.macho_strict.specs.Rules.{BreaksStrictImage};
ghost use Rattle.macho_readers.specs.CommandModels.{HasOneMeaning};
ghost use Rattle.macho_readers.specs.Commands.{BreaksBytesEncrypted, BreaksCommandKnown, BreaksCommandOnce};
ghost use Rattle.macho_readers.specs.Entry.{BreaksEntryOne};
ghost use Rattle.macho_readers.specs.Files.{BreaksFatCount, BreaksFatHeader, BreaksFatPage};
ghost use Rattle.macho_readers.specs.HiddenEntries.{HasNoHiddenSlice};
ghost use Rattle.macho_readers.specs.Models.{HasOneKindOfFile, HasOneSubtype, HasOneSetOfSlices, HasOneSliceOfByte, HasOneProtection, HasOneSegmentOfName, HasOneBase, HasOneCommandOfKind, HasOnePlatform, HasOneNumberOfSegment, HasOneSegmentOfNumber, HasOneStartOfSegment, HasOneOrdinal, HasOneSectionOfNames, HasOneSectionAt, HasOneEntry};
ghost use Rattle.macho_readers.specs.Order.{BreaksNumberShift};
ghost use Rattle.macho_readers.specs.PageModels.{HaveOneMap};
ghost use Rattle.macho_unambiguous.specs.Rules.{IsFirstUnambiguousBroken, IsUnambiguousUnbroken};
ghost use Rattle.macho_readers.specs.SectionBytes.{HasOneContent};
ghost use Rattle.macho_readers.specs.Sections.{BreaksSectionName, BreaksSectionAlone};
ghost use Rattle.macho_readers.specs.Segments.{BreaksSegmentPage, BreaksSegmentProtection, BreaksSegmentName};
ghost use Rattle.macho_unambiguous.specs.Unambiguous.{IsUnambiguous};

use macho_fields::Break;

/// All readers see a universal file, and not a Java class.
pub fn file_has_one_kind(file: &[u8])
    requires { (place : ℕ) → ¬ BreaksFatCount file.now place }
    ensures { HasOneKindOfFile file.now }
{}

/// All readers see one subtype of a slice.
pub fn slice_has_one_subtype(file: &[u8])
    requires { (place : ℕ) → ¬ BreaksFatHeader file.now place }
    ensures { HasOneSubtype file.now }
{}

/// All readers take the same slices for a processor.
pub fn processor_has_one_set_of_slices(file: &[u8])
    requires { (place : ℕ) → ¬ BreaksFatHeader file.now place }
    ensures { HasOneSetOfSlices file.now }
{}

/// All readers find a byte of the file in one slice.
pub fn byte_has_one_slice(file: &[u8])
    requires overlap { (place : ℕ) → ¬ BreaksFile file.now Rule.FatOverlap place }
    requires page { (place : ℕ) → ¬ BreaksFatPage file.now place }
    ensures { HasOneSliceOfByte file.now }
{}

/// All readers see one protection of a segment.
pub fn segment_has_one_protection(image: &[u8])
    requires { (place : ℕ) → ¬ BreaksSegmentProtection image.now place }
    ensures { HasOneProtection image.now }
{}

/// All readers find one segment with a name.
pub fn name_has_one_segment(image: &[u8])
    requires { (place : ℕ) → ¬ BreaksSegmentName image.now place }
    ensures { HasOneSegmentOfName image.now }
{}

/// All readers take one address for the base.
pub fn image_has_one_base(image: &[u8])
    requires overlap { (place : ℕ) → ¬ BreaksStrictImage image.now Rule.SegmentFileOverlap place }
    requires name { (place : ℕ) → ¬ BreaksSegmentName image.now place }
    ensures { HasOneBase image.now }
{}

/// All readers see the same command at a place, by its structure and by what it holds.
pub fn command_has_one_meaning(image: &[u8])
    requires { (place : ℕ) → ¬ BreaksCommandKnown image.now place }
    ensures { HasOneMeaning image.now }
{}

/// All readers take one command of a kind.
pub fn kind_has_one_command(image: &[u8])
    requires { (place : ℕ) → ¬ BreaksCommandOnce image.now place }
    ensures { HasOneCommandOfKind image.now }
{}

/// All readers take one command for the versions of a platform.
pub fn platform_has_one_command(image: &[u8])
    requires { (place : ℕ) → ¬ BreaksCommandOnce image.now place }
    ensures { HasOnePlatform image.now }
{}

/// All readers give a segment that can be written one number.
pub fn segment_has_one_number(image: &[u8])
    requires { (place : ℕ) → ¬ BreaksNumberShift image.now place }
    ensures { HasOneNumberOfSegment image.now }
{}

/// All readers find one segment with a number by which fixups name it.
pub fn number_has_one_segment(image: &[u8])
    requires name { (place : ℕ) → ¬ BreaksSegmentName image.now place }
    requires number { (place : ℕ) → ¬ BreaksNumberShift image.now place }
    ensures { HasOneSegmentOfNumber image.now }
{}

/// All readers take one address for the start of a segment that fixups name.
pub fn segment_has_one_start(image: &[u8])
    requires { (place : ℕ) → ¬ BreaksNumberShift image.now place }
    ensures { HasOneStartOfSegment image.now }
{}

/// All readers give a library that is loaded at once one ordinal.
pub fn library_has_one_ordinal(image: &[u8])
    requires { (place : ℕ) → ¬ BreaksNumberShift image.now place }
    ensures { HasOneOrdinal image.now }
{}

/// All readers find one section with a name in a segment with a name.
pub fn names_have_one_section(image: &[u8])
    requires { (place : ℕ) → ¬ BreaksSectionName image.now place }
    ensures { HasOneSectionOfNames image.now }
{}

/// All readers find one section at an address of a segment.
pub fn address_has_one_section(image: &[u8])
    requires { (place : ℕ) → ¬ BreaksSectionAlone image.now place }
    ensures { HasOneSectionAt image.now }
{}

/// All readers see the same bytes in a section, whether they look at its offset or at its addresses.
pub fn section_has_one_content(image: &[u8])
    requires layout { NothingBreaks (BreaksImage image.now None) }
    requires section { (place : ℕ) → ¬ BreaksSectionAlone image.now place }
    ensures { HasOneContent image.now }
{}

/// All readers find one entry, at one byte of the file, which none of them shows as data.
pub fn program_has_one_entry(image: &[u8])
    requires layout { NothingBreaks (BreaksImage image.now None) }
    requires entry { (place : ℕ) → ¬ BreaksEntryOne image.now place }
    ensures { HasOneEntry image.now }
{}

/// All readers see one byte and one protection at each address of each page.
pub fn page_has_one_byte(file: &[u8])
    requires layout { IsUnbroken file.now }
    requires strict { IsStrictlyUnbroken file.now }
    requires slice { (place : ℕ) → ¬ BreaksFatPage file.now place }
    requires command { OfEachImage (λ image. (place : ℕ) → ¬ BreaksCommandKnown image place) file.now }
    requires page { OfEachImage (λ image. (place : ℕ) → ¬ BreaksSegmentPage image place) file.now }
    requires protection { OfEachImage (λ image. (place : ℕ) → ¬ BreaksSegmentProtection image place) file.now }
    requires encrypted { OfEachImage (λ image. (place : ℕ) → ¬ BreaksBytesEncrypted image place) file.now }
    ensures { HaveOneMap file.now }
{}

/// A reader that looks just past the table of a universal file takes no other slices for a processor.
pub fn table_has_one_end(file: &[u8])
    requires layout { IsUnbroken file.now }
    requires strict { IsStrictlyUnbroken file.now }
    ensures { HasNoHiddenSlice file.now }
{}

/// A file has at most one first broken unambiguous rule.
pub fn first_unambiguous_broken_is_one(file: &[u8], first: Break, other: Break)
    requires first { IsFirstUnambiguousBroken file.now first }
    requires other { IsFirstUnambiguousBroken file.now other }
    ensures { first ≡ other }
{}

/// The first broken unambiguous rule of a file is one of the unambiguous profile.
pub fn first_unambiguous_broken_is_unambiguous(file: &[u8], first: Break)
    requires { IsFirstUnambiguousBroken file.now first }
    ensures { profile_of first.rule ≡ Unambiguous }
{}

/// Any two readers give one answer to each question about a file that breaks no rule of the layout, no strict rule, no
/// linked rule and no unambiguous rule.
pub fn unambiguous_unbroken_is_unambiguous(file: &[u8])
    requires unbroken { IsUnbroken file.now }
    requires strictly { IsStrictlyUnbroken file.now }
    requires linked { IsLinkedUnbroken file.now }
    requires unambiguous { IsUnambiguousUnbroken file.now }
    ensures { IsUnambiguous file.now }
{}
