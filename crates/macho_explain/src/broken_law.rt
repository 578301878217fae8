//! What follows from the definitions alone: where a rule of the layout is broken, there is what the rule is about.

ghost use Rattle.macho_fields.specs.declared.rule.Rule.{Rule};
ghost use Rattle.macho_explain.specs.Broken.{IsThereInFile, IsThereInImage};

/// A file that breaks one of these rules at a place, and no rule before it, has there what the rule is about.
pub fn broken_file_rule_is_about(file: &[u8])
    ensures magic { IsThereInFile file.now Rule.Magic }
    ensures truncated { IsThereInFile file.now Rule.FatTruncated }
    ensures slice_outside { IsThereInFile file.now Rule.FatSliceOutside }
    ensures slice_in_table { IsThereInFile file.now Rule.FatSliceInTable }
    ensures align { IsThereInFile file.now Rule.FatAlign }
    ensures overlap { IsThereInFile file.now Rule.FatOverlap }
    ensures duplicate { IsThereInFile file.now Rule.FatDuplicate }
    ensures slice_magic { IsThereInFile file.now Rule.FatSliceMagic }
    ensures empty { IsThereInFile file.now Rule.FatEmpty }
{}

/// The same of an image.
pub fn broken_image_rule_is_about(image: &[u8])
    ensures header_truncated { IsThereInImage image.now Rule.HeaderTruncated }
    ensures file_type { IsThereInImage image.now Rule.FileType }
    ensures commands_outside { IsThereInImage image.now Rule.CommandsOutside }
    ensures dylib_id { IsThereInImage image.now Rule.DylibId }
    ensures segment_address { IsThereInImage image.now Rule.SegmentAddress }
    ensures segment_size { IsThereInImage image.now Rule.SegmentSize }
    ensures segment_file { IsThereInImage image.now Rule.SegmentFile }
    ensures segment_overlap { IsThereInImage image.now Rule.SegmentOverlap }
    ensures section_address { IsThereInImage image.now Rule.SectionAddress }
    ensures section_file { IsThereInImage image.now Rule.SectionFile }
    ensures section_relocs { IsThereInImage image.now Rule.SectionRelocs }
    ensures entry { IsThereInImage image.now Rule.Entry }
{}
