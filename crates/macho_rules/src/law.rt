//! What follows from the definitions alone. Each law is the contract of a function that does
//! nothing when it is called: the premises are its `requires`, the conclusion its `ensures`.

ghost use Rattle.std.specs.Prelude.{◌⊎◌};
ghost use Rattle.macho_spans.specs.Overlap.{IsAscending, IsDescending};
ghost use Rattle.macho_fields.specs.First.{rank};
ghost use Rattle.macho_fields.specs.Layers.{KeptBelow};
ghost use Rattle.macho_fields.specs.Rules.{BreaksFile};
ghost use Rattle.macho_fields.specs.Universal.{IsUniversal};
ghost use Rattle.macho_fields.specs.declared.rule.Rule.{Rule};
ghost use Rattle.macho_rules.specs.Mapped.{mapped_memory};
ghost use Rattle.macho_rules.specs.Verdict.{FileTakesMemory};

/// The verdict on a file that is not universal, and whose mapped segments ascend or descend, takes no
/// memory.
pub fn image_in_order_takes_no_memory(file: &[u8])
    requires plain { ¬ IsUniversal file.now }
    requires order { IsAscending (mapped_memory file.now) ⊎ IsDescending (mapped_memory file.now) }
    ensures { ¬ FileTakesMemory file.now }
{}

/// The verdict on a file takes memory only if the rules from `magic` to `fat-align` are unbroken.
pub fn memory_is_taken_past_fat_align(file: &[u8])
    requires { FileTakesMemory file.now }
    ensures { KeptBelow (BreaksFile file.now) (rank Rule.FatOverlap) }
{}
