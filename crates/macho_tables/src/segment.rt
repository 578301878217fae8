//! What the name, the protection and the flags of a segment say of the linked data in it.
//! (`mach-o/loader.h`: `segment_command_64`; `mach/vm_prot.h`)

ghost use Rattle.std.specs.Prelude.{◌≡◌, ◌↔◌, ◌+◌, ◌≤◌, IsTrue, length};
ghost use Rattle.macho_tables.specs.Segments.{is_writable as is_writable_of, is_constant as is_constant_of, is_protected as is_protected_of, IsLinkedit, IsText};

use macho_fields::Order;
use macho_fields::header::loader::segment_command_64::FLAGS;
use macho_fields::header::loader::{SEGMENT_COMMAND_64_SIZE, SG_PROTECTED_VERSION_1};
use macho_fields::header::vm_prot::{VM_PROT_READ, VM_PROT_WRITE};
use macho_image::Segment;

/// The name of the segment in which loaders look for linked data. (`SEG_LINKEDIT`)
const SEG_LINKEDIT: &[u8] = b"__LINKEDIT";

/// The name of the segment in which loaders look for the base. (`SEG_TEXT`)
const SEG_TEXT: &[u8] = b"__TEXT";

/// Whether the segment is mapped, and its initial protection allows writing.
pub fn is_writable(segment: &Segment) -> bool
    ensures { result ≡ is_writable_of segment.now.image segment.now.place }
{
    segment.vmsize() > 0 && segment.initprot() & u64::from(VM_PROT_WRITE) != 0
}

/// Whether a loader can read the segment, and cannot write it.
pub fn is_constant(segment: &Segment) -> bool
    ensures { result ≡ is_constant_of segment.now.image segment.now.place }
{
    segment.initprot() & u64::from(VM_PROT_READ) != 0 && !is_writable(segment)
}

/// Whether a kernel decrypts the pages of the segment.
pub fn is_protected(segment: &Segment) -> bool
    requires { segment.now.place + SEGMENT_COMMAND_64_SIZE ≤ length segment.now.image }
    ensures { result ≡ is_protected_of segment.now.image segment.now.place }
{
    let flags = segment
        .image()
        .read_u32(Order::Little, segment.place() + FLAGS);
    flags & SG_PROTECTED_VERSION_1 != 0
}

/// Whether loaders take the segment, by its name, for the segment of the linked data.
pub fn is_linkedit(segment: &Segment) -> bool
    ensures { IsTrue result ↔ IsLinkedit segment.now.image segment.now.place }
{
    segment.name() == SEG_LINKEDIT
}

/// Whether loaders take the segment, by its name, for the segment of the base.
pub fn is_text(segment: &Segment) -> bool
    ensures { IsTrue result ↔ IsText segment.now.image segment.now.place }
{
    segment.name() == SEG_TEXT
}
