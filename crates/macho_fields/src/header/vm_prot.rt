//! Of `mach/vm_prot.h`: the bits of a segment's protection.

// registry: constants
/// The memory may be read.
pub const VM_PROT_READ: u32 = 1;

/// The memory may be written.
pub const VM_PROT_WRITE: u32 = 2;

/// The memory may be executed.
pub const VM_PROT_EXECUTE: u32 = 4;
// registry: end
