//! The numbers of the public headers, by their public names. Each is stated a second time, as one
//! number, in `law::constants_are_those_of_the_headers`; the offset of a field is stated where the
//! definitions read the field.

pub mod cs_blobs;
pub mod fat;
pub mod fixup_chains;
pub mod loader;
pub mod machine;
pub mod nlist;
pub mod reloc;
pub mod thread_status;
pub mod vm_prot;
