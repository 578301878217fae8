//! Of `mach/i386/thread_status.h` and `mach/arm/thread_status.h`: the states of a thread.

// registry: constants
/// The flavor of a state with the registers of a 64-bit x86 processor.
pub const X86_THREAD_STATE64: u32 = 4;

/// The flavor of a state with the registers of an x86 processor, and a header that reports how wide they are.
pub const X86_THREAD_STATE: u32 = 7;

/// The flavor of a state with the registers of a 64-bit ARM processor.
pub const ARM_THREAD_STATE64: u32 = 6;

/// The number of words of a state of the flavor `X86_THREAD_STATE64`.
pub const X86_THREAD_STATE64_COUNT: u32 = 42;

/// The number of words of a state of the flavor `X86_THREAD_STATE`.
pub const X86_THREAD_STATE_COUNT: u32 = 44;

/// The number of words of a state of the flavor `ARM_THREAD_STATE64`.
pub const ARM_THREAD_STATE64_COUNT: u32 = 68;

/// The size in bytes of the flavor and the count with which a state begins.
pub const STATE_HEADER_SIZE: u64 = 8;

/// The offset of the count in a state.
pub const STATE_COUNT: u64 = 4;

/// The size in bytes of a word of a state.
pub const STATE_WORD_SIZE: u64 = 4;

/// The offsets of fields of `x86_thread_state64`, each of 32 bits if nothing else is said.
pub mod x86_thread_state64 {
    /// The address of the next instruction. It has 64 bits.
    pub const RIP: u64 = 128;
}

/// The offsets of fields of `arm_thread_state64`, each of 32 bits if nothing else is said.
pub mod arm_thread_state64 {
    /// The address of the next instruction. It has 64 bits.
    pub const PC: u64 = 256;
}
// registry: end
