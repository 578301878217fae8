//! The states of a thread that have its registers. (`mach/i386/thread_status.h`: `x86_thread_state_t`;
//! `mach/arm/thread_status.h`: `arm_thread_state64_t`)

ghost use Rattle.std.specs.Prelude.{◌≡◌, ◌+◌, ◌*◌, ◌≤◌, IfSome};
ghost use Rattle.macho_commands.specs.Registers.{registers_of, AreInside};

use macho_fields::header::machine::{CPU_TYPE_ARM64, CPU_TYPE_X86_64};
use macho_fields::header::thread_status::{
    ARM_THREAD_STATE64, ARM_THREAD_STATE64_COUNT, STATE_HEADER_SIZE, X86_THREAD_STATE,
    X86_THREAD_STATE_COUNT, X86_THREAD_STATE64, X86_THREAD_STATE64_COUNT, arm_thread_state64,
    x86_thread_state64,
};

/// The flavor and the number of words with which a state begins.
#[derive(Clone, Copy, PartialEq, Eq)]
pub struct StateHeader {
    /// Which state it is.
    pub flavor: u32,
    /// The number of its words.
    pub count: u32,
}

/// What a state with registers has.
#[derive(Clone, Copy)]
pub struct Registers {
    /// The number of its words.
    pub count: u32,
    /// The header with which its words begin, if they begin with one. (`x86_state_hdr_t`)
    pub header: Option<StateHeader>,
    /// The offset in its words of the 64-bit address of the next instruction.
    pub entry: u64,
}

/// What a state of this flavor has on a processor with this `cputype`, or `None` if it has no registers that are
/// known.
pub fn registers_of(cputype: u32, flavor: u32) -> Option<Registers>
    ensures registers { result ≡ registers_of cputype flavor }
    ensures inside { IfSome result AreInside }
{
    match (cputype, flavor) {
        (CPU_TYPE_X86_64, X86_THREAD_STATE64) => Some(Registers {
            count: X86_THREAD_STATE64_COUNT,
            header: None,
            entry: x86_thread_state64::RIP,
        }),
        (CPU_TYPE_X86_64, X86_THREAD_STATE) => Some(Registers {
            count: X86_THREAD_STATE_COUNT,
            header: Some(StateHeader {
                flavor: X86_THREAD_STATE64,
                count: X86_THREAD_STATE64_COUNT,
            }),
            entry: STATE_HEADER_SIZE + x86_thread_state64::RIP,
        }),
        (CPU_TYPE_ARM64, ARM_THREAD_STATE64) => Some(Registers {
            count: ARM_THREAD_STATE64_COUNT,
            header: None,
            entry: arm_thread_state64::PC,
        }),
        _ => None,
    }
}
