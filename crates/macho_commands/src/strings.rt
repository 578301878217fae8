//! The strings of an `LC_LINKER_OPTION`. (`mach-o/loader.h`: `linker_option_command`)

ghost use Rattle.std.specs.Prelude.{◌+◌, ◌≤◌, length, IfSome, IfNone};
ghost use Rattle.macho_fields.specs.Bytes.{bytes_of};
ghost use Rattle.macho_commands.specs.Described.{HasFewStrings, IsEndOfStrings};

use macho_fields::header::loader::linker_option_command::COUNT;
use macho_fields::{Bytes, Order, Span};

// Where the strings of the command end, with the zero byte of the last, or `None` where it has too few zero bytes.
pub(crate) fn strings_end(command: Bytes, size: u64) -> Option<u64>
    requires head { COUNT + 4 ≤ size }
    requires whole { size ≤ length (bytes_of command) }
    ensures few { IfNone result (HasFewStrings size (bytes_of command.entry)) }
    ensures enough { IfSome result (λ _. ¬ HasFewStrings size (bytes_of command.entry)) }
    ensures end { IfSome result (IsEndOfStrings size (bytes_of command.entry)) }
{
    let mut end = size;
    for _string in 0..command.read_u32(Order::Little, COUNT) {
        let rest = Span {
            start: end,
            len: command.len() - end,
        };
        end = command.first_zero(rest)? + 1;
    }
    Some(end)
}
