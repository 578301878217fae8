//! What follows from the definitions alone. Each law is the contract of a function that does nothing when it is called.

ghost use Rattle.std.specs.Prelude.{◌≡◌, ◌++◌, ℕ, List, None};
ghost use Rattle.macho_opcodes.specs.Cursor.{cursor_after};
ghost use Rattle.macho_opcodes.specs.Steps.{step_at, AreSteps};
ghost use Rattle.macho_opcodes.specs.declared.step.Step.{Step as AStep};
ghost use Rattle.macho_chains.specs.declared.chain_header.ChainHeader.{ChainHeader as AHeader};
ghost use Rattle.macho_fixups.specs.ChainLoader.{AreLoaderWrites, KeepsChains};
ghost use Rattle.macho_fixups.specs.ChainedFixups.{all_fixups, fixups_left, IsBeforeChains};
ghost use Rattle.macho_fixups.specs.Walks.{steps_from, no_walk, walk_after, writes_of};
ghost use Rattle.macho_fixups.specs.declared.cursor.KesvuotFixupCursor.{KesvuotFixupCursor as ACursor};

use macho_opcodes::step::Opcodes;

/// The steps of a stream up to a place at which no opcode says anything are the steps by which its rows are listed.
pub fn steps_are_counted_off(opcodes: Opcodes, stream: &[u8])
    ensures { (steps : List AStep) (next : ℕ) → AreSteps opcodes stream.now steps next
        → step_at opcodes stream.now next ≡ None → steps_from opcodes stream.now 0 ≡ steps }
{}

/// The opcodes of a stream that write are listed in their order, each with what the steps before it set. The segment, the
/// offset and the name are what these steps make of the cursor of the linked rules.
pub fn writes_are_by_their_steps()
    ensures apart { (before rest : List AStep) → writes_of no_walk (before ++ rest)
        ≡ writes_of no_walk before ++ writes_of (walk_after before) rest }
    ensures cursor { (before : List AStep) → (walk_after before).cursor ≡ cursor_after before }
{}

/// At a cursor that has read nothing of the chains, the rows of all segments remain.
pub fn chains_begin_with_all(image: &[u8], table: &[u8])
    ensures { (base : ℕ) (header : AHeader) (cursor : ACursor) → IsBeforeChains cursor
        → fixups_left image.now base table.now header cursor ≡ all_fixups image.now base table.now header }
{}

/// The rows of the chains of an image that breaks no rule of the layout and of chained fixups are the writes of the
/// loader model, in its order, each once.
pub fn chains_are_loader_writes(image: &[u8])
    ensures { KeepsChains image.now → AreLoaderWrites image.now }
{
    prove!(image.len() <= usize::MAX);
}
