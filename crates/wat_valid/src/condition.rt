//! Conditions of plain instructions on their immediates and on the module.
ghost use Rattle.std.specs.Prelude.{◌≡◌, ◌^◌, nat_le, nat_lt, true};
ghost use Rattle.std.specs.List.{list_all};
ghost use Rattle.wat_valid.specs.Algorithm as algorithm;
ghost use Rattle.wat_valid.specs.InstructionTypes as types;
ghost use Rattle.wat_valid.specs.Views.{typing_by};

use crate::typing::Condition;
use wat_module_ast::instruction::Argument;

/// Number of lane indices from which `i8x16.shuffle` selects.
const SHUFFLED_LANES: u8 = 32;

/// Number of bytes of a vector.
const VECTOR_BYTES: u8 = 16;

/// Returns `true` if the condition of a plain instruction holds for its immediates. `has_memory` is
/// `true` if the module has a memory.
pub fn holds(condition: Condition, argument: &Argument, has_memory: bool) -> bool
    ensures { result ≡ algorithm.holds has_memory (typing_by types.nop condition) argument.now }
{
    match condition {
        Condition::Nothing => true,
        Condition::Lane(count) => has_lane(argument, count),
        Condition::Shuffle => has_shuffled_lanes(argument),
        Condition::Access(width) => has_memory && is_aligned(argument, width),
        Condition::AccessLane(width) => has_memory && has_aligned_lane(argument, width),
        Condition::HasMemory => has_memory,
    }
}

/// Returns `true` if a lane index is below the number of lanes.
fn has_lane(argument: &Argument, count: u8) -> bool
    ensures { result ≡ algorithm.holds true (types.Lane count types.nop) argument.now }
{
    match argument {
        Argument::Lane(lane) => *lane < count,
        _ => false,
    }
}

/// Returns `true` if each of the lane indices of `i8x16.shuffle` is below 32.
fn has_shuffled_lanes(argument: &Argument) -> bool
    ensures { result ≡ algorithm.holds true (types.Shuffle types.nop) argument.now }
{
    match argument {
        Argument::Bytes(lanes) => are_shuffled_lanes(lanes.bytes()),
        _ => false,
    }
}

/// Returns `true` if each of the lane indices is below 32.
fn are_shuffled_lanes(lanes: &[u8]) -> bool
    ensures { result ≡ list_all (λ n. nat_lt n 32) lanes.now }
{
    lanes.iter().all(|lane| *lane < SHUFFLED_LANES)
}

/// Returns `true` if the alignment of a memory argument is at most `width` bytes.
fn is_aligned(argument: &Argument, width: u8) -> bool
    ensures { result ≡ algorithm.holds true (types.Access width types.nop) argument.now }
{
    match argument {
        Argument::Memory(align, _) => is_at_most(*align, width),
        _ => false,
    }
}

/// Returns `true` if the alignment of a memory argument is at most `width` bytes, and the lane
/// index is one of a lane of this width. The width must not be 0.
fn has_aligned_lane(argument: &Argument, width: u8) -> bool
    ensures { result ≡ algorithm.holds true (types.AccessLane width types.nop) argument.now }
{
    match argument {
        Argument::MemoryLane(align, _, lane) => {
            width > 0 && is_at_most(*align, width) && *lane < VECTOR_BYTES / width
        }
        _ => false,
    }
}

/// Returns `true` if 2 to the power of `align` is at most `width`.
fn is_at_most(align: u8, width: u8) -> bool
    ensures { result ≡ nat_le (2 ^ align) width }
{
    align < 8 && 1u8 << align <= width
}
