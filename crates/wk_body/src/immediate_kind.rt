//! What stands behind an opcode.

ghost use Rattle.std.specs.Prelude.{◌≡◌};
ghost use Rattle.wk_body.specs.Instructions.{form_of};
ghost use Rattle.wk_body.specs.ImmediateKinds.{imm_kind_in};

use crate::memory::MemoryOp;
use crate::opcode;
use crate::reading::numeric_of;
use crate::types::Profile;

/// What stands behind the opcode of an instruction that holds no others (5.4).
#[derive(Clone, Copy)]
pub(crate) enum ImmediateKind {
    Nothing,
    Reserved,
    Index,
    IndexReserved,
    Labels,
    Memarg,
    Signed32,
    Signed64,
    Word32,
    Word64,
}

// What stands behind an opcode, or none where it begins no such instruction of the profile.
#[tactic(auto, unfolding(crate::specs::Instructions::form_of))]
#[inline(always)]
pub(crate) fn imm_kind(profile: Profile, opcode: u8) -> Option<ImmediateKind>
    ensures { result ≡ imm_kind_in (form_of profile opcode) }
{
    match opcode {
        opcode::UNREACHABLE | opcode::NOP | opcode::RETURN | opcode::DROP | opcode::SELECT => Some(
            ImmediateKind::Nothing,
        ),
        opcode::BR | opcode::BR_IF | opcode::CALL | opcode::LOCAL_GET..=opcode::GLOBAL_SET => Some(
            ImmediateKind::Index,
        ),
        opcode::BR_TABLE => Some(ImmediateKind::Labels),
        opcode::CALL_INDIRECT => Some(ImmediateKind::IndexReserved),
        opcode::FIRST_ACCESS..=opcode::LAST_ACCESS => match MemoryOp::from_opcode(opcode) {
            Some(_) => Some(ImmediateKind::Memarg),
            None => None,
        },
        opcode::MEMORY_SIZE | opcode::MEMORY_GROW => Some(ImmediateKind::Reserved),
        opcode::I32_CONST => Some(ImmediateKind::Signed32),
        opcode::I64_CONST => Some(ImmediateKind::Signed64),
        opcode::F32_CONST => Some(ImmediateKind::Word32),
        opcode::F64_CONST => Some(ImmediateKind::Word64),
        _ => match numeric_of(profile, opcode) {
            Some(_) => Some(ImmediateKind::Nothing),
            None => None,
        },
    }
}
