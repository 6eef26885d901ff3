// The spellings of the registers, read and written: `from_str` and `Display` of core/src/vm/hardware.rs.
#![tactic(auto)]

ghost use Rattle.std.specs.Prelude.{◌≡◌};
ghost use Rattle.text_write.specs.Put.{put_count, put_into};
ghost use Rattle.vm_hardware.specs.Registers.{register_text, register_of, special_text, special_of};

use vm_hardware::{OlaRegister, OlaSpecialRegister};

// The register that a piece names: `r0` to `r9`.
#[tactic(auto, unfolding(vm_hardware::specs::Registers::register_of, vm_hardware::specs::Registers::registers, text::specs::Bytes::is_digit))]
pub fn register_from_str(piece: &[u8]) -> Option<OlaRegister>
    ensures { result ≡ register_of piece.now }
{
    match piece {
        [b'r', digit @ b'0'..=b'9'] => Some(vm_hardware::REGISTERS[(digit - b'0') as usize]),
        _ => None,
    }
}

// Writes `r0` to `r9`.
pub fn put_register(register: OlaRegister, text: &mut [u8], at: usize) -> Option<usize>
    ensures { (result ≡ put_count text.old at (register_text register)) × (text.new ≡ put_into text.old at (register_text register)) }
{
    text_write::put_bytes(text, at, &[b'r', b'0' + (register.index() as u8)])
}

// The special register that a piece names: `pc` or `psp`.
#[tactic(auto, using(crate::proofs::Laws::special_by_bytes))]
pub fn special_from_str(piece: &[u8]) -> Option<OlaSpecialRegister>
    ensures { result ≡ special_of piece.now }
{
    match piece {
        b"pc" => Some(OlaSpecialRegister::PC),
        b"psp" => Some(OlaSpecialRegister::PSP),
        _ => None,
    }
}

// Writes `pc` or `psp`.
pub fn put_special(special: OlaSpecialRegister, text: &mut [u8], at: usize) -> Option<usize>
    ensures { (result ≡ put_count text.old at (special_text special)) × (text.new ≡ put_into text.old at (special_text special)) }
{
    let name: &[u8] = match special {
        OlaSpecialRegister::PC => b"pc",
        OlaSpecialRegister::PSP => b"psp",
    };
    text_write::put_bytes(text, at, name)
}
