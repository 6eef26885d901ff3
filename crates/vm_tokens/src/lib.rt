// The mnemonics written: `token` of core/src/vm/opcodes.rs.
#![tactic(auto)]

ghost use Rattle.std.specs.Prelude.{◌≡◌};
ghost use Rattle.text_write.specs.Put.{put_count, put_into};
ghost use Rattle.vm_mnemonics.specs.Mnemonics.{mnemonic};

use vm_opcodes::OlaOpcode;

// Writes the operation's mnemonic.
pub fn put_token(opcode: OlaOpcode, text: &mut [u8], at: usize) -> Option<usize>
    ensures { (result ≡ put_count text.old at (mnemonic opcode)) × (text.new ≡ put_into text.old at (mnemonic opcode)) }
{
    text_write::put_bytes(text, at, vm_mnemonics::mnemonic(opcode))
}
