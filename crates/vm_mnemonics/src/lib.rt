// The mnemonics of the operations, and the operation that a piece spells: `token` and `from_str` of core/src/vm/opcodes.rs. Crate vm_tokens writes them.
#![tactic(auto)]

ghost use Rattle.std.specs.Prelude.{◌≡◌, find, length, option_map};
ghost use Rattle.std.specs.Str.{bytes_eq};
ghost use Rattle.vm_mnemonics.specs.Mnemonics.{mnemonic, operation_of};

use vm_opcodes::OlaOpcode;

pub const ADD: [u8; 3] = *b"add";

pub const MUL: [u8; 3] = *b"mul";

pub const EQ: [u8; 2] = *b"eq";

pub const ASSERT: [u8; 6] = *b"assert";

pub const MOV: [u8; 3] = *b"mov";

pub const JMP: [u8; 3] = *b"jmp";

pub const CJMP: [u8; 4] = *b"cjmp";

pub const CALL: [u8; 4] = *b"call";

pub const RET: [u8; 3] = *b"ret";

pub const MLOAD: [u8; 5] = *b"mload";

pub const MSTORE: [u8; 6] = *b"mstore";

pub const END: [u8; 3] = *b"end";

pub const RC: [u8; 5] = *b"range";

pub const AND: [u8; 3] = *b"and";

pub const OR: [u8; 2] = *b"or";

pub const XOR: [u8; 3] = *b"xor";

pub const NOT: [u8; 3] = *b"not";

pub const NEQ: [u8; 3] = *b"neq";

pub const GTE: [u8; 3] = *b"gte";

pub const POSEIDON: [u8; 8] = *b"poseidon";

pub const SLOAD: [u8; 5] = *b"sload";

pub const SSTORE: [u8; 6] = *b"sstore";

pub const TLOAD: [u8; 5] = *b"tload";

pub const TSTORE: [u8; 6] = *b"tstore";

pub const SCCALL: [u8; 6] = *b"sccall";

pub const SIGCHECK: [u8; 8] = *b"sigcheck";

pub const EVENT: [u8; 3] = *b"log";

// The operation's mnemonic, in lower case.
pub fn mnemonic(opcode: OlaOpcode) -> &'static [u8]
    ensures { result.now ≡ mnemonic opcode }
{
    match opcode {
        OlaOpcode::ADD => &ADD,
        OlaOpcode::MUL => &MUL,
        OlaOpcode::EQ => &EQ,
        OlaOpcode::ASSERT => &ASSERT,
        OlaOpcode::MOV => &MOV,
        OlaOpcode::JMP => &JMP,
        OlaOpcode::CJMP => &CJMP,
        OlaOpcode::CALL => &CALL,
        OlaOpcode::RET => &RET,
        OlaOpcode::MLOAD => &MLOAD,
        OlaOpcode::MSTORE => &MSTORE,
        OlaOpcode::END => &END,
        OlaOpcode::RC => &RC,
        OlaOpcode::AND => &AND,
        OlaOpcode::OR => &OR,
        OlaOpcode::XOR => &XOR,
        OlaOpcode::NOT => &NOT,
        OlaOpcode::NEQ => &NEQ,
        OlaOpcode::GTE => &GTE,
        OlaOpcode::POSEIDON => &POSEIDON,
        OlaOpcode::SLOAD => &SLOAD,
        OlaOpcode::SSTORE => &SSTORE,
        OlaOpcode::TLOAD => &TLOAD,
        OlaOpcode::TSTORE => &TSTORE,
        OlaOpcode::SCCALL => &SCCALL,
        OlaOpcode::SIGCHECK => &SIGCHECK,
        OlaOpcode::EVENT => &EVENT,
    }
}

// The operation of the mnemonic that a piece of N bytes is, the first of some.
fn spelled<const N: usize>(piece: &[u8], mnemonics: &[([u8; N], OlaOpcode)]) -> Option<OlaOpcode>
    requires { length piece.now ≡ N }
    ensures { result ≡ option_map (λ m. m.1) (find (λ m. bytes_eq piece.now m.0) mnemonics.now) }
{
    let word: [u8; N] = piece.try_into().unwrap();
    for (mnemonic, opcode) in mnemonics {
        if word == *mnemonic {
            return Some(*opcode);
        }
    }
    None
}

// The operation whose mnemonic a piece is, letter by letter: no other case, nothing around it. The length of the piece decides which mnemonics it is
// compared with.
pub fn from_str(piece: &[u8]) -> Option<OlaOpcode>
    ensures { result ≡ operation_of piece.now }
{
    match piece.len() {
        2 => spelled(piece, &[(EQ, OlaOpcode::EQ), (OR, OlaOpcode::OR)]),
        3 => spelled(
            piece,
            &[
                (ADD, OlaOpcode::ADD),
                (MUL, OlaOpcode::MUL),
                (MOV, OlaOpcode::MOV),
                (JMP, OlaOpcode::JMP),
                (RET, OlaOpcode::RET),
                (END, OlaOpcode::END),
                (AND, OlaOpcode::AND),
                (XOR, OlaOpcode::XOR),
                (NOT, OlaOpcode::NOT),
                (NEQ, OlaOpcode::NEQ),
                (GTE, OlaOpcode::GTE),
                (EVENT, OlaOpcode::EVENT),
            ],
        ),
        4 => spelled(piece, &[(CJMP, OlaOpcode::CJMP), (CALL, OlaOpcode::CALL)]),
        5 => spelled(
            piece,
            &[
                (MLOAD, OlaOpcode::MLOAD),
                (RC, OlaOpcode::RC),
                (SLOAD, OlaOpcode::SLOAD),
                (TLOAD, OlaOpcode::TLOAD),
            ],
        ),
        6 => spelled(
            piece,
            &[
                (ASSERT, OlaOpcode::ASSERT),
                (MSTORE, OlaOpcode::MSTORE),
                (SSTORE, OlaOpcode::SSTORE),
                (TSTORE, OlaOpcode::TSTORE),
                (SCCALL, OlaOpcode::SCCALL),
            ],
        ),
        8 => spelled(
            piece,
            &[
                (POSEIDON, OlaOpcode::POSEIDON),
                (SIGCHECK, OlaOpcode::SIGCHECK),
            ],
        ),
        _ => None,
    }
}
