// Numbers and operands: core/src/vm/operands.rs.
#![tactic(auto)]

ghost use Rattle.std.specs.Prelude.{◌≡◌};
ghost use Rattle.text_write.specs.Put.{put_count, put_into};
ghost use Rattle.text_write.specs.Digits.{fewest_text};
ghost use Rattle.vm_operands.specs.Numbers.{immediate, is_in_field, signed, number_of};

use vm_hardware::{OlaRegister, OlaSpecialRegister};

// A number of the field. Its number may be ORDER or more where a caller makes one, which encoding refuses.
#[derive(Clone, Copy)]
pub struct ImmediateValue {
    pub number: u64,
}

// What a place of an instruction holds: nothing, or one of five contents.
#[derive(Clone, Copy)]
pub enum OlaOperand {
    Empty,
    ImmediateOperand {
        value: ImmediateValue,
    },
    RegisterOperand {
        register: OlaRegister,
    },
    RegisterWithOffset {
        register: OlaRegister,
        offset: ImmediateValue,
    },
    RegisterWithFactor {
        register: OlaRegister,
        factor: ImmediateValue,
    },
    SpecialReg {
        special_reg: OlaSpecialRegister,
    },
}

impl ImmediateValue {
    // The order of the field, p.
    pub const ORDER: u64 = 0xFFFF_FFFF_0000_0001;

    // The largest number of the field, p - 1.
    pub const LARGEST: u64 = Self::ORDER - 1;

    pub fn new(number: u64) -> Self
        ensures { result ≡ immediate number }
    {
        Self { number }
    }

    // A sign and a magnitude in place of the Rust's i128: a negative v becomes p + v, and -0 is 0.
    #[tactic(auto, unfolding(crate::specs::Numbers::signed))]
    pub fn from_sign(negative: bool, magnitude: Option<u64>) -> Option<ImmediateValue>
        ensures { result ≡ signed negative magnitude }
    {
        let m = magnitude?;
        if Self::ORDER <= m {
            return None;
        }
        Some(Self {
            number: if negative && m != 0 {
                Self::ORDER - m
            } else {
                m
            },
        })
    }

    // An optional sign and decimal digits, any count of leading zeros, -p < v < p.
    #[tactic(auto, unfolding(crate::specs::Numbers::number_of))]
    pub fn from_str(piece: &[u8]) -> Option<ImmediateValue>
        ensures { result ≡ number_of piece.now }
    {
        let (negative, digits) = match piece {
            [b'-', digits @ ..] => (true, digits),
            [b'+', digits @ ..] => (false, digits),
            digits => (false, digits),
        };
        Self::from_sign(negative, text_read::read_decimal(digits, Self::LARGEST))
    }

    // Whether the number is below p.
    pub fn in_field(self) -> bool
        ensures { result ≡ is_in_field self }
    {
        self.number < Self::ORDER
    }

    // Writes `0x` and the fewest lower-case digits.
    pub fn put(self, text: &mut [u8], at: usize) -> Option<usize>
        ensures { (result ≡ put_count text.old at (fewest_text self.number)) × (text.new ≡ put_into text.old at (fewest_text self.number)) }
    {
        text_digits::put_fewest(text, at, self.number)
    }
}
