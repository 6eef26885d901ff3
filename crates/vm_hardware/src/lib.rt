// Registers: core/src/vm/hardware.rs, registers only.
#![tactic(auto)]

ghost use Rattle.std.specs.Prelude.{◌≡◌};
ghost use Rattle.vm_hardware.specs.Registers.{place_index, register_index, register_bit, register_mask, register_in};

// The ten registers, in the order of the Rust.
#[derive(Clone, Copy)]
pub enum OlaRegister {
    R0,
    R1,
    R2,
    R3,
    R4,
    R5,
    R6,
    R7,
    R8,
    R9,
}

#[derive(Clone, Copy)]
pub enum OlaSpecialRegister {
    PC,
    PSP,
}

// The three places of an instruction: 0 op0, 1 op1, 2 dst.
#[derive(Clone, Copy)]
pub enum Place {
    Op0,
    Op1,
    Dst,
}

// The registers by their index.
pub const REGISTERS: [OlaRegister; 10] = [
    OlaRegister::R0,
    OlaRegister::R1,
    OlaRegister::R2,
    OlaRegister::R3,
    OlaRegister::R4,
    OlaRegister::R5,
    OlaRegister::R6,
    OlaRegister::R7,
    OlaRegister::R8,
    OlaRegister::R9,
];

// The bits of the ten registers in each of the three places, by the place's index.
const REGISTER_SHIFTS: [[u8; 10]; 3] = [
    [52, 53, 54, 55, 56, 57, 58, 59, 60, 61],
    [42, 43, 44, 45, 46, 47, 48, 49, 50, 51],
    [32, 33, 34, 35, 36, 37, 38, 39, 40, 41],
];

impl Place {
    pub fn index(self) -> usize
        ensures { result ≡ place_index self }
    {
        self as usize
    }
}

impl OlaRegister {
    pub fn index(self) -> usize
        ensures { result ≡ register_index self }
    {
        self as usize
    }

    // The bit of a first word that stands for the register in a place.
    pub fn binary_bit_shift(self, place: Place) -> u8
        ensures { result ≡ register_bit place self }
    {
        REGISTER_SHIFTS[place.index()][self.index()]
    }

    // The word that has this bit alone: `binary_bit_mask_as_op0`, `_as_op1` and `_as_dst` of the Rust.
    pub fn binary_bit_mask(self, place: Place) -> u64
        ensures { result ≡ register_mask place self }
    {
        1 << self.binary_bit_shift(place)
    }
}

// The register of a place in a first word: the lowest whose bit is set. All ten are looked at, from the lowest up: `clear` is 1 until one is set and 0 from
// there on, so `found` counts the registers before the first that is set, ten where none is.
pub fn lowest_register(word: u64, place: Place) -> Option<OlaRegister>
    ensures { result ≡ register_in place word }
{
    let mut clear = 1;
    let mut found = 0;
    for shift in REGISTER_SHIFTS[place.index()] {
        let bit = (word >> shift) % 2;
        clear -= clear * bit;
        found += clear as usize;
    }
    REGISTERS.get(found).copied()
}
