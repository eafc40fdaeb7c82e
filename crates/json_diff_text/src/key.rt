//! A number by which numerals are found again.

const FACTOR: u64 = 0x51_7c_c1_b7_27_22_0a_95;

/// Where in a numeral its next byte stands.
#[derive(Clone, Copy)]
enum Part {
    Whole,
    Fraction,
    Exponent,
}

/// What is known of a numeral, read from left to right.
#[derive(Drop)]
struct Key {
    part: Part,
    negative: bool,
    /// Of the digits from the first to the last that isn't 0.
    hash: u64,
    found: bool,
    /// How many zeros stand behind that last one.
    zeros: u64,
    /// How many digits the fraction has.
    fraction: u64,
    exponent: u64,
    is_exponent_negative: bool,
}

impl Key {
    fn new() -> Key {
        Key {
            part: Part::Whole,
            negative: false,
            hash: 0,
            found: false,
            zeros: 0,
            fraction: 0,
            exponent: 0,
            is_exponent_negative: false,
        }
    }

    fn read(&mut self, byte: u8) {
        match byte {
            b'-' => self.read_sign(),
            b'.' => self.part = Part::Fraction,
            b'e' | b'E' => self.part = Part::Exponent,
            b'0'..=b'9' => self.read_digit(u64::from(byte & 15)),
            _ => {}
        }
    }

    fn read_sign(&mut self) {
        match self.part {
            Part::Exponent => self.is_exponent_negative = true,
            _ => self.negative = true,
        }
    }

    fn read_digit(&mut self, digit: u64) {
        match self.part {
            Part::Whole => self.append(digit),
            Part::Fraction => {
                self.fraction = self.fraction.wrapping_add(1);
                self.append(digit);
            }
            Part::Exponent => {
                self.exponent = self.exponent.wrapping_mul(10).wrapping_add(digit);
            }
        }
    }

    fn append(&mut self, digit: u64) {
        if digit != 0 {
            self.hash = with_word(with_word(self.hash, self.zeros), digit);
            self.zeros = 0;
            self.found = true;
        } else if self.found {
            self.zeros = self.zeros.wrapping_add(1);
        }
    }

    /// Made of the hash, the sign, and the power of ten of the last digit that isn't 0.
    fn number(&self) -> u64 {
        if !self.found {
            return 0;
        }
        let power = if self.is_exponent_negative {
            self.exponent.wrapping_neg()
        } else {
            self.exponent
        };
        let last = self.zeros.wrapping_sub(self.fraction).wrapping_add(power);
        with_word(with_word(self.hash, last), u64::from(self.negative))
    }
}

fn with_word(hash: u64, word: u64) -> u64 {
    (hash.rotate_left(5) ^ word).wrapping_mul(FACTOR)
}

/// The key of a numeral, the same for all numerals of one number. That it is isn't proved: where it
/// weren't, a patch would replace what is equal.
pub(crate) fn key_of(numeral: &str) -> u64 {
    let mut key = Key::new();
    for byte in numeral.as_bytes() {
        key.read(*byte);
    }
    key.number()
}
