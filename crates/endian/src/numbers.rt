// The numbers that stand in a container: unsigned and signed, of 4 and of 8 bytes, the signed ones in two's complement. The byte order is the
// caller's: `big` has the highest byte first.
ghost use Rattle.std.specs.Prelude.{◌≡◌, Bool, ℕ, List, ◌<◌, ◌^◌, length, FitsSigned};
ghost use Rattle.std.specs.Int.{w32, w64};
ghost use Rattle.endian.specs.Number.{number, digits};
ghost use Rattle.endian.specs.Signed.{signed, signed_digits};
ghost use Rattle.endian.specs.RoundTrip.{length_digits, number_digits, signed_number_digits};
ghost use lib.Dec.{lit<};

use std::convert::AsSlice;

// A number of a fixed count of bytes, in either byte order.
pub trait Number: Copy {
    type Bytes: AsSlice<u8> + Copy;

    // How many bytes one has.
    const WIDTH: usize;

    ghost WIDTH: { ℕ };

    // The number that as many bytes are, and the bytes that a number is.
    ghost value_of: { Bool → List ℕ → Self };

    ghost bytes_of: { Bool → Self → List ℕ };

    // That a number has so many bytes, which each value of the type has.
    ghost fits: { Self → Type 0 };

    fn from_bytes(bytes: &[u8], big: bool) -> Self
        requires { length bytes.now ≡ WIDTH }
        ensures { result ≡ value_of big bytes.now };

    fn to_bytes(self, big: bool) -> Self::Bytes
        ensures { Self.Bytes.items result ≡ bytes_of big self };

    // It has some bytes, always as many, and is what is read from them.
    ghost wide: { 0 < WIDTH };

    ghost length_bytes: { (big : Bool) (v : Self) → length (bytes_of big v) ≡ WIDTH };

    ghost reads_back: { (big : Bool) (v : Self) → fits v → value_of big (bytes_of big v) ≡ v };
}

impl Number for u32 {
    type Bytes = [u8; 4];

    const WIDTH: usize = 4;

    ghost WIDTH = { 4 };

    ghost value_of = { λ big bs. number big bs };

    ghost bytes_of = { λ big v. digits big 4 v };

    ghost fits = { λ v. v < 2 ^ 32 };

    ghost wide = { lit< tt };

    ghost length_bytes = { λ big v. length_digits big 4 v };

    ghost reads_back = { λ big v h. number_digits big 4 v h };

    fn from_bytes(bytes: &[u8], big: bool) -> u32 {
        let bytes = *bytes.first_chunk::<4>().unwrap();
        if big {
            u32::from_be_bytes(bytes)
        } else {
            u32::from_le_bytes(bytes)
        }
    }

    fn to_bytes(self, big: bool) -> [u8; 4] {
        if big {
            self.to_be_bytes()
        } else {
            self.to_le_bytes()
        }
    }
}

impl Number for u64 {
    type Bytes = [u8; 8];

    const WIDTH: usize = 8;

    ghost WIDTH = { 8 };

    ghost value_of = { λ big bs. number big bs };

    ghost bytes_of = { λ big v. digits big 8 v };

    ghost fits = { λ v. v < 2 ^ 64 };

    ghost wide = { lit< tt };

    ghost length_bytes = { λ big v. length_digits big 8 v };

    ghost reads_back = { λ big v h. number_digits big 8 v h };

    fn from_bytes(bytes: &[u8], big: bool) -> u64 {
        let bytes = *bytes.first_chunk::<8>().unwrap();
        if big {
            u64::from_be_bytes(bytes)
        } else {
            u64::from_le_bytes(bytes)
        }
    }

    fn to_bytes(self, big: bool) -> [u8; 8] {
        if big {
            self.to_be_bytes()
        } else {
            self.to_le_bytes()
        }
    }
}

impl Number for i32 {
    type Bytes = [u8; 4];

    const WIDTH: usize = 4;

    ghost WIDTH = { 4 };

    ghost value_of = { λ big bs. signed 31 (number big bs) };

    ghost bytes_of = { λ big z. signed_digits big 4 z };

    ghost fits = { λ z. FitsSigned w32 z };

    ghost wide = { lit< tt };

    ghost length_bytes = { λ big z. length_digits big 4 _ };

    ghost reads_back = { λ big z h. signed_number_digits big 4 z (lit< tt) h.sfits };

    fn from_bytes(bytes: &[u8], big: bool) -> i32 {
        u32::from_bytes(bytes, big).cast_signed()
    }

    fn to_bytes(self, big: bool) -> [u8; 4] {
        u32::to_bytes(self.cast_unsigned(), big)
    }
}

impl Number for i64 {
    type Bytes = [u8; 8];

    const WIDTH: usize = 8;

    ghost WIDTH = { 8 };

    ghost value_of = { λ big bs. signed 63 (number big bs) };

    ghost bytes_of = { λ big z. signed_digits big 8 z };

    ghost fits = { λ z. FitsSigned w64 z };

    ghost wide = { lit< tt };

    ghost length_bytes = { λ big z. length_digits big 8 _ };

    ghost reads_back = { λ big z h. signed_number_digits big 8 z (lit< tt) h.sfits };

    fn from_bytes(bytes: &[u8], big: bool) -> i64 {
        u64::from_bytes(bytes, big).cast_signed()
    }

    fn to_bytes(self, big: bool) -> [u8; 8] {
        u64::to_bytes(self.cast_unsigned(), big)
    }
}
