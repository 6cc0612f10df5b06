// Numbers as bytes, the low byte first, and sections of entries one after the other (01, "The record").
#![tactic(auto)]

ghost use Rattle.std.specs.Prelude.{◌≡◌, ℕ, map, ◌*◌, length};
ghost use Rattle.byte_codes.specs.Bytes.{bytes_of, number_in, packed, unpacked, complement, from_complement};

// A number that stands in bytes: in how many, and the code that they make, a whole number's in two's complement.
pub trait Number: Copy {
    ghost WIDTH: { ℕ };

    const WIDTH: usize;

    ghost code: { Self → ℕ };

    ghost from_code: { ℕ → Self };

    fn put(self, out: &mut [u8])
        requires { length out.old ≡ WIDTH }
        ensures { out.new ≡ bytes_of WIDTH (code self) };

    fn read(bytes: &[u8]) -> Self
        requires { length bytes.now ≡ WIDTH }
        ensures { result ≡ from_code (number_in bytes.now) };
}

impl Number for u16 {
    ghost WIDTH = { 2 };

    const WIDTH: usize = 2;

    ghost code = { λ x. x };

    ghost from_code = { λ x. x };

    fn put(self, out: &mut [u8]) {
        out.copy_from_slice(&u16::to_le_bytes(self));
    }

    fn read(bytes: &[u8]) -> u16 {
        u16::from_le_bytes([bytes[0], bytes[1]])
    }
}

impl Number for u32 {
    ghost WIDTH = { 4 };

    const WIDTH: usize = 4;

    ghost code = { λ x. x };

    ghost from_code = { λ x. x };

    fn put(self, out: &mut [u8]) {
        out.copy_from_slice(&u32::to_le_bytes(self));
    }

    fn read(bytes: &[u8]) -> u32 {
        u32::from_le_bytes([bytes[0], bytes[1], bytes[2], bytes[3]])
    }
}

impl Number for i16 {
    ghost WIDTH = { 2 };

    const WIDTH: usize = 2;

    ghost code = { complement 16 };

    ghost from_code = { from_complement 16 };

    fn put(self, out: &mut [u8]) {
        out.copy_from_slice(&i16::to_le_bytes(self));
    }

    fn read(bytes: &[u8]) -> i16 {
        i16::from_le_bytes([bytes[0], bytes[1]])
    }
}

impl Number for i8 {
    ghost WIDTH = { 1 };

    const WIDTH: usize = 1;

    ghost code = { complement 8 };

    ghost from_code = { from_complement 8 };

    fn put(self, out: &mut [u8]) {
        out.copy_from_slice(&i8::to_le_bytes(self));
    }

    fn read(bytes: &[u8]) -> i8 {
        i8::from_le_bytes([bytes[0]])
    }
}

// ---- sections: two bytes an entry of z1 and of the list, one of z2 dagger
// Parts of the bytes go by the index: of what `chunks_exact_mut` lends, and after another adapter of `iter_mut` than `enumerate`, a proof knows nothing of the values.

pub fn pack<T: Number>(entries: &[T], out: &mut [u8])
    requires { length out.old ≡ T.WIDTH * length entries.now }
    ensures { out.new ≡ packed T.WIDTH (map T.code entries.now) }
{
    for (i, &entry) in entries.iter().enumerate() {
        entry.put(&mut out[T::WIDTH * i..T::WIDTH * (i + 1)]);
    }
}

pub fn unpack<T: Number>(bytes: &[u8], entries: &mut [T])
    requires { length bytes.now ≡ T.WIDTH * length entries.old }
    ensures { entries.new ≡ map T.from_code (unpacked T.WIDTH (length entries.old) bytes.now) }
{
    for (i, entry) in entries.iter_mut().enumerate() {
        *entry = T::read(&bytes[T::WIDTH * i..T::WIDTH * (i + 1)]);
    }
}
