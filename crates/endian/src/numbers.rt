// What has to be known of a type whose numbers lie in bytes, and the types.
ghost use Rattle.std.specs.Prelude.{◌≡◌, ℕ, ◌≤◌, ◌-◌, ◌++◌, length, replicate};
ghost use Rattle.std.proofs.Common.{rules};
ghost use Rattle.endian.specs.Bytes.{field, put_field};

// A type of numbers of at most eight bytes, which lie with the lowest first.
pub trait Number: Copy {
    // How many bytes a number takes.
    const WIDTH: usize;

    ghost WIDTH: { ℕ };

    // Which number a value is.
    ghost number: { Self → ℕ };

    // The number in the first bytes; bytes behind the end are 0.
    fn read(bytes: &[u8]) -> Self
        ensures { number result ≡ field 0 WIDTH bytes.now };

    // The number written over the first bytes; where there are too few, none is.
    fn write(self, bytes: &mut [u8])
        ensures { bytes.new ≡ put_field 0 WIDTH (number self) bytes.old };

    // A number has a byte, and at most eight.
    ghost some: { 1 ≤ WIDTH };

    ghost few: { WIDTH ≤ 8 };
}

impl Number for u8 {
    const WIDTH: usize = 1;

    ghost WIDTH = { 1 };

    ghost number = { λ n. n };

    fn read(bytes: &[u8]) -> u8 {
        if bytes.len() < 1 {
            return u8::from_le_bytes(padded(bytes));
        }
        u8::from_le_bytes([bytes[0]])
    }

    fn write(self, bytes: &mut [u8]) {
        if 1 <= bytes.len() {
            bytes[0] = self;
        }
    }

    ghost some = { Prim.search rules };

    ghost few = { Prim.search rules };
}

impl Number for u16 {
    const WIDTH: usize = 2;

    ghost WIDTH = { 2 };

    ghost number = { λ n. n };

    fn read(bytes: &[u8]) -> u16 {
        if bytes.len() < 2 {
            return u16::from_le_bytes(padded(bytes));
        }
        u16::from_le_bytes([bytes[0], bytes[1]])
    }

    fn write(self, bytes: &mut [u8]) {
        if 2 <= bytes.len() {
            bytes[..2].copy_from_slice(&self.to_le_bytes());
        }
    }

    ghost some = { Prim.search rules };

    ghost few = { Prim.search rules };
}

impl Number for u32 {
    const WIDTH: usize = 4;

    ghost WIDTH = { 4 };

    ghost number = { λ n. n };

    fn read(bytes: &[u8]) -> u32 {
        if bytes.len() < 4 {
            return u32::from_le_bytes(padded(bytes));
        }
        u32::from_le_bytes([bytes[0], bytes[1], bytes[2], bytes[3]])
    }

    fn write(self, bytes: &mut [u8]) {
        if 4 <= bytes.len() {
            bytes[..4].copy_from_slice(&self.to_le_bytes());
        }
    }

    ghost some = { Prim.search rules };

    ghost few = { Prim.search rules };
}

impl Number for u64 {
    const WIDTH: usize = 8;

    ghost WIDTH = { 8 };

    ghost number = { λ n. n };

    fn read(bytes: &[u8]) -> u64 {
        if bytes.len() < 8 {
            return u64::from_le_bytes(padded(bytes));
        }
        u64::from_le_bytes([
            bytes[0], bytes[1], bytes[2], bytes[3], bytes[4], bytes[5], bytes[6], bytes[7],
        ])
    }

    fn write(self, bytes: &mut [u8]) {
        if 8 <= bytes.len() {
            bytes[..8].copy_from_slice(&self.to_le_bytes());
        }
    }

    ghost some = { Prim.search rules };

    ghost few = { Prim.search rules };
}

// Fewer bytes than N, and zeros behind them.
fn padded<const N: usize>(bytes: &[u8]) -> [u8; N]
    requires { length bytes.now ≤ N }
    ensures { result ≡ bytes.now ++ replicate (N - length bytes.now) 0 }
{
    let mut whole = [0; N];
    whole[..bytes.len()].copy_from_slice(bytes);
    whole
}
