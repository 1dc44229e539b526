// Signed numbers of 32 bits.
ghost use Rattle.std.specs.Prelude.{◌≡◌, ◌^◌, ◌<◌, ◌+ℤ◌, ◌-ℤ◌, Some, None, if◌then◌else◌};
ghost use Rattle.std.specs.Int.Signed.{shr_z};
ghost use Rattle.loading.specs.Run.{signed16};
ghost use Rattle.machine.specs.Numbers.{signed, bits, is_signed32};

// Sign-extends 16 bits to 32.
pub(crate) fn signed16(n: u32) -> u32
    requires { n < 65536 }
    ensures { result ≡ signed16 n }
{
    i32::from((n as u16).cast_signed()).cast_unsigned()
}

// Returns the signed sum, if it fits 32 bits.
pub(crate) fn sum(a: u32, b: u32) -> Option<u32>
    ensures { result ≡ (if is_signed32 (signed a +ℤ signed b) then Some (bits (signed a +ℤ signed b)) else None) }
{
    let sum = a.cast_signed().checked_add(b.cast_signed());
    sum.map(i32::cast_unsigned)
}

// Returns the signed difference, if it fits 32 bits.
pub(crate) fn difference(a: u32, b: u32) -> Option<u32>
    ensures { result ≡ (if is_signed32 (signed a -ℤ signed b) then Some (bits (signed a -ℤ signed b)) else None) }
{
    let difference = a.cast_signed().checked_sub(b.cast_signed());
    difference.map(i32::cast_unsigned)
}

// Divides the signed number by 2^count, rounding down.
pub(crate) fn shift_right(a: u32, count: u32) -> u32
    requires { count < 32 }
    ensures { result ≡ bits (shr_z (signed a) (2 ^ count)) }
{
    (a.cast_signed() >> count).cast_unsigned()
}
