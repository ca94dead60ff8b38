//! Binary digits with zeros between them.

ghost use Rattle.std.specs.Prelude.{◌≡◌, ◌<◌, ◌^◌};
ghost use Rattle.avail_bits.specs.Spread.{spread};

/// The binary digits of a number, with a zero above each.
#[inline(always)]
pub fn spread2(x: u32) -> u64
    requires { x < 2 ^ 21 }
    ensures { result ≡ spread 4 21 x }
{
    let wide = u64::from(x);
    let halves = (wide | wide << 16) & 0x0000_FFFF_0000_FFFF;
    let bytes = (halves | halves << 8) & 0x00FF_00FF_00FF_00FF;
    let fours = (bytes | bytes << 4) & 0x0F0F_0F0F_0F0F_0F0F;
    let pairs = (fours | fours << 2) & 0x3333_3333_3333_3333;
    (pairs | pairs << 1) & 0x5555_5555_5555_5555
}

/// The binary digits of a number, with two zeros above each.
#[inline(always)]
pub fn spread3(x: u32) -> u64
    requires { x < 2 ^ 21 }
    ensures { result ≡ spread 8 21 x }
{
    let wide = u64::from(x);
    let halves = (wide | wide << 32) & 0x001F_0000_0000_FFFF;
    let bytes = (halves | halves << 16) & 0x001F_0000_FF00_00FF;
    let fours = (bytes | bytes << 8) & 0x100F_00F0_0F00_F00F;
    let pairs = (fours | fours << 4) & 0x10C3_0C30_C30C_30C3;
    (pairs | pairs << 2) & 0x1249_2492_4924_9249
}
