//! Every second or third binary digit of a number.

ghost use Rattle.std.specs.Prelude.{◌≡◌, ◌<◌, ◌^◌};
ghost use Rattle.avail_bits.specs.Spread.{gather};

/// The lowest binary digit of a number and every second one above it.
#[inline(always)]
pub fn gather2(m: u64) -> u32
    requires { m < 2 ^ 42 }
    ensures value { result ≡ gather 4 21 m }
    ensures within { result < 2 ^ 21 }
{
    let ones = m & 0x5555_5555_5555_5555;
    let pairs = (ones | ones >> 1) & 0x3333_3333_3333_3333;
    let fours = (pairs | pairs >> 2) & 0x0F0F_0F0F_0F0F_0F0F;
    let bytes = (fours | fours >> 4) & 0x00FF_00FF_00FF_00FF;
    let halves = (bytes | bytes >> 8) & 0x0000_FFFF_0000_FFFF;
    ((halves | halves >> 16) & 0x1F_FFFF) as u32
}

/// The lowest binary digit of a number and every third one above it.
#[inline(always)]
pub fn gather3(m: u64) -> u32
    requires { m < 2 ^ 63 }
    ensures value { result ≡ gather 8 21 m }
    ensures within { result < 2 ^ 21 }
{
    let ones = m & 0x1249_2492_4924_9249;
    let pairs = (ones | ones >> 2) & 0x10C3_0C30_C30C_30C3;
    let fours = (pairs | pairs >> 4) & 0x100F_00F0_0F00_F00F;
    let bytes = (fours | fours >> 8) & 0x001F_0000_FF00_00FF;
    let halves = (bytes | bytes >> 16) & 0x001F_0000_0000_FFFF;
    ((halves | halves >> 32) & 0x1F_FFFF) as u32
}
