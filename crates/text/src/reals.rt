// Reals by their 32 bits, without floating point: as a decimal that reads back to the same bits, or by the bits, as the assembler in outside takes them.
ghost use Rattle.std.specs.Prelude.{◌≤◌, ◌<◌};

use crate::out::say;
use std::io;

const SIGN: u32 = 0x8000_0000;

const INFINITE: u32 = 0x7f80_0000;

// The bits of 2^-10 and of 2^30: between them a real is a whole number of times 2^-33, which is below 2^63.
const LEAST: u32 = 0x3a80_0000;

const MOST: u32 = 0x4e80_0000;

// So many of these parts make 1: 2^33.
const UNIT: u64 = 8_589_934_592;

// As many digits behind the point tell each such real from every other.
const DIGITS: u32 = 11;

// Says a part of 1 behind the point: what is left out is too small to lead to another real.
fn fraction<P: Print>(out: &P, part: u64) -> io::Result<()>
    requires { part < 8_589_934_592 }
{
    let mut rest = part;
    for _ in 0..DIGITS {
        let ten = rest * 10;
        out.print(ten / UNIT)?;
        rest = ten % UNIT;
        if rest == 0 {
            break;
        }
    }
    Ok(())
}

// Says a real from 2^-10 to below 2^30: 24 binary digits, of which the exponent says where they stand.
fn decimal<P: Print>(out: &P, bits: u32) -> io::Result<()>
    requires { (0x3a80_0000 ≤ bits) × (bits < 0x4e80_0000) }
{
    let digits = (bits % 0x80_0000 + 0x80_0000) as u64;
    let parts = digits << (bits / 0x80_0000 - 117);
    out.print(parts / UNIT)?;
    say(out, b".")?;
    fraction(out, parts % UNIT)
}

fn sign<P: Print>(out: &P, bits: u32) -> io::Result<()> {
    if SIGN <= bits {
        say(out, b"-")?;
    }
    Ok(())
}

// Says a real by its bits.
fn as_bits<P: Print>(out: &P, bits: u32) -> io::Result<()> {
    print!(out; "0x{bits:08x}")
}

// Says a real.
pub fn real<P: Print>(out: &P, bits: u32) -> io::Result<()> {
    let size = bits % SIGN;
    if size == 0 {
        sign(out, bits)?;
        return say(out, b"0.0");
    }
    if size == INFINITE {
        sign(out, bits)?;
        return say(out, b"inf");
    }
    if size < LEAST || MOST <= size {
        return as_bits(out, bits);
    }
    sign(out, bits)?;
    decimal(out, size)
}
