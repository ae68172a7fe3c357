//! `Display` and `Debug` of number keys: both write the number in decimal digits.

ghost use Rattle.std.specs.Prelude.{Some};
ghost use Rattle.std.specs.Fmt.{decimal, styled_decimal, signed_decimal, styled_signed_decimal};

use super::signed::Signed;
use super::unsigned::Unsigned;
use std::fmt;

impl fmt::Display for Unsigned<1> {
    ghost output = { λ n. Some (decimal n) };

    ghost styled_output = { λ n spec. Some (styled_decimal spec n) };

    fn fmt<W: fmt::Write>(&self, f: &mut fmt::Formatter<W>) -> fmt::Result {
        u8::from(*self).fmt(f)
    }
}

impl fmt::Display for Unsigned<2> {
    ghost output = { λ n. Some (decimal n) };

    ghost styled_output = { λ n spec. Some (styled_decimal spec n) };

    fn fmt<W: fmt::Write>(&self, f: &mut fmt::Formatter<W>) -> fmt::Result {
        u16::from(*self).fmt(f)
    }
}

impl fmt::Display for Unsigned<4> {
    ghost output = { λ n. Some (decimal n) };

    ghost styled_output = { λ n spec. Some (styled_decimal spec n) };

    fn fmt<W: fmt::Write>(&self, f: &mut fmt::Formatter<W>) -> fmt::Result {
        u32::from(*self).fmt(f)
    }
}

impl fmt::Display for Unsigned<8> {
    ghost output = { λ n. Some (decimal n) };

    ghost styled_output = { λ n spec. Some (styled_decimal spec n) };

    fn fmt<W: fmt::Write>(&self, f: &mut fmt::Formatter<W>) -> fmt::Result {
        u64::from(*self).fmt(f)
    }
}

impl fmt::Display for Unsigned<16> {
    ghost output = { λ n. Some (decimal n) };

    ghost styled_output = { λ n spec. Some (styled_decimal spec n) };

    fn fmt<W: fmt::Write>(&self, f: &mut fmt::Formatter<W>) -> fmt::Result {
        u128::from(*self).fmt(f)
    }
}

impl fmt::Display for Signed<1> {
    ghost output = { λ n. Some (signed_decimal n) };

    ghost styled_output = { λ n spec. Some (styled_signed_decimal spec n) };

    fn fmt<W: fmt::Write>(&self, f: &mut fmt::Formatter<W>) -> fmt::Result {
        i8::from(*self).fmt(f)
    }
}

impl fmt::Display for Signed<2> {
    ghost output = { λ n. Some (signed_decimal n) };

    ghost styled_output = { λ n spec. Some (styled_signed_decimal spec n) };

    fn fmt<W: fmt::Write>(&self, f: &mut fmt::Formatter<W>) -> fmt::Result {
        i16::from(*self).fmt(f)
    }
}

impl fmt::Display for Signed<4> {
    ghost output = { λ n. Some (signed_decimal n) };

    ghost styled_output = { λ n spec. Some (styled_signed_decimal spec n) };

    fn fmt<W: fmt::Write>(&self, f: &mut fmt::Formatter<W>) -> fmt::Result {
        i32::from(*self).fmt(f)
    }
}

impl fmt::Display for Signed<8> {
    ghost output = { λ n. Some (signed_decimal n) };

    ghost styled_output = { λ n spec. Some (styled_signed_decimal spec n) };

    fn fmt<W: fmt::Write>(&self, f: &mut fmt::Formatter<W>) -> fmt::Result {
        i64::from(*self).fmt(f)
    }
}

impl fmt::Display for Signed<16> {
    ghost output = { λ n. Some (signed_decimal n) };

    ghost styled_output = { λ n spec. Some (styled_signed_decimal spec n) };

    fn fmt<W: fmt::Write>(&self, f: &mut fmt::Formatter<W>) -> fmt::Result {
        i128::from(*self).fmt(f)
    }
}

impl fmt::Debug for Unsigned<1> {
    ghost debug_output = { λ n. Some (decimal n) };

    fn fmt<W: fmt::Write>(&self, f: &mut fmt::Formatter<W>) -> fmt::Result {
        fmt::Debug::fmt(&u8::from(*self), f)
    }
}

impl fmt::Debug for Unsigned<2> {
    ghost debug_output = { λ n. Some (decimal n) };

    fn fmt<W: fmt::Write>(&self, f: &mut fmt::Formatter<W>) -> fmt::Result {
        fmt::Debug::fmt(&u16::from(*self), f)
    }
}

impl fmt::Debug for Unsigned<4> {
    ghost debug_output = { λ n. Some (decimal n) };

    fn fmt<W: fmt::Write>(&self, f: &mut fmt::Formatter<W>) -> fmt::Result {
        fmt::Debug::fmt(&u32::from(*self), f)
    }
}

impl fmt::Debug for Unsigned<8> {
    ghost debug_output = { λ n. Some (decimal n) };

    fn fmt<W: fmt::Write>(&self, f: &mut fmt::Formatter<W>) -> fmt::Result {
        fmt::Debug::fmt(&u64::from(*self), f)
    }
}

impl fmt::Debug for Unsigned<16> {
    ghost debug_output = { λ n. Some (decimal n) };

    fn fmt<W: fmt::Write>(&self, f: &mut fmt::Formatter<W>) -> fmt::Result {
        fmt::Debug::fmt(&u128::from(*self), f)
    }
}

impl fmt::Debug for Signed<1> {
    ghost debug_output = { λ n. Some (signed_decimal n) };

    fn fmt<W: fmt::Write>(&self, f: &mut fmt::Formatter<W>) -> fmt::Result {
        fmt::Debug::fmt(&i8::from(*self), f)
    }
}

impl fmt::Debug for Signed<2> {
    ghost debug_output = { λ n. Some (signed_decimal n) };

    fn fmt<W: fmt::Write>(&self, f: &mut fmt::Formatter<W>) -> fmt::Result {
        fmt::Debug::fmt(&i16::from(*self), f)
    }
}

impl fmt::Debug for Signed<4> {
    ghost debug_output = { λ n. Some (signed_decimal n) };

    fn fmt<W: fmt::Write>(&self, f: &mut fmt::Formatter<W>) -> fmt::Result {
        fmt::Debug::fmt(&i32::from(*self), f)
    }
}

impl fmt::Debug for Signed<8> {
    ghost debug_output = { λ n. Some (signed_decimal n) };

    fn fmt<W: fmt::Write>(&self, f: &mut fmt::Formatter<W>) -> fmt::Result {
        fmt::Debug::fmt(&i64::from(*self), f)
    }
}

impl fmt::Debug for Signed<16> {
    ghost debug_output = { λ n. Some (signed_decimal n) };

    fn fmt<W: fmt::Write>(&self, f: &mut fmt::Formatter<W>) -> fmt::Result {
        fmt::Debug::fmt(&i128::from(*self), f)
    }
}
