// The difference of a number and the anchor (document 01, "Decisions").
ghost use Rattle.std.specs.Prelude.{◌≡◌};
ghost use Rattle.stream.specs.Decisions.{as_int, signed, difference};

// The signed reading of a difference modulo 65536.
fn signed(w: u16) -> i32
    ensures { result ≡ as_int (signed w) }
{
    i32::from(w.cast_signed())
}

// number - anchor, taken modulo 65536 and read as signed: wrapping 16-bit subtraction, then its signed reading.
pub fn difference(number: u16, anchor: u16) -> i32
    ensures { result ≡ as_int (difference number anchor) }
{
    signed(number.wrapping_sub(anchor))
}
