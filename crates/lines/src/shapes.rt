// What the four fields of a line hold, each read whole.
ghost use Rattle.std.specs.Prelude.{◌≡◌, ℕ, ◌≤◌, List, IfSome, MatchOption, Option, Some};
ghost use Rattle.lines.specs.Ranges.{within, name, LacksOne};

use text::fields::Fields;
use text::numbers::{read_integer, read_number};

// What a field may hold.
pub(crate) trait FieldRange {
    type Value: Copy;

    // What a field says, or nothing where it is out of the range.
    ghost value: { List ℕ → Option Self.Value };

    fn read(field: &[u8]) -> Option<Self::Value>
        ensures { result ≡ value field.now };
}

// A number from `LOW` to `HIGH`.
pub(crate) struct Within<const LOW: u16, const HIGH: u16>;

impl<const LOW: u16, const HIGH: u16> FieldRange for Within<LOW, HIGH> {
    type Value = u16;

    ghost value = { within LOW HIGH };

    fn read(field: &[u8]) -> Option<u16> {
        let n = read_number(field, HIGH as u64)? as u16;
        if LOW <= n { Some(n) } else { None }
    }
}

// A name of a variable, an array or a procedure.
pub(crate) struct AName;

impl FieldRange for AName {
    type Value = u8;

    ghost value = { name };

    fn read(field: &[u8]) -> Option<u8> {
        Some(Within::<1, 255>::read(field)? as u8)
    }
}

// An integer of 32 bits.
pub(crate) struct AConstant;

impl FieldRange for AConstant {
    ghost use Rattle.text.specs.Spelling.{integer};

    type Value = i32;

    ghost value = { integer };

    fn read(field: &[u8]) -> Option<i32> {
        read_integer(field)
    }
}

// A line's number.
pub(crate) type ALine = Within<1, 2048>;

// The length of a global, which is 0 for a simple variable.
pub(crate) type GlobalLength = Within<0, 256>;

// The length of an array.
pub(crate) type ArrayLength = Within<1, 256>;

// An unused field is 0.
pub(crate) type Unused = Within<0, 0>;

// What the four fields of a line hold.
pub(crate) fn four<A: FieldRange, B: FieldRange, C: FieldRange, D: FieldRange>(
    f: &Fields<'_>,
) -> Option<(A::Value, B::Value, C::Value, D::Value)>
    ensures { MatchOption result (LacksOne (A.value f.now.a.now) (B.value f.now.b.now) (C.value f.now.c.now) (D.value f.now.d.now))
        (λ v. (A.value f.now.a.now ≡ Some v.0) × (B.value f.now.b.now ≡ Some v.1) × (C.value f.now.c.now ≡ Some v.2) × (D.value f.now.d.now ≡ Some v.3)) }
{
    Some((A::read(f.a)?, B::read(f.b)?, C::read(f.c)?, D::read(f.d)?))
}
