// The fields of a line.
ghost use Rattle.std.specs.Prelude.{◌≡◌, [], ◌∷◌, length, MatchOption, ◌≢◌};
ghost use Rattle.text.specs.Fields.{fields};

use crate::cutting::cut;

// The six fields of a line of a sheet.
#[derive(Drop)]
pub struct Fields<'a> {
    pub number: &'a [u8],
    pub kind: &'a [u8],
    pub a: &'a [u8],
    pub b: &'a [u8],
    pub c: &'a [u8],
    pub d: &'a [u8],
}

// The first field of a line, and the rest of the line after its comma; nothing where the line is one field.
fn first_field<'a>(line: &'a [u8]) -> Option<(&'a [u8], &'a [u8])>
    ensures { MatchOption result (fields line.now ≡ line.now ∷ []) (λ p. fields line.now ≡ p.0.now ∷ fields p.1.now) }
{
    cut(line, b',')
}

// The fields of a line that has just six.
pub fn six_fields<'a>(line: &'a [u8]) -> Option<Fields<'a>>
    ensures { MatchOption result (length (fields line.now) ≢ 6) (λ f. fields line.now ≡ f.number.now ∷ f.kind.now ∷ f.a.now ∷ f.b.now ∷ f.c.now ∷ f.d.now ∷ []) }
{
    let (number, rest) = first_field(line)?;
    let (kind, rest) = first_field(rest)?;
    let (a, rest) = first_field(rest)?;
    let (b, rest) = first_field(rest)?;
    let (c, d) = first_field(rest)?;
    match first_field(d) {
        Some(_) => None,
        None => Some(Fields {
            number,
            kind,
            a,
            b,
            c,
            d,
        }),
    }
}
