// Arithmetic over any kind, known only by its meaning and its laws.
ghost use Rattle.std.specs.Prelude.{◌≡◌, T, Some, None};
ghost use Rattle.std.specs.Option.{option_and_then};
ghost use Rattle.std.specs.Result.{result_ok};
ghost use Rattle.kinds.specs.Arithmetic.{constant_word};

use kinds::NumberKind;

/// A word plus a constant of the kind: lawful if the word is, and `None` where there is no such constant or no such sum.
pub fn plus_constant<K: NumberKind>(a: u32, n: i32) -> Option<u32>
    ensures sum { result ≡ option_and_then (λ b. result_ok (K.kind.sum a b)) (constant_word K.kind n) }
    ensures lawful { T (K.kind.lawful a) → elim result [ Some w ↦ T (K.kind.lawful w) | None ↦ Unit {0} ] }
{
    let b = K::constant(n)?;
    K::add(a, b).ok()
}
