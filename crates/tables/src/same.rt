// Two tables compared.
ghost use Rattle.std.specs.Prelude.{◌≡◌, true, false, length};
ghost use Rattle.words.specs.Sizes.{table_words};

// Whether two tables have the same words.
pub(crate) fn same(one: &[u32], two: &[u32]) -> bool
    requires { (length one.now ≡ table_words) × (length two.now ≡ table_words) }
    ensures { (result ≡ true → one.now ≡ two.now) × (result ≡ false → one.now ≡ two.now → ⊥) }
{
    one == two
}
