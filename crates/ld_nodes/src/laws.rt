//! What the numbers of the definitions tell.
ghost use Rattle.std.specs.Prelude.{◌≡◌, ℕ, List, [], Some};
ghost use Rattle.std.specs.Map.{lookup};
ghost use Rattle.std.specs.BTreeMap.{is_at};
ghost use Rattle.std.specs.declared.cmp.Ordering.TheVariants.{Equal};
ghost use Rattle.ld_nodes.specs.Tables.{Table, met, met_each};

/// A number stands for one key: of keys that are met one after the other, no two have the same.
pub fn numbers_tell_keys_apart<K: Ord>()
    ensures { (keys : List K) (a b : K) (n : ℕ) → lookup (is_at (K.cmp a)) (met_each K.cmp [] keys) ≡ Some n → lookup (is_at (K.cmp b)) (met_each K.cmp [] keys) ≡ Some n → K.cmp a b ≡ Equal }
{}

/// A key keeps its number, whatever is met later.
pub fn keys_keep_their_numbers<K: Ord>()
    ensures { (table : Table K) (later key : K) (n : ℕ) → lookup (is_at (K.cmp key)) table ≡ Some n → lookup (is_at (K.cmp key)) (met K.cmp table later) ≡ Some n }
{}
