//! The lesser of two keys.
ghost use Rattle.std.specs.Prelude.{◌≡◌, [], ◌∷◌, option_copied};
ghost use Rattle.co_state.specs.Search.{least_with};

use co_base::Key;

/// The lesser of a key and of one that was found before.
pub fn lesser_key<'a>(found: Option<&'a Key>, key: &'a Key) -> Option<&'a Key>
    ensures { option_copied result ≡ least_with (option_copied found.entry) (key.now ∷ []) }
{
    match found {
        None => Some(key),
        Some(least) => if *key < *least { Some(key) } else { found },
    }
}
