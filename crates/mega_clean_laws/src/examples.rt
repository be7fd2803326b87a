//! What a cleaning lets go of a key.

ghost use Rattle.std.specs.Prelude.{◌≡◌, ◌∷◌, [], map, None, Some};
ghost use Rattle.mega_rows.specs.Trims.{trimmed};
ghost use Rattle.mega_clean_laws.specs.Examples.{three_times};

/// Of a key that was written at 1, 2 and 5, a cleaning up to 3 lets go of the first version: a read at 3 sees the second one, and later reads may see the third.
pub fn the_first_version_is_let_go()
    ensures { map (trimmed 3 three_times) (1 ∷ 2 ∷ 3 ∷ 4 ∷ 5 ∷ []) ≡ None ∷ Some None ∷ None ∷ None ∷ Some None ∷ [] }
{}
