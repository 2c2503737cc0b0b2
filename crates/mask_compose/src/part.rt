//! Parts of locale objects.

ghost use Rattle.std.specs.Prelude.{◌≡◌, ℕ};

/// What a locale object holds for one category.
///
/// Its meaning is a number. Sharing a part takes no memory, so that an object can be handed out by
/// calls that are never refused as out of memory.
pub trait Part: Drop {
    /// The number that the part stands for.
    ghost number: { Self → ℕ };

    /// The part once more, without taking memory.
    fn share(&self) -> Self
        ensures { number result ≡ number self.now };
}
