// Why texts are not all written.
use fb_desk::Output;
use fb_units::NoMemory;

/// Why texts are not all written.
#[derive(Drop)]
pub enum TextsError {
    /// A call that writes the output failed.
    WriteFault(Output),
    /// Out of memory.
    NoMemory,
}

impl From<NoMemory> for TextsError {
    ghost use Rattle.std.specs.Prelude.{◌≡◌};
    ghost use Rattle.fb_texts.specs.declared.error.TextsError.TheVariants as faults;

    ghost from_gives = { λ _ e. e ≡ faults.NoMemory };

    fn from(_: NoMemory) -> TextsError {
        TextsError::NoMemory
    }
}
