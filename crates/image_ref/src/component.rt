ghost use Rattle.std.specs.Prelude.{◌≡◌};
ghost use Rattle.image_ref.specs.Characters.{is_run_byte};
ghost use Rattle.image_ref.specs.ComponentTest.{reached_after, is_component};

/// What the bytes of a component so far end with.
#[derive(Clone, Copy, Debug, PartialEq, Eq)]
enum Reached {
    /// A run has to begin.
    Boundary,
    Run,
    Underscore,
    Dashes,
    Broken,
}

fn is_run_byte(byte: u8) -> bool
    ensures { result ≡ is_run_byte byte }
{
    byte.is_ascii_lowercase() || byte.is_ascii_digit()
}

fn reached_after(before: Reached, byte: u8) -> Reached
    ensures { result ≡ reached_after before byte }
{
    match before {
        Reached::Broken => Reached::Broken,
        _ if is_run_byte(byte) => Reached::Run,
        Reached::Run if byte == b'.' => Reached::Boundary,
        Reached::Run if byte == b'_' => Reached::Underscore,
        Reached::Underscore if byte == b'_' => Reached::Boundary,
        Reached::Run if byte == b'-' => Reached::Dashes,
        Reached::Dashes if byte == b'-' => Reached::Dashes,
        _ => Reached::Broken,
    }
}

/// Whether a text is one component of a path.
#[tactic(auto, unfolding(crate::specs::ComponentTest::is_component))]
pub fn is_component(text: &str) -> bool
    ensures { result ≡ is_component text.now }
{
    let end = text.as_bytes().iter().fold(
        Reached::Boundary,
        |before, byte| reached_after(before, *byte),
    );
    matches!(end, Reached::Run)
}
