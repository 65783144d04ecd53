//! Units that are added to a stream: the byte 80 of trailing bits, and bytes after it.

ghost use Rattle.std.specs.Prelude.{[], ◌∷◌};
ghost use Rattle.hevc_write_units.specs.Added.{AddsUnit};
ghost use Rattle.hevc_tools_examples.specs.Added.{Adds, AnyMeaning, NoLines, NoMeaning, header_of};

/// A 03 comes before a byte of 0 to 3 after two zeros, and before no other.
pub fn right_units()
    ensures bare { Adds [] (0 ∷ 0 ∷ 1 ∷ 66 ∷ 1 ∷ 128 ∷ []) }
    ensures body { Adds (0 ∷ 0 ∷ 1 ∷ 0 ∷ 0 ∷ 4 ∷ [])
        (0 ∷ 0 ∷ 1 ∷ 66 ∷ 1 ∷ 128 ∷ 0 ∷ 0 ∷ 3 ∷ 1 ∷ 0 ∷ 0 ∷ 4 ∷ []) }
{}

/// A start code of four bytes; a first bit of 1; a 03 that lacks and one too many.
pub fn wrong_bytes()
    ensures start { Adds [] (0 ∷ 0 ∷ 0 ∷ 1 ∷ 66 ∷ 1 ∷ 128 ∷ []) → ⊥ }
    ensures first_bit { Adds [] (0 ∷ 0 ∷ 1 ∷ 194 ∷ 1 ∷ 128 ∷ []) → ⊥ }
    ensures lacking { Adds (0 ∷ 0 ∷ 2 ∷ []) (0 ∷ 0 ∷ 1 ∷ 66 ∷ 1 ∷ 128 ∷ 0 ∷ 0 ∷ 2 ∷ []) → ⊥ }
    ensures needless { Adds (0 ∷ 0 ∷ 4 ∷ []) (0 ∷ 0 ∷ 1 ∷ 66 ∷ 1 ∷ 128 ∷ 0 ∷ 0 ∷ 3 ∷ 4 ∷ []) → ⊥ }
{}

/// A unit that ends in a zero, or has a start code in it; another header, other trailing bits, and another meaning.
pub fn wrong_contents()
    ensures found { Adds (0 ∷ []) (0 ∷ 0 ∷ 1 ∷ 66 ∷ 1 ∷ 128 ∷ 0 ∷ []) → ⊥ }
    ensures whole { Adds (0 ∷ 0 ∷ 1 ∷ []) (0 ∷ 0 ∷ 1 ∷ 66 ∷ 1 ∷ 128 ∷ 0 ∷ 0 ∷ 1 ∷ []) → ⊥ }
    ensures header { AddsUnit (header_of 34) NoLines [] AnyMeaning []
        (0 ∷ 0 ∷ 1 ∷ 66 ∷ 1 ∷ 128 ∷ []) → ⊥ }
    ensures payload { Adds [] (0 ∷ 0 ∷ 1 ∷ 66 ∷ 1 ∷ 192 ∷ []) → ⊥ }
    ensures meant { AddsUnit (header_of 33) NoLines [] NoMeaning []
        (0 ∷ 0 ∷ 1 ∷ 66 ∷ 1 ∷ 128 ∷ []) → ⊥ }
{}
