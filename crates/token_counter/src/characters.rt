//! The tokens of a text are those of its bytes.
ghost use Rattle.std.specs.Prelude.{◌≡◌, ℕ, List};
ghost use Rattle.std.specs.Str.{chars, IsUtf8};
ghost use Rattle.slice_group_simd.specs.declared.AsciiClass.{AsciiClass};
ghost use Rattle.token_counter.specs.Tokens.{token_count};

use slice_group_simd::laws::class_counts_add_up;

/// The characters of a text have as many tokens of each class as its bytes: a character beyond ASCII is of the class `Other`, and so
/// is each of its bytes.
pub fn characters_agree()
    ensures { (class : AsciiClass) (bytes : List ℕ) → IsUtf8 bytes → token_count class (chars bytes) ≡ token_count class bytes }
{
    class_counts_add_up();
}
