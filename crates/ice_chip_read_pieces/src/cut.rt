//! Where a piece is cut into lines.
ghost use Rattle.std.specs.Prelude.{◌≡◌, ◌∷◌, ◌++◌, IfSome, IfNone};
ghost use Rattle.ice_base.specs.Lines.{IsLine};

use memchr::memchr;

/// The bytes in front of the first line feed, and those behind it.
pub fn cut(piece: &[u8]) -> Option<(&[u8], &[u8])>
    ensures line { IfSome result (λ parts. IsLine parts.0.now) }
    ensures whole { IfSome result (λ parts. piece.now ≡ parts.0.now ++ 10 ∷ parts.1.now) }
    ensures none { IfNone result (IsLine piece.now) }
{
    match memchr(b'\n', piece) {
        Some(end) => Some((&piece[..end], &piece[end + 1..])),
        None => None,
    }
}
