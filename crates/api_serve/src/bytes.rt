//! Bytes cut at a separator.
ghost use Rattle.std.specs.Prelude.{◌≡◌, ◌++◌, ◌∷◌, ℕ, List, None, IsTrue, IfSome, MatchOption};
ghost use Rattle.api_serve.specs.Separated.{is_free_of};

use memchr::memchr;

/// What stands before the first separator, and what behind it.
pub fn cut(bytes: &[u8], separator: u8) -> Option<(&[u8], &[u8])>
    ensures some { IfSome result (λ p. (bytes.now ≡ p.0.now ++ separator ∷ p.1.now) × IsTrue (is_free_of separator p.0.now)) }
    ensures none { result ≡ None → IsTrue (is_free_of separator bytes.now) }
{
    match memchr(separator, bytes) {
        Some(at) => Some((&bytes[..at], &bytes[at + 1..])),
        None => None,
    }
}
