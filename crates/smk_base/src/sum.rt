//! Digests of contents.

ghost use Rattle.std.specs.Prelude.{◌≡◌, bytes_eq};

/// The SHA-256 of a content, of which contracts see the 32 bytes.
#[derive(Clone, Copy, PartialEq, Eq)]
pub struct Sum(pub [u8; 32]);

impl Sum {
    /// Whether the two are the same bytes.
    pub fn is(&self, other: &Sum) -> bool
        ensures { result ≡ bytes_eq self.now.0 other.now.0 }
    {
        self.0.as_slice() == other.0.as_slice()
    }
}
