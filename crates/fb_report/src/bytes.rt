// Whether and how bytes are shown.
ghost use Rattle.std.specs.Prelude.{◌≡◌};
ghost use Rattle.fb_report.specs.Shown.{digested};

/// How the bytes that a read or a delivery found are shown.
#[derive(Clone, Copy)]
pub enum Bytes {
    /// Not at all: a dash.
    Nothing,
    /// Their SHA-256, in lower-case hexadecimal digits.
    Digest,
    /// Themselves, in lower-case hexadecimal digits.
    Dump,
}

impl Bytes {
    /// In the same way, but as a digest wherever the bytes themselves are shown.
    pub fn digested(self) -> Bytes
        ensures { result ≡ digested self }
    {
        match self {
            Bytes::Nothing => Bytes::Nothing,
            Bytes::Digest | Bytes::Dump => Bytes::Digest,
        }
    }
}
