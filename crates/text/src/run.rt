ghost use Rattle.std.specs.Prelude.{◌≡◌, ℕ, ◌+◌, ◌≤◌, Bool, length, drop};
ghost use Rattle.std.specs.List.{prefix_len};

/// A class of bytes.
pub trait ByteClass {
    ghost has: { ℕ → Bool };

    fn has(b: u8) -> bool
        ensures { result ≡ has b };
}

/// Where the run of bytes of a class that begins at a place ends.
pub fn run_end<C: ByteClass>(text: &[u8], from: usize) -> usize
    ensures ends { result ≡ from + prefix_len C.has (drop from text.now) }
    ensures inside { from ≤ length text.now → result ≤ length text.now }
{
    let rest = bytes_from(text, from);
    from + rest.iter().take_while(|b| C::has(**b)).count()
}

/// The bytes of a text from a place on.
pub(crate) fn bytes_from(text: &[u8], from: usize) -> &[u8]
    ensures { result.now ≡ drop from text.now }
{
    text.get(from..).unwrap_or(b"")
}
