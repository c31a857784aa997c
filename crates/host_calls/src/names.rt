ghost use Rattle.std.specs.Prelude.{◌≡◌, ◌↔◌, Some, IsTrue};
ghost use Rattle.host_calls.specs.Host.{text_of};

/// The functions of the host.
#[derive(Clone, Copy, Debug, PartialEq, Eq)]
pub enum HostName {
    /// `int getchar(void)` (C11 7.21.7.6): the next byte of the input, or -1 at its end.
    Getchar,
    /// `int putchar(int c)` (C11 7.21.7.8): appends a byte to the output, and answers it.
    Putchar,
    /// `void exit(int s)` (C11 7.22.4.4): ends the program with s modulo 256 (own).
    Exit,
    /// `void abort(void)` (C11 7.22.4.1): ends the program with 134 (own).
    Abort,
    /// `void *malloc(unsigned long n)` (C11 7.22.3.4): an object of n bytes, or null where the live ones
    /// would pass 67,108,864 bytes (own).
    Malloc,
    /// `void free(void *p)` (C11 7.22.3.3): ends an object that `malloc` made.
    Free,
    /// `void *__builtin_memset(void *p, int c, unsigned long n)` (own): n bytes become c modulo 256.
    Memset,
}

impl HostName {
    /// The function of that name, None exactly where the host has none of it.
    #[tactic(auto, using(crate::proofs::NameLemmas::row_is, crate::proofs::NameLemmas::none_is))]
    pub fn of(text: &[u8]) -> Option<HostName>
        ensures { (name : HostName) → (result ≡ Some name) ↔ (text.now ≡ text_of name) }
    {
        if is_text(text, b"getchar") {
            Some(HostName::Getchar)
        } else if is_text(text, b"putchar") {
            Some(HostName::Putchar)
        } else if is_text(text, b"exit") {
            Some(HostName::Exit)
        } else if is_text(text, b"abort") {
            Some(HostName::Abort)
        } else if is_text(text, b"malloc") {
            Some(HostName::Malloc)
        } else if is_text(text, b"free") {
            Some(HostName::Free)
        } else if is_text(text, b"__builtin_memset") {
            Some(HostName::Memset)
        } else {
            None
        }
    }
}

fn is_text(text: &[u8], name: &[u8]) -> bool
    ensures { IsTrue result ↔ (text.now ≡ name.now) }
{
    text == name
}
