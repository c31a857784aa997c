ghost use Rattle.std.specs.Prelude.{◌≡◌, map};
ghost use Rattle.std.specs.List.{list_any};
ghost use Rattle.std.specs.Str.{bytes_eq};
ghost use Rattle.cil_base.specs.HostNames.{host_names, is_host_name};

/// The names of the functions that the host gives to programs (own): those whose calls have a meaning, then those that are reserved beside them.
pub const HOST_NAMES: [&str; 17] = [
    "getchar",
    "putchar",
    "exit",
    "abort",
    "malloc",
    "free",
    "__builtin_memset",
    "puts",
    "printf",
    "memcpy",
    "memset",
    "memcmp",
    "strlen",
    "strcmp",
    "calloc",
    "isdigit",
    "abs",
];

/// The names of the functions that the host gives to programs (own), in that order.
pub fn host_names() -> [&'static str; 17]
    ensures { map (λ s. s.now) result ≡ host_names }
{
    HOST_NAMES
}

/// Whether the text is the name of a function that the host gives to programs (own).
pub fn is_host_name(text: &[u8]) -> bool
    ensures { result ≡ is_host_name text.now }
{
    is_one_of(text, &host_names())
}

fn is_one_of(text: &[u8], names: &[&str]) -> bool
    ensures { result ≡ list_any (bytes_eq text.now) (map (λ s. s.now) names.now) }
{
    match names {
        [] => false,
        [name, rest @ ..] => text == name.as_bytes() || is_one_of(text, rest),
    }
}
