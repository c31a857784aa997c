use crate::equal::equal;
use crate::program::sample_text;
use crate::sample_text::SAMPLE;
use crate::stop::Stop;
use cil_base::{Abi, NamePool};
use cil_layout::bad_place;
use cil_reader::{ReadStop, read};
use std::alloc::Global;
use std::process::Abort;
use std::test::Fail;

/// The place that is named for bytes in a data model, or none where they are read.
fn place_in(alloc: Global, text: &[u8], abi: Abi) -> Result<Option<usize>, ReadStop> {
    let mut pool = NamePool::new(alloc);
    match read(alloc, text, &mut pool, abi) {
        Ok(_) => Ok(None),
        Err(ReadStop::NotCil(place)) => Ok(Some(place)),
        Err(ReadStop::Memory) => Err(ReadStop::Memory),
    }
}

/// The place that is named for bytes in LP64.
fn place_of(alloc: Global, text: &[u8]) -> Result<Option<usize>, ReadStop> {
    place_in(alloc, text, Abi::Lp64)
}

/// The lines of the sample's text.
fn sample_lines(alloc: Global) -> Result<Vec<u8>, Stop> {
    let mut text = Vec::new(alloc);
    for line in &SAMPLE {
        text.extend_from_slice(line.as_bytes())?;
        text.push(b'\n')?;
    }
    Ok(text)
}

fn is_the_sample(rt: &impl Abort, alloc: Global, text: &[u8]) -> Result<(), Stop> {
    let lines = sample_lines(alloc)?;
    equal(rt, &"text", &text, &lines.as_slice());
    equal(rt, &"place", &place_of(alloc, text), &Ok(None));
    Ok(())
}

#[test]
fn the_sample_is_printed_and_read(rt: HostRuntime) -> Result<(), Fail> {
    let text = sample_text(rt.alloc())?;
    is_the_sample(&rt, rt.alloc(), &text)?;
    Ok(())
}

/// Texts of programs.
fn texts() -> &'static [&'static str] {
    &[
        "",
        "int main ( void ) ;\nint main ( void ) {\n  return ( 2 + 3 ) ;\n}\n",
        // aggregates
        "enum e {\n  a = 0 ,\n} ;\n",
        "enum e {\n  a = - 2147483647 - 1 ,\n} ;\n",
        "struct s ;\n",
        "struct s ;\nstruct s {\n  int a ;\n} ;\n",
        // objects
        "extern int x ;\n",
        "extern int x ;\nint x ;\n",
        "static int x ;\n",
        "extern char x ;\nchar x = - 127 - 1 ;\n",
        "extern int x ;\nint x = 3 ;\n",
        "extern int * x ;\nint * x = ( int * ) ( ( char * ) & x + 0L ) ;\n",
        "extern int x [ 2 ] ;\nint x [ 2 ] = { [ 1 ] = 7 } ;\n",
        // declarators
        "extern signed char x ;\n",
        "extern unsigned long long x ;\n",
        "extern int * * x ;\n",
        "extern char x [ ] ;\n",
        "extern int ( * x ) ( ) ;\n",
        "int ( * f ( void ) ) [ 3 ] ;\n",
        "int printf ( char * , ... ) ;\n",
    ]
}

#[test]
fn texts_are_read(rt: HostRuntime) {
    for text in texts() {
        equal(&rt, text, &place_of(rt.alloc(), text.as_bytes()), &Ok(None));
    }
}

/// Bytes that are no text of a program, and the place that is named for them.
fn refused() -> &'static [(&'static str, usize)] {
    &[
        // lines that are laid out: the end
        (
            "int main ( void ) ;\nint main ( void ) {\n  return ( 2 + 3 ) ;\n}\n\n",
            63,
        ),
        (
            "int main ( voit ) ;\nint main ( void ) {\n  return ( 2 + 3 ) ;\n}\n",
            63,
        ),
        ("{\n  break ;\n}\n", 14),
        ("{\n} else {\n  x ;\n}\n", 19),
        ("a <<= b ;\n", 10),
        ("%:%: x\n", 7),
        // a digraph is no brace
        ("<% ;\nx ;\n", 9),
        // no word, a blank too few or too many, a tab
        ("x ;\n\ny ;\n", 4),
        ("int main;\n", 0),
        ("int  main ;\n", 0),
        ("int main ; \n", 0),
        ("int\tmain ;\n", 0),
        // another indentation, a brace that is not open
        ("{\n break ;\n}\n", 2),
        ("}\n", 0),
        ("{ } } ;\n", 0),
        // signs that C has not
        ("int x ;\n@ ;\n", 8),
        ("a <<< b ;\n", 0),
        // another storage class
        ("int x ;\n", 8),
        ("extern int main ( void ) ;\n", 27),
        ("static int x ;\nint x ;\n", 23),
        // the least value of a narrow kind, a suffix, a zero, braces around a scalar
        ("extern char x ;\nchar x = - 128 ;\n", 33),
        ("extern int x ;\nint x = 3U ;\n", 28),
        ("extern int x ;\nint x = 0 ;\n", 27),
        ("extern int x ;\nint x = { 3 } ;\n", 31),
        // an offset that is left out, elements in another order
        (
            "extern int * x ;\nint * x = ( int * ) ( ( char * ) & x ) ;\n",
            58,
        ),
        (
            "extern int x [ 2 ] ;\nint x [ 2 ] = { [ 1 ] = 7 , [ 0 ] = 7 } ;\n",
            63,
        ),
        // an enumerator without its number, a tag that stands nowhere alone, a struct that holds itself
        ("enum e {\n  a ,\n} ;\n", 19),
        ("struct s {\n  int a ;\n} ;\n", 25),
        ("struct s ;\nstruct s {\n  struct s a ;\n} ;\n", 41),
        // a parenthesis too many or too few
        ("extern int ( x ) ;\n", 19),
        ("int ( * f ( void ) [ 3 ] ;\n", 27),
        // words in another order or too many, a qualifier, a tag that is not known
        ("extern long int x ;\n", 20),
        ("extern char signed x ;\n", 23),
        ("extern const int x ;\n", 21),
        ("extern struct s x ;\n", 20),
        // a parameter, a bound or the last comma is missing
        ("int f ( int , ) ;\n", 18),
        ("int f ( , ... ) ;\n", 18),
        ("extern int x [ 3 ;\n", 19),
    ]
}

#[test]
fn other_bytes_are_refused(rt: HostRuntime) {
    for (text, place) in refused() {
        equal(&rt, text, &bad_place(text.as_bytes()), place);
        let found = place_of(rt.alloc(), text.as_bytes());
        equal(&rt, text, &found, &Ok(Some(*place)));
    }
}

/// Expressions (C11 6.5), and whether they are spelled as in a text.
fn expressions() -> &'static [(&'static str, bool)] {
    &[
        ("0", true),
        ("18446744073709551615ULL", true),
        ("( 1 + 2 )", true),
        ("( - 1L )", true),
        ("( ( ~ 0U ) << 3 )", true),
        ("( ( long ) ( ! 5 ) )", true),
        ("( * ( ( int * ) 4096UL ) )", true),
        ("( & ( * ( ( int * ) 4096UL ) ) )", true),
        ("( * ( ( int ( * ) [ 2 ] ) 4096UL ) ) [ 1 ]", true),
        // parentheses too many or none
        ("1 + 2", false),
        ("( 1 )", false),
        ("( ( 1 + 2 ) )", false),
        ("( 1 + 2", false),
        // a suffix of two cases, a number of 65 bits
        ("1Ul", false),
        ("18446744073709551616ULL", false),
        // an operand is missing, another separator, a name that is not known, nothing
        ("( 1 + )", false),
        ("( 1 , 2 )", false),
        ("( 1 + x )", false),
        (";", false),
    ]
}

/// The lines of a function that returns the value of an expression as an `int`.
fn returning(alloc: Global, expression: &str) -> Result<Vec<u8>, Stop> {
    let mut text = Vec::new(alloc);
    text.extend_from_slice(b"int main ( void ) ;\nint main ( void ) {\n  return ( ( int ) ")?;
    text.extend_from_slice(expression.as_bytes())?;
    text.extend_from_slice(b" ) ;\n}\n")?;
    Ok(text)
}

#[test]
fn expressions_are_read(rt: HostRuntime) -> Result<(), Fail> {
    for (expression, spelled) in expressions() {
        let text = returning(rt.alloc(), expression)?;
        let place = if *spelled { None } else { Some(text.len()) };
        equal(&rt, expression, &place_of(rt.alloc(), &text), &Ok(place));
    }
    Ok(())
}

/// Lines of a body of `int main ( void )` (C11 6.8), and whether they are those of a text.
fn bodies() -> &'static [(&'static str, bool)] {
    &[
        ("", true),
        ("  return 0 ;\n", true),
        ("  {\n  }\n", true),
        ("  if ( 1 ) {\n    return 1 ;\n  } else {\n  }\n", true),
        ("  while ( 1 ) {\n    break ;\n  }\n", true),
        (
            "  switch ( 1L ) {\n    case - 3L : ;\n    case 4L : ;\n    default : ;\n    break ;\n  }\n",
            true,
        ),
        ("  L : ;\n  goto L ;\n", true),
        ("  goto out ;\n  out : ;\n", true),
        ("  int x ;\n  x = 1 ;\n", true),
        ("  int x ;\n  x = main ( ) ;\n", true),
        ("  int x [ 3 ] ;\n  x [ 2L ] = 1 ;\n", true),
        ("  main ( ) ;\n", true),
        ("  int ( * f ) ( void ) ;\n  ( * f ) ( ) ;\n", true),
        (
            "  int x ;\n  __builtin_memset ( ( & x ) , 0 , 4UL ) ;\n",
            true,
        ),
        // a value that is missing, and one too many
        ("  return ;\n", false),
        ("  return 0 0 ;\n", false),
        // a part of an `if` that is missing, and one in a line of its own
        ("  if ( 1 ) {\n  }\n", false),
        ("  if ( 1 ) {\n  }\n  else {\n  }\n", false),
        ("  if 1 {\n  } else {\n  }\n", false),
        // other loops, and what C has and a text has not
        ("  while ( 2 ) {\n  }\n", false),
        ("  for ( ; ; ) {\n  }\n", false),
        ("  while ( 1 ) {\n    continue ;\n  }\n", false),
        // labels with a statement or without one, twice, and that stand nowhere
        ("  L : return 0 ;\n", false),
        ("  L :\n", false),
        ("  L : ;\n  L : ;\n", false),
        ("  goto L ;\n", false),
        // what stands in nothing that it belongs to, twice, and with another kind
        ("  break ;\n", false),
        ("  case 1 : ;\n", false),
        ("  default : ;\n", false),
        (
            "  switch ( 1 ) {\n    case 1 : ;\n    case 1 : ;\n  }\n",
            false,
        ),
        ("  switch ( 1L ) {\n    case 1 : ;\n  }\n", false),
        ("  switch ( 1 ) {\n    default ;\n  }\n", false),
        // an object with a value, behind statements, twice, and that stands nowhere
        ("  int x = 1 ;\n", false),
        ("  int x ;\n  x = 1 ;\n  int y ;\n", false),
        ("  int x ;\n  int x ;\n", false),
        ("  x = 1 ;\n", false),
        // another type, another operator, and an expression alone
        ("  long x ;\n  x = 1 ;\n", false),
        ("  int x ;\n  x += 1 ;\n", false),
        ("  1 ;\n", false),
        // an argument too many, and the bytes of another object
        ("  main ( 1 ) ;\n", false),
        (
            "  int x ;\n  __builtin_memset ( ( & x ) , 0 , 8UL ) ;\n",
            false,
        ),
        ("  int x ;\n  __builtin_memset ( & x , 0 , 4UL ) ;\n", false),
        // a block that is not closed
        ("  {\n", false),
    ]
}

/// The text of a program with `__builtin_memset` and these lines of `int main ( void )`.
fn with_body(alloc: Global, lines: &str) -> Result<Vec<u8>, Stop> {
    let mut text = Vec::new(alloc);
    text.extend_from_slice(b"void * __builtin_memset ( void * , int , unsigned long ) ;\n")?;
    text.extend_from_slice(b"int main ( void ) ;\nint main ( void ) {\n")?;
    text.extend_from_slice(lines.as_bytes())?;
    text.extend_from_slice(b"}\n")?;
    Ok(text)
}

/// Whether these lines of a body are those of a text in a data model.
fn is_body(alloc: Global, lines: &str, abi: Abi) -> Result<bool, Fail> {
    let text = with_body(alloc, lines)?;
    Ok(place_in(alloc, &text, abi)?.is_none())
}

#[test]
fn bodies_are_read(rt: HostRuntime) -> Result<(), Fail> {
    for (lines, spelled) in bodies() {
        let found = is_body(rt.alloc(), lines, Abi::Lp64)?;
        equal(&rt, lines, &found, spelled);
    }
    Ok(())
}

/// Lines of a body, and whether they are those of a text in LP64, and in ILP32.
fn models() -> &'static [(&'static str, bool, bool)] {
    &[
        // constants of `long` and `unsigned long`, which are values of their kinds
        ("  return ( ( int ) 2147483647L ) ;\n", true, true),
        ("  return ( ( int ) 2147483648L ) ;\n", true, false),
        ("  return ( ( int ) 4294967295UL ) ;\n", true, true),
        ("  return ( ( int ) 4294967296UL ) ;\n", true, false),
        ("  return ( ( int ) 4294967296LL ) ;\n", true, true),
        // the least value of `long`
        (
            "  switch ( 1L ) {\n    case - 2147483648L : ;\n  }\n",
            true,
            false,
        ),
        (
            "  switch ( 1L ) {\n    case - 2147483647L - 1 : ;\n  }\n",
            false,
            true,
        ),
        // the bytes of a pointer, of a `long` and of a `long long`
        (
            "  int * x ;\n  __builtin_memset ( ( & x ) , 0 , 8UL ) ;\n",
            true,
            false,
        ),
        (
            "  int * x ;\n  __builtin_memset ( ( & x ) , 0 , 4UL ) ;\n",
            false,
            true,
        ),
        (
            "  unsigned long x ;\n  __builtin_memset ( ( & x ) , 0 , 4UL ) ;\n",
            false,
            true,
        ),
        (
            "  long long x ;\n  __builtin_memset ( ( & x ) , 0 , 8UL ) ;\n",
            true,
            true,
        ),
        // a difference has type `long`
        ("  int * x ;\n  long y ;\n  y = ( x - x ) ;\n", true, true),
        ("  int * x ;\n  int y ;\n  y = ( x - x ) ;\n", false, false),
    ]
}

#[test]
fn bodies_are_read_in_a_model(rt: HostRuntime) -> Result<(), Fail> {
    for (lines, eight, four) in models() {
        equal(
            &rt,
            lines,
            &[
                is_body(rt.alloc(), lines, Abi::Lp64)?,
                is_body(rt.alloc(), lines, Abi::Ilp32)?,
            ],
            &[*eight, *four],
        );
    }
    Ok(())
}

/// The place that is named for the first bytes of a text of one function, if they are no text.
fn place_of_cut(length: usize) -> Option<usize> {
    match length {
        0 | 20 => None,
        1..20 => Some(0),
        21..40 => Some(20),
        40..61 => Some(40),
        _ => Some(61),
    }
}

#[test]
fn cuts_are_refused(rt: HostRuntime) {
    let text = b"int main ( void ) ;\nint main ( void ) {\n  return ( 2 + 3 ) ;\n}\n";
    for length in 0..text.len() {
        let place = place_of(rt.alloc(), &text[..length]);
        equal(&rt, &length, &place, &Ok(place_of_cut(length)));
    }
}

/// The text of a program with a call that has so many arguments (C11 6.5.2.2).
fn calling(alloc: Global, arguments: usize) -> Result<Vec<u8>, Stop> {
    let mut text = Vec::new(alloc);
    text.extend_from_slice(
        b"int f ( int , ... ) ;\nint main ( void ) ;\nint main ( void ) {\n  f ( 0",
    )?;
    for _ in 1..arguments {
        text.extend_from_slice(b" , 0")?;
    }
    text.extend_from_slice(b" ) ;\n  return 0 ;\n}\n")?;
    Ok(text)
}

#[test]
fn a_call_of_any_length_is_read(rt: HostRuntime) -> Result<(), Fail> {
    let text = calling(rt.alloc(), 1_000_000)?;
    equal(&rt, &"place", &place_of(rt.alloc(), &text), &Ok(None));
    Ok(())
}
