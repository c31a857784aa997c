use crate::row::{Expected, Row, Tentative, holds};
use cil_base::Fault;
use std::alloc::Global;
use std::process::Abort;
use std::test::Fail;

const ROWS: [Row; 23] = [
    Row {
        name: "statics of one name get suffixes",
        units: &[
            "\
static int n ;
int f ( void ) ;
static int n = 1 ;
int f ( void ) {
  return n ;
}
",
            "\
static int n ;
int g ( void ) ;
static int n = 2 ;
int g ( void ) {
  return n ;
}
",
            "\
extern int n ;
int f ( void ) ;
int g ( void ) ;
int main ( void ) ;
int n = 4 ;
int main ( void ) {
  int __t___0 ;
  int __t___1 ;
  __t___0 = f ( ) ;
  __t___1 = g ( ) ;
  return ( ( __t___0 + ( __t___1 * 10 ) ) + n ) ;
}
",
        ],
        tentative: Tentative::Apart,
        expected: Expected::Text(
            "\
static int n___0 ;
int f ( void ) ;
static int n___1 ;
int g ( void ) ;
extern int n ;
int main ( void ) ;
static int n___0 = 1 ;
static int n___1 = 2 ;
int n = 4 ;
int f ( void ) {
  return n___0 ;
}
int g ( void ) {
  return n___1 ;
}
int main ( void ) {
  int __t___0 ;
  int __t___1 ;
  __t___0 = f ( ) ;
  __t___1 = g ( ) ;
  return ( ( __t___0 + ( __t___1 * 10 ) ) + n ) ;
}
",
        ),
    },
    Row {
        name: "two definitions with values",
        units: &[
            "\
extern int n ;
int n = 1 ;
",
            "\
extern int n ;
int n = 1 ;
",
        ],
        tentative: Tentative::Apart,
        expected: Expected::Refused(Fault::Duplicate, (1, 0), (0, 0)),
    },
    Row {
        name: "two definitions with values under common",
        units: &[
            "\
extern int n ;
int n = 1 ;
",
            "\
extern int n ;
int n = 1 ;
",
        ],
        tentative: Tentative::Common,
        expected: Expected::Refused(Fault::Duplicate, (1, 0), (0, 0)),
    },
    Row {
        name: "two tentative definitions",
        units: &[
            "\
extern int n ;
int n ;
",
            "\
extern int n ;
int n ;
",
        ],
        tentative: Tentative::Apart,
        expected: Expected::Refused(Fault::Duplicate, (1, 0), (0, 0)),
    },
    Row {
        name: "two tentative definitions under common",
        units: &[
            "\
extern int n ;
int n ;
",
            "\
extern int n ;
int n ;
",
        ],
        tentative: Tentative::Common,
        expected: Expected::Text(
            "\
extern int n ;
int n ;
",
        ),
    },
    Row {
        name: "a value beside a tentative definition",
        units: &[
            "\
extern int n ;
int n = 7 ;
",
            "\
extern int n ;
int n ;
",
        ],
        tentative: Tentative::Apart,
        expected: Expected::Refused(Fault::Duplicate, (1, 0), (0, 0)),
    },
    Row {
        name: "a value before a tentative definition under common",
        units: &[
            "\
extern int n ;
int n = 7 ;
",
            "\
extern int n ;
int n ;
",
        ],
        tentative: Tentative::Common,
        expected: Expected::Text(
            "\
extern int n ;
int n = 7 ;
",
        ),
    },
    Row {
        name: "a value behind a tentative definition under common",
        units: &[
            "\
extern int n ;
int n ;
",
            "\
extern int n ;
int n = 7 ;
",
        ],
        tentative: Tentative::Common,
        expected: Expected::Text(
            "\
extern int n ;
int n = 7 ;
",
        ),
    },
    Row {
        name: "the first duplicate by first appearance",
        units: &[
            "\
extern int a ;
extern int b ;
int b ;
",
            "\
extern int b ;
extern int a ;
int b ;
int a ;
",
            "\
extern int a ;
int a ;
",
        ],
        tentative: Tentative::Apart,
        expected: Expected::Refused(Fault::Duplicate, (2, 0), (1, 1)),
    },
    Row {
        name: "duplicates come before clashes",
        units: &[
            "\
extern int a ;
extern int b ;
int b ;
",
            "\
extern long a ;
extern int b ;
int b ;
",
        ],
        tentative: Tentative::Apart,
        expected: Expected::Refused(Fault::Duplicate, (1, 1), (0, 1)),
    },
    Row {
        name: "a bound comes from another unit",
        units: &[
            "\
extern int x [ ] ;
int f ( void ) ;
int f ( void ) {
  return x [ 1 ] ;
}
",
            "\
extern int x [ 3 ] ;
int x [ 3 ] = { [ 1 ] = 5 } ;
",
        ],
        tentative: Tentative::Apart,
        expected: Expected::Text(
            "\
extern int x [ 3 ] ;
int f ( void ) ;
int x [ 3 ] = { [ 1 ] = 5 } ;
int f ( void ) {
  return ( * ( ( int ( * ) [ ] ) ( & x ) ) ) [ 1 ] ;
}
",
        ),
    },
    Row {
        name: "two bounds clash",
        units: &[
            "\
extern int x [ 2 ] ;
",
            "\
extern int x [ ] ;
",
            "\
extern int x [ 3 ] ;
",
        ],
        tentative: Tentative::Apart,
        expected: Expected::Refused(Fault::Incompatible, (2, 0), (0, 0)),
    },
    Row {
        name: "a call without prototype of a function with one",
        units: &[
            "\
int f ( ) ;
int g ( void ) ;
int g ( void ) {
  int __t___0 ;
  __t___0 = f ( 1 ) ;
  return __t___0 ;
}
",
            "\
int f ( int ) ;
int f ( int a ) {
  return a ;
}
",
        ],
        tentative: Tentative::Apart,
        expected: Expected::Text(
            "\
int f ( int ) ;
int g ( void ) ;
int f ( int a ) {
  return a ;
}
int g ( void ) {
  int __t___0 ;
  __t___0 = ( * ( ( int ( * ) ( ) ) ( & f ) ) ) ( 1 ) ;
  return __t___0 ;
}
",
        ),
    },
    Row {
        name: "promotions change a parameter",
        units: &[
            "\
int f ( ) ;
",
            "\
int f ( char ) ;
",
        ],
        tentative: Tentative::Apart,
        expected: Expected::Refused(Fault::Incompatible, (1, 0), (0, 0)),
    },
    Row {
        name: "promotions do not fit what ends in dots",
        units: &[
            "\
int f ( ) ;
",
            "\
int f ( int , ... ) ;
",
        ],
        tentative: Tentative::Apart,
        expected: Expected::Refused(Fault::Incompatible, (1, 0), (0, 0)),
    },
    Row {
        name: "a definition without prototype takes no parameters",
        units: &[
            "\
int f ( ) ;
int f ( ) {
  return 1 ;
}
",
            "\
int f ( int ) ;
",
        ],
        tentative: Tentative::Apart,
        expected: Expected::Refused(Fault::Incompatible, (1, 0), (0, 0)),
    },
    Row {
        name: "a definition without prototype fits one without parameters",
        units: &[
            "\
int f ( ) ;
int f ( ) {
  return 1 ;
}
",
            "\
int f ( void ) ;
",
        ],
        tentative: Tentative::Apart,
        expected: Expected::Text(
            "\
int f ( void ) ;
int f ( void ) {
  return 1 ;
}
",
        ),
    },
    Row {
        name: "the later pair of an unprototyped definition",
        units: &[
            "\
int f ( int ) ;
",
            "\
int f ( ) ;
",
            "\
int f ( ) ;
int f ( ) {
  return 1 ;
}
",
        ],
        tentative: Tentative::Apart,
        expected: Expected::Refused(Fault::Incompatible, (2, 0), (0, 0)),
    },
    Row {
        name: "locals avoid names of other units",
        units: &[
            "\
static int n ;
int f ( int ) ;
int f ( int m ) {
  int exit___0 ;
  exit___0 = m ;
  return exit___0 ;
}
",
            "\
extern int m ;
int m ;
",
        ],
        tentative: Tentative::Apart,
        expected: Expected::Text(
            "\
static int n ;
int f ( int ) ;
extern int m ;
int m ;
int f ( int m___0 ) {
  int exit___0 ;
  exit___0 = m___0 ;
  return exit___0 ;
}
",
        ),
    },
    Row {
        name: "the least number that is new",
        units: &[
            "\
static int n ;
static int n___1 ;
",
            "\
static int n ;
static int n___0 ;
",
            "\
static int n ;
",
        ],
        tentative: Tentative::Apart,
        expected: Expected::Text(
            "\
static int n ;
static int n___1 ;
static int n___0 ;
static int n___0___0 ;
static int n___2 ;
",
        ),
    },
    Row {
        name: "an external name that is first in a later unit",
        units: &[
            "\
extern int a ;
static int s_x ;
static int s_x = 1 ;
",
            "\
extern int b ;
extern int a ;
int b ;
int a ;
",
        ],
        tentative: Tentative::Apart,
        expected: Expected::Text(
            "\
extern int a ;
static int s_x ;
extern int b ;
int a ;
static int s_x = 1 ;
int b ;
",
        ),
    },
    Row {
        name: "a unit merged with itself has its static functions and objects twice",
        units: &[
            "\
static int n ;
static int f ( void ) ;
static int n = 1 ;
static int f ( void ) {
  return n ;
}
",
            "\
static int n ;
static int f ( void ) ;
static int n = 1 ;
static int f ( void ) {
  return n ;
}
",
        ],
        tentative: Tentative::Apart,
        expected: Expected::Text(
            "\
static int n ;
static int f ( void ) ;
static int n___0 ;
static int f___0 ( void ) ;
static int n = 1 ;
static int n___0 = 1 ;
static int f ( void ) {
  return n ;
}
static int f___0 ( void ) {
  return n___0 ;
}
",
        ),
    },
    Row {
        name: "statics of one name in 26 units",
        units: &["static int n ;\n"; 26],
        tentative: Tentative::Apart,
        expected: Expected::Text(
            "\
static int n ;
static int n___0 ;
static int n___1 ;
static int n___2 ;
static int n___3 ;
static int n___4 ;
static int n___5 ;
static int n___6 ;
static int n___7 ;
static int n___8 ;
static int n___9 ;
static int n___10 ;
static int n___11 ;
static int n___12 ;
static int n___13 ;
static int n___14 ;
static int n___15 ;
static int n___16 ;
static int n___17 ;
static int n___18 ;
static int n___19 ;
static int n___20 ;
static int n___21 ;
static int n___22 ;
static int n___23 ;
static int n___24 ;
",
        ),
    },
];

#[test]
fn names_are_linked(rt: HostRuntime) -> Result<(), Fail> {
    for row in ROWS {
        assert!(rt; holds(rt.alloc(), row)?, "{}", row.name);
    }
    Ok(())
}
