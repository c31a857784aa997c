use crate::row::{Expected, Row, Tentative, holds};
use cil_base::Fault;
use std::alloc::Global;
use std::process::Abort;
use std::test::Fail;

const ROWS: [Row; 17] = [
    Row {
        name: "structs that reach each other are one in three units",
        units: &[
            "\
struct node ;
struct list ;
struct node {
  struct node * next ;
  struct list * owner ;
} ;
struct list {
  struct node * head ;
} ;
int count ( struct list * ) ;
",
            "\
struct list ;
struct node ;
struct list {
  struct node * head ;
} ;
struct node {
  struct node * next ;
  struct list * owner ;
} ;
extern struct node one ;
void add ( struct list * ) ;
struct node one ;
",
            "\
struct list ;
struct node ;
struct list {
  struct node * head ;
} ;
struct node {
  struct node * next ;
  struct list * owner ;
} ;
int count ( struct list * ) ;
void add ( struct list * ) ;
static struct list all ;
",
        ],
        tentative: Tentative::Apart,
        expected: Expected::Text(
            "\
struct node ;
struct list ;
struct node {
  struct node * next ;
  struct list * owner ;
} ;
struct list {
  struct node * head ;
} ;
int count ( struct list * ) ;
extern struct node one ;
void add ( struct list * ) ;
static struct list all ;
struct node one ;
",
        ),
    },
    Row {
        name: "unlinked structs with other members are two",
        units: &[
            "\
struct s ;
struct s {
  int a ;
} ;
static struct s v ;
int main ( void ) ;
int main ( void ) {
  v . a = 3 ;
  return v . a ;
}
",
            "\
struct s ;
struct s {
  long a ;
} ;
long g ( struct s * ) ;
long g ( struct s * p ) {
  return ( * p ) . a ;
}
",
        ],
        tentative: Tentative::Apart,
        expected: Expected::Text(
            "\
struct s ;
struct s___0 ;
struct s {
  int a ;
} ;
struct s___0 {
  long a ;
} ;
static struct s v ;
int main ( void ) ;
long g ( struct s___0 * ) ;
int main ( void ) {
  v . a = 3 ;
  return v . a ;
}
long g ( struct s___0 * p ) {
  return ( * p ) . a ;
}
",
        ),
    },
    Row {
        name: "linked structs with other members clash",
        units: &[
            "\
struct s ;
struct s {
  int a ;
} ;
extern struct s * p ;
",
            "\
struct s ;
struct s {
  long a ;
} ;
extern struct s * p ;
struct s * p ;
",
        ],
        tentative: Tentative::Apart,
        expected: Expected::Refused(Fault::Incompatible, (1, 0), (0, 0)),
    },
    Row {
        name: "an incomplete struct is completed by a link",
        units: &[
            "\
struct s ;
struct s * make ( void ) ;
int get ( struct s * ) ;
",
            "\
struct s ;
struct s {
  int a ;
} ;
static struct s one ;
struct s * make ( void ) ;
int get ( struct s * ) ;
static struct s one = { . a = 9 } ;
struct s * make ( void ) {
  return ( & one ) ;
}
int get ( struct s * p ) {
  return ( * p ) . a ;
}
",
        ],
        tentative: Tentative::Apart,
        expected: Expected::Text(
            "\
struct s ;
struct s {
  int a ;
} ;
struct s * make ( void ) ;
int get ( struct s * ) ;
static struct s one ;
static struct s one = { . a = 9 } ;
struct s * make ( void ) {
  return ( & one ) ;
}
int get ( struct s * p ) {
  return ( * p ) . a ;
}
",
        ),
    },
    Row {
        name: "two complete structs meet through an incomplete one",
        units: &[
            "\
struct s ;
struct s {
  int a ;
} ;
struct s * f ( void ) ;
",
            "\
struct s ;
struct s * f ( void ) ;
struct s * g ( void ) ;
",
            "\
struct s ;
struct s {
  long a ;
} ;
struct s * g ( void ) ;
",
        ],
        tentative: Tentative::Apart,
        expected: Expected::Refused(Fault::Incompatible, (2, 0), (1, 1)),
    },
    Row {
        name: "isomorphic structs without a link are one",
        units: &[
            "\
struct s ;
struct s {
  int a ;
} ;
static struct s v ;
",
            "\
struct s___0 ;
struct s___0 {
  int a ;
} ;
static struct s___0 w ;
",
        ],
        tentative: Tentative::Apart,
        expected: Expected::Text(
            "\
struct s ;
struct s {
  int a ;
} ;
static struct s v ;
static struct s w ;
",
        ),
    },
    Row {
        name: "isomorphic structs of one unit are one",
        units: &[
            "\
struct n ;
struct n___0 ;
struct n {
  struct n * p ;
} ;
struct n___0 {
  struct n___0 * p ;
} ;
static struct n a ;
static struct n___0 b ;
",
        ],
        tentative: Tentative::Apart,
        expected: Expected::Text(
            "\
struct n ;
struct n {
  struct n * p ;
} ;
static struct n a ;
static struct n b ;
",
        ),
    },
    Row {
        name: "structs of two tags stay apart in whatever order",
        units: &[
            "\
struct p ;
struct q ;
struct p {
  struct q * x ;
} ;
struct q {
  struct p * x ;
} ;
static struct p v ;
",
            "\
struct q ;
struct p ;
struct q {
  struct p * x ;
} ;
struct p {
  struct q * x ;
} ;
static struct q w ;
",
        ],
        tentative: Tentative::Apart,
        expected: Expected::Text(
            "\
struct p ;
struct q ;
struct p {
  struct q * x ;
} ;
struct q {
  struct p * x ;
} ;
static struct p v ;
static struct q w ;
",
        ),
    },
    Row {
        name: "incomplete structs without a link stay apart",
        units: &[
            "\
struct s ;
extern struct s * x ;
",
            "\
struct s ;
extern struct s * y ;
",
        ],
        tentative: Tentative::Apart,
        expected: Expected::Text(
            "\
struct s ;
struct s___0 ;
extern struct s * x ;
extern struct s___0 * y ;
",
        ),
    },
    Row {
        name: "the element of an array stands before the struct that names the array",
        units: &[
            "\
struct s ;
struct u ;
struct s {
  struct u * x ;
} ;
struct u {
  struct s ( * p ) [ 3 ] ;
} ;
static struct u v ;
",
            "\
struct s ;
struct t ;
struct s {
  int a ;
} ;
struct t {
  struct s ( * p ) [ 3 ] ;
} ;
static struct t w ;
",
        ],
        tentative: Tentative::Apart,
        expected: Expected::Text(
            "\
struct s ;
struct u ;
struct s___0 ;
struct t ;
struct s {
  struct u * x ;
} ;
struct u {
  struct s ( * p ) [ 3 ] ;
} ;
struct s___0 {
  int a ;
} ;
struct t {
  struct s___0 ( * p ) [ 3 ] ;
} ;
static struct u v ;
static struct t w ;
",
        ),
    },
    Row {
        name: "enums stand first, and enumerators are named once for a class",
        units: &[
            "\
enum e {
  A = 0 ,
  B = 5 ,
} ;
struct s ;
struct s {
  enum e k ;
} ;
static struct s v ;
",
            "\
enum e {
  A___0 = 0 ,
  B = 5 ,
} ;
enum f {
  A = 1 ,
} ;
static enum e w ;
static enum f x ;
",
        ],
        tentative: Tentative::Apart,
        expected: Expected::Text(
            "\
enum e {
  A = 0 ,
  B = 5 ,
} ;
enum f {
  A___0 = 1 ,
} ;
struct s ;
struct s {
  enum e k ;
} ;
static struct s v ;
static enum e w ;
static enum f x ;
",
        ),
    },
    Row {
        name: "tags are given in the printed order",
        units: &[
            "\
struct s ;
struct s {
  int a ;
} ;
static struct s v ;
",
            "\
struct s___0 ;
struct s___0 {
  long a ;
} ;
static struct s___0 w ;
",
            "\
enum s {
  A = 0 ,
} ;
static enum s x ;
",
        ],
        tentative: Tentative::Apart,
        expected: Expected::Text(
            "\
enum s {
  A = 0 ,
} ;
struct s___0 ;
struct s___0___0 ;
struct s___0 {
  int a ;
} ;
struct s___0___0 {
  long a ;
} ;
static struct s___0 v ;
static struct s___0___0 w ;
static enum s x ;
",
        ),
    },
    Row {
        name: "an enumerator is named with its unit, a tag is no such name",
        units: &[
            "\
enum e {
  A = 0 ,
} ;
struct A ;
static enum e v ;
static struct A * p ;
",
            "\
static int A ;
",
            "\
enum e {
  A = 1 ,
} ;
static enum e w ;
",
            "\
enum e___0 {
  A___5 = 1 ,
} ;
static enum e___0 x ;
",
        ],
        tentative: Tentative::Apart,
        expected: Expected::Text(
            "\
enum e {
  A = 0 ,
} ;
enum e___0 {
  A___1 = 1 ,
} ;
struct A ;
static enum e v ;
static struct A * p ;
static int A___0 ;
static enum e___0 w ;
static enum e___0 x ;
",
        ),
    },
    Row {
        name: "an enum fits no integer type of another unit",
        units: &[
            "\
enum e {
  A = 0 ,
} ;
extern enum e x ;
",
            "\
extern int x ;
",
        ],
        tentative: Tentative::Apart,
        expected: Expected::Refused(Fault::Incompatible, (1, 0), (0, 0)),
    },
    Row {
        name: "a parameter of a function pointer is the one link",
        units: &[
            "\
struct s ;
extern void ( * f ) ( struct s * ) ;
",
            "\
struct s ;
struct s {
  int a ;
} ;
extern void ( * f ) ( struct s * ) ;
",
        ],
        tentative: Tentative::Apart,
        expected: Expected::Text(
            "\
struct s ;
struct s {
  int a ;
} ;
extern void ( * f ) ( struct s * ) ;
",
        ),
    },
    Row {
        name: "a parameter of a function pointer clashes",
        units: &[
            "\
struct s ;
struct s {
  long a ;
} ;
extern int x ;
extern void ( * f ) ( struct s * ) ;
",
            "\
struct s ;
struct s {
  int a ;
} ;
extern void ( * f ) ( struct s * ) ;
extern int x ;
",
        ],
        tentative: Tentative::Apart,
        expected: Expected::Refused(Fault::Incompatible, (1, 0), (0, 1)),
    },
    Row {
        name: "structs that differ where they reach each other stay apart in whatever order",
        units: &[
            "\
struct a ;
struct b ;
struct a {
  struct b * x ;
} ;
struct b {
  struct a * x ;
  int n ;
} ;
static struct a v ;
",
            "\
struct b ;
struct a ;
struct b {
  struct a * x ;
  long n ;
} ;
struct a {
  struct b * x ;
} ;
static struct a w ;
",
        ],
        tentative: Tentative::Apart,
        expected: Expected::Text(
            "\
struct a ;
struct b ;
struct b___0 ;
struct a___0 ;
struct a {
  struct b * x ;
} ;
struct b {
  struct a * x ;
  int n ;
} ;
struct b___0 {
  struct a___0 * x ;
  long n ;
} ;
struct a___0 {
  struct b___0 * x ;
} ;
static struct a v ;
static struct a___0 w ;
",
        ),
    },
];

#[test]
fn types_are_merged(rt: HostRuntime) -> Result<(), Fail> {
    for row in ROWS {
        assert!(rt; holds(rt.alloc(), row)?, "{}", row.name);
    }
    Ok(())
}
