/// A unit, and the numbers that its nodes have, each before those of its parts.
pub(crate) struct Row {
    pub(crate) source: &'static str,
    pub(crate) numbers: &'static [u32],
}

/// Units in which each construct stands once, by the clauses of C11.
pub(crate) const ROWS: [Row; 14] = [
    // 6.5.1, 6.5.2: primary and postfix expressions
    Row {
        source: "void f ( void ) { 1 ; 'c' ; \"s\" \"t\" ; ( a ) ; a [ 1 ] ; f ( a , 2 ) ; a . m ; p -> q -> m ; a ++ ; a -- ; }",
        numbers: &[
            0, 0, 0, 1, 1, 3, 3, 3, 4, 5, 6, 6, 6, 8, 8, 8, 10, 10, 10, 13, 13, 13, 14, 17, 17, 17,
            17, 19, 22, 22, 22, 22, 24, 26, 29, 29, 29, 29, 33, 33, 33, 33, 33, 39, 39, 39, 39, 42,
            42, 42, 42,
        ],
    },
    // 6.5.2.5: a compound literal
    Row {
        source: "void f ( void ) { a = ( struct t ) { . m = 1 , 2 , } ; }",
        numbers: &[
            0, 0, 0, 1, 1, 3, 3, 3, 4, 5, 6, 6, 6, 6, 8, 9, 9, 9, 11, 13, 13, 16, 16, 18, 18, 18,
        ],
    },
    // 6.5.3, 6.5.4: unary operators and casts
    Row {
        source: "void f ( void ) { ++ a ; -- a ; & a ; * ! ~ - a ; sizeof a ; sizeof ( int * ) ; _Alignof ( char ) ; ( char ) a ; }",
        numbers: &[
            0, 0, 0, 1, 1, 3, 3, 3, 4, 5, 6, 6, 6, 7, 9, 9, 9, 10, 12, 12, 12, 13, 15, 15, 15, 16,
            17, 18, 19, 21, 21, 21, 22, 24, 24, 24, 26, 26, 26, 27, 28, 30, 30, 30, 32, 32, 32, 33,
            35, 35, 35, 36, 36, 36, 37, 38,
        ],
    },
    // 6.5.5 to 6.5.17: binary and later operators
    Row {
        source: "void f ( void ) { a + b - c * d ; a && b || c ; a ? b : c ; a = b += c ; a , b ; }",
        numbers: &[
            0, 0, 0, 1, 1, 3, 3, 3, 4, 5, 6, 6, 6, 6, 6, 8, 10, 10, 12, 14, 14, 14, 14, 14, 16, 18,
            20, 20, 20, 20, 22, 24, 26, 26, 26, 26, 28, 28, 30, 32, 32, 32, 32, 34,
        ],
    },
    // 6.7.1 to 6.7.5, 6.7.8: specifiers
    Row {
        source: "typedef int T ; static const unsigned long a ; extern T b ; inline int f ( void ) ; struct t * p ;",
        numbers: &[
            0, 0, 0, 0, 1, 2, 4, 4, 4, 4, 5, 6, 7, 8, 10, 10, 10, 10, 11, 12, 14, 14, 14, 14, 15,
            16, 16, 18, 18, 18, 19, 21, 21, 21, 21, 23, 24,
        ],
    },
    // 6.7.2.1: members, bit-fields, a static assertion
    Row {
        source: "struct t { int a , * b ; const int c : 3 , : 2 ; _Static_assert ( 1 , \"x\" ) ; } v ;",
        numbers: &[
            0, 0, 0, 0, 3, 3, 3, 4, 4, 6, 6, 7, 9, 9, 9, 10, 11, 11, 13, 15, 15, 16, 18, 20, 22, 26,
        ],
    },
    // 6.7.2.2: enumerators
    Row {
        source: "enum e { A , B = A + 1 , } ;",
        numbers: &[0, 0, 0, 0, 3, 5, 7, 7, 9],
    },
    // 6.7.6: declarators
    Row {
        source: "int ( * p ) [ 3 ] , g ( int , char * c , ... ) , h ( ) ; int * const q ;",
        numbers: &[
            0, 0, 0, 0, 1, 1, 2, 3, 5, 6, 9, 9, 11, 11, 11, 12, 13, 13, 13, 14, 15, 20, 20, 24, 24,
            24, 24, 25, 27,
        ],
    },
    // 6.7.6.2: bounds
    Row {
        source: "void f ( int a [ ] , int b [ * ] , int c [ const 2 ] , int d [ static 4 ] , int e [ const static 5 ] ) ;",
        numbers: &[
            0, 0, 0, 0, 1, 1, 3, 3, 3, 4, 4, 5, 8, 8, 8, 9, 9, 10, 14, 14, 14, 15, 15, 16, 18, 21,
            21, 21, 22, 22, 23, 25, 28, 28, 28, 29, 29, 30, 33,
        ],
    },
    // 6.7.6.3, 6.9.1: an identifier list and its declarations
    Row {
        source: "int f ( a , b ) int a ; char b ; { return a + b ; }",
        numbers: &[
            0, 0, 0, 1, 1, 7, 7, 7, 8, 10, 10, 10, 11, 13, 14, 14, 15, 15, 17,
        ],
    },
    // 6.7.9: initialisers and designators
    Row {
        source: "int x = 1 , y [ ] = { [ 1 ] . m = { 2 , } , 3 } ;",
        numbers: &[
            0, 0, 0, 0, 1, 3, 3, 5, 5, 6, 9, 10, 10, 11, 13, 16, 17, 17, 17, 21, 21, 21,
        ],
    },
    // 6.7.10: a static assertion
    Row {
        source: "_Static_assert ( 1 , \"a\" \"b\" ) ;",
        numbers: &[0, 0, 2, 4],
    },
    // 6.8.1, 6.8.2, 6.8.4: labels, blocks, selection
    Row {
        source: "void f ( void ) { l : m : a ; { int x ; ; } if ( a ) ; if ( a ) b ; else c ; switch ( a ) { case 1 : default : break ; } }",
        numbers: &[
            0, 0, 0, 1, 1, 3, 3, 3, 4, 5, 6, 6, 8, 10, 10, 12, 12, 13, 13, 13, 13, 14, 16, 16, 18,
            18, 20, 22, 23, 23, 25, 27, 27, 30, 30, 32, 32, 34, 36, 37, 37, 38, 40, 42,
        ],
    },
    // 6.8.5, 6.8.6: iteration and jumps
    Row {
        source: "void f ( void ) { while ( a ) continue ; do ; while ( a ) ; for ( a = 0 ; a < 3 ; a ++ ) ; for ( int i = 0 ; ; ) { } goto l ; l : return ; return a ; }",
        numbers: &[
            0, 0, 0, 1, 1, 3, 3, 3, 4, 5, 6, 6, 8, 10, 12, 12, 13, 16, 19, 19, 21, 21, 23, 25, 25,
            27, 29, 29, 32, 33, 33, 35, 35, 35, 36, 38, 38, 42, 44, 44, 47, 47, 49, 51, 51, 52,
        ],
    },
];
