//! A program of three units, which counts words, and each call that can fail while it is merged.

use crate::row::{CALM, Command, Row, rows_hold, text_of};
use std::alloc::Global;
use std::process::Abort;
use std::test::Fail;

/// How many bytes standard output takes in a call.
const PIECE: usize = 512;

const WORDS: Command = Command {
    words: &["merge", "main.c", "table.c", "words.c"],
    files: &[
        (
            "main.c",
            b"# 0 \"main.c\"\n# 0 \"<built-in>\"\n# 1 \"main.c\"\n# 1 \"host.h\" 1\n__extension__ typedef unsigned long size_t;\nextern int getchar (void);\nextern int putchar (int __c);\nextern void exit (int __status) __attribute__ ((__noreturn__));\nextern void abort (void) __attribute__ ((__noreturn__));\nextern void *malloc (size_t __size) __attribute__ ((__malloc__));\nextern void free (void *__ptr);\n# 2 \"main.c\" 2\n# 1 \"table.h\" 1\nstruct entry { struct entry *next; char *word; unsigned int count; };\nstruct table { struct entry *slot[8]; int used; };\ntypedef void (*visitor)(const struct entry *);\nextern unsigned int *look(struct table *t, const char *w);\nextern void visit(const struct table *t, visitor f);\nextern int word(char *buf, int room);\n# 3 \"main.c\" 2\nstatic struct table table;\nstatic int hash = 0;\nstatic void number(unsigned int n) {\n  if (n > 9) number(n / 10);\n  putchar('0' + (int)(n % 10));\n}\nstatic void show(const struct entry *e) {\n  const char *s = e->word;\n  while (*s) putchar(*s++);\n  putchar(' '); number(e->count); putchar('\\n');\n}\nint main(void) {\n  char buf[32];\n  while (word(buf, sizeof buf)) { hash++; ++*look(&table, buf); }\n  visit(&table, show);\n  return hash == 160 ? table.used : 1;\n}\n",
        ),
        (
            "table.c",
            b"# 0 \"table.c\"\n# 0 \"<built-in>\"\n# 1 \"table.c\"\n# 1 \"host.h\" 1\n__extension__ typedef unsigned long size_t;\nextern int getchar (void);\nextern int putchar (int __c);\nextern void exit (int __status) __attribute__ ((__noreturn__));\nextern void abort (void) __attribute__ ((__noreturn__));\nextern void *malloc (size_t __size) __attribute__ ((__malloc__));\nextern void free (void *__ptr);\n# 2 \"table.c\" 2\n# 1 \"table.h\" 1\nstruct entry { struct entry *next; char *word; unsigned int count; };\nstruct table { struct entry *slot[8]; int used; };\ntypedef void (*visitor)(const struct entry *);\nextern unsigned int *look(struct table *t, const char *w);\nextern void visit(const struct table *t, visitor f);\nextern int word(char *buf, int room);\n# 3 \"table.c\" 2\nstatic unsigned int hash(const char *s) {\n  unsigned int h = 0;\n  while (*s) h = h * 31 + (unsigned char)*s++;\n  return h & 7;\n}\nstatic char *copy(const char *s) {\n  size_t n = 0, i;\n  char *r;\n  while (s[n]) n++;\n  if (!(r = malloc(n + 1))) exit(2);\n  for (i = 0; i <= n; i++) r[i] = s[i];\n  return r;\n}\nstatic int same(const char *a, const char *b) {\n  while (*a && *a == *b) a++, b++;\n  return *a == *b;\n}\nunsigned int *look(struct table *t, const char *w) {\n  struct entry **p = &t->slot[hash(w)], *e;\n  for (e = *p; e; e = e->next)\n    if (same(e->word, w)) return &e->count;\n  e = malloc(sizeof *e);\n  if (!e) exit(2);\n  e->next = *p; e->word = copy(w); e->count = 0;\n  t->used++;\n  return (*p = e, &e->count);\n}\nvoid visit(const struct table *t, visitor f) {\n  int i;\n  const struct entry *e;\n  for (i = 0; i < 8; i++)\n    for (e = t->slot[i]; e; e = e->next) f(e);\n}\n",
        ),
        (
            "words.c",
            b"# 0 \"words.c\"\n# 0 \"<built-in>\"\n# 1 \"words.c\"\n# 1 \"host.h\" 1\n__extension__ typedef unsigned long size_t;\nextern int getchar (void);\nextern int putchar (int __c);\nextern void exit (int __status) __attribute__ ((__noreturn__));\nextern void abort (void) __attribute__ ((__noreturn__));\nextern void *malloc (size_t __size) __attribute__ ((__malloc__));\nextern void free (void *__ptr);\n# 2 \"words.c\" 2\n# 1 \"table.h\" 1\nstruct entry { struct entry *next; char *word; unsigned int count; };\nstruct table { struct entry *slot[8]; int used; };\ntypedef void (*visitor)(const struct entry *);\nextern unsigned int *look(struct table *t, const char *w);\nextern void visit(const struct table *t, visitor f);\nextern int word(char *buf, int room);\n# 3 \"words.c\" 2\nint word(char *buf, int room) {\n  int c, n = 0;\n  while ((c = getchar()) == ' ' || c == '\\n') ;\n  while (c != (-1) && c != ' ' && c != '\\n' && n < room - 1) {\n    buf[n++] = (char)c;\n    c = getchar();\n  }\n  buf[n] = 0;\n  return n;\n}\n",
        ),
    ],
    given: b"",
    piece: PIECE,
};

/// Each file is opened, read once and read to its end; a line that cannot be told changes no status.
const ROWS: [Row<'static>; 14] = [
    Row {
        files: &[0],
        status: 74,
        written: 0,
        told: "cil: read fault\n",
        ..CALM
    },
    Row {
        files: &[1],
        status: 74,
        written: 0,
        told: "cil: read fault\n",
        ..CALM
    },
    Row {
        files: &[2],
        status: 74,
        written: 0,
        told: "cil: read fault\n",
        ..CALM
    },
    Row {
        files: &[3],
        status: 74,
        written: 0,
        told: "cil: read fault\n",
        ..CALM
    },
    Row {
        files: &[4],
        status: 74,
        written: 0,
        told: "cil: read fault\n",
        ..CALM
    },
    Row {
        files: &[5],
        status: 74,
        written: 0,
        told: "cil: read fault\n",
        ..CALM
    },
    Row {
        files: &[6],
        status: 74,
        written: 0,
        told: "cil: read fault\n",
        ..CALM
    },
    Row {
        files: &[7],
        status: 74,
        written: 0,
        told: "cil: read fault\n",
        ..CALM
    },
    Row {
        files: &[8],
        status: 74,
        written: 0,
        told: "cil: read fault\n",
        ..CALM
    },
    Row {
        files: &[9],
        ..CALM
    },
    Row {
        out: &[0],
        err: &[0],
        status: 74,
        written: 0,
        ..CALM
    },
    Row {
        out: &[0],
        err: &[1],
        status: 74,
        written: 0,
        told: "cil: ",
        ..CALM
    },
    Row {
        out: &[0],
        err: &[2],
        status: 74,
        written: 0,
        told: "cil: write",
        ..CALM
    },
    Row {
        out: &[0],
        err: &[3],
        status: 74,
        written: 0,
        told: "cil: write faul",
        ..CALM
    },
];

#[test]
fn each_call_on_files_and_for_a_line_fails(rt: HostRuntime) -> Result<(), Fail> {
    let text = text_of(rt.alloc(), &WORDS)?;
    rows_hold(&rt, rt.alloc(), &WORDS, &text, &ROWS)
}

/// Each call on standard output fails, to the first that comes behind the text.
fn writes_fail(rt: &impl Abort, alloc: Global, text: &[u8]) -> Result<(), Fail> {
    for number in 0..text.len() / PIECE + 1 {
        let row = Row {
            out: &[number as u64],
            status: 74,
            written: number * PIECE,
            told: "cil: write fault\n",
            ..CALM
        };
        rows_hold(rt, alloc, &WORDS, text, &[row])?;
    }
    let behind = Row { out: &[64], ..CALM };
    rows_hold(rt, alloc, &WORDS, text, &[behind])
}

#[test]
fn each_call_on_standard_output_fails(rt: HostRuntime) -> Result<(), Fail> {
    let text = text_of(rt.alloc(), &WORDS)?;
    assert!(rt; text.len() > PIECE && text.len() < PIECE * 64);
    writes_fail(&rt, rt.alloc(), &text)
}
