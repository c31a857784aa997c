//! The words of the units, which stand before and behind the numbers in them.

ghost use Rattle.std.specs.Prelude.{◌≡◌};
ghost use Rattle.sample_units.specs.Units as words;

/// The line that declares the struct of cells.
#[tactic(auto, unfolding(crate::specs::Units::node_line))]
pub(crate) fn node_line() -> &'static [u8]
    ensures { result.now ≡ words.node_line }
{
    b"struct node { struct node *next; struct list *owner; int value; };\n"
}

/// The line that declares the struct of lists.
#[tactic(auto, unfolding(crate::specs::Units::list_line))]
pub(crate) fn list_line() -> &'static [u8]
    ensures { result.now ≡ words.list_line }
{
    b"struct list { struct node *head; int count; };\n"
}

/// What stands before the number of a unit's cell.
#[tactic(auto, unfolding(crate::specs::Units::cell_words))]
pub(crate) fn cell_words() -> &'static [u8]
    ensures { result.now ≡ words.cell_words }
{
    b"extern struct list all;\nstatic struct node cell = { 0, &all, "
}

/// What stands before its factor.
#[tactic(auto, unfolding(crate::specs::Units::factor_words))]
pub(crate) fn factor_words() -> &'static [u8]
    ensures { result.now ≡ words.factor_words }
{
    b" };\nstatic int twist(int x) { return x * "
}

/// What stands before its number.
#[tactic(auto, unfolding(crate::specs::Units::work_words))]
pub(crate) fn work_words() -> &'static [u8]
    ensures { result.now ≡ words.work_words }
{
    b" + cell.value; }\nint work_"
}

/// The rest of its function.
#[tactic(auto, unfolding(crate::specs::Units::work_rest))]
pub(crate) fn work_rest() -> &'static [u8]
    ensures { result.now ≡ words.work_rest }
{
    b"(int n) {\n  struct node *p; int i, s = 0;\n  cell.next = all.head; all.head = &cell; all.count++;\n  for (i = 0; i < n; i++) s = (s + twist(i)) & 1023;\n  for (p = all.head; p; p = p->next) s = (s + p->value) & 1023;\n  return s;\n}\n"
}

/// What stands before a unit's number in the declaration of its function.
#[tactic(auto, unfolding(crate::specs::Units::declaration_words))]
pub(crate) fn declaration_words() -> &'static [u8]
    ensures { result.now ≡ words.declaration_words }
{
    b"int work_"
}

/// What stands behind it.
#[tactic(auto, unfolding(crate::specs::Units::declaration_rest))]
pub(crate) fn declaration_rest() -> &'static [u8]
    ensures { result.now ≡ words.declaration_rest }
{
    b"(int n);\n"
}

/// What stands before a unit's number in the call of its function.
#[tactic(auto, unfolding(crate::specs::Units::call_words))]
pub(crate) fn call_words() -> &'static [u8]
    ensures { result.now ≡ words.call_words }
{
    b"  t = (t + work_"
}

/// What stands behind it.
#[tactic(auto, unfolding(crate::specs::Units::call_rest))]
pub(crate) fn call_rest() -> &'static [u8]
    ensures { result.now ≡ words.call_rest }
{
    b"(10)) & 1023; put(t); putchar('\\n');\n"
}

/// What stands before the calls of the units' functions.
#[tactic(auto, unfolding(crate::specs::Units::main_begin))]
pub(crate) fn main_begin() -> &'static [u8]
    ensures { result.now ≡ words.main_begin }
{
    b"int putchar(int);\nstruct list all;\nstatic void put(int v) { if (v > 9) put(v / 10); putchar('0' + v % 10); }\nint main(void) {\n  int t = 0;\n"
}

/// What stands behind them.
#[tactic(auto, unfolding(crate::specs::Units::main_end))]
pub(crate) fn main_end() -> &'static [u8]
    ensures { result.now ≡ words.main_end }
{
    b"  return all.count;\n}\n"
}
