/// The numbers of bytes that a declaration of a type has before and behind what it declares, or the greatest number.
#[derive(Clone, Copy)]
pub(crate) struct Sides {
    pub before: u64,
    pub behind: u64,
}
