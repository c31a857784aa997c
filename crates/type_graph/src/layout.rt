/// The size and the alignment of a complete object type in bytes (C11 6.5.3.4, 6.2.8).
#[derive(Clone, Copy)]
pub struct Layout {
    pub size: u32,
    pub align: u32,
}
