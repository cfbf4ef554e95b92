/// The tower on a field: pairs a + bZ of its codes, where ZZ = Z + c. Of the number c the low bits count.
#[derive(Clone, Copy)]
pub struct Tower<F> {
    pub(crate) base: F,
    pub(crate) c: u32,
}
