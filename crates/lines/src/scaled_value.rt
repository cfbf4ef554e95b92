/// The scaled field on a field, for tests: its products carry a factor, so that its one need not be the code 1.
/// Of the factor and the one the low bits count.
#[derive(Clone, Copy)]
pub struct Scaled<F> {
    pub(crate) base: F,
    pub(crate) factor: u8,
    pub(crate) one: u8,
}
