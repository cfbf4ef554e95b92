use crate::modulus_value::Modulus;

/// Arithmetic modulo a modulus, over the field that the modulus was made over.
#[derive(Clone, Copy)]
pub struct Modular<'f, 'm, F> {
    pub field: &'f F,
    pub modulus: &'m Modulus,
}
