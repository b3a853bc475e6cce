/// A decoded value. A finite number is significand * 2^shift, counted in the format's least
/// non-zero number. Its significand is not 0.
#[derive(Clone, Copy)]
pub enum Unpacked {
    Zero(bool),
    Finite {
        negative: bool,
        shift: u64,
        significand: u64,
    },
    Infinity(bool),
    Nan {
        negative: bool,
        signaling: bool,
        payload: u64,
    },
}
