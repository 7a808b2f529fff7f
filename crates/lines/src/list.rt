// The list of a line of create_curve_shape: what it holds before the call, and its hash afterwards
// (oracle/README.md).

// Fills a list as it is before the call.
pub fn fill(list: &mut [f32]) {
    for (i, x) in list.iter_mut().enumerate() {
        let i = (i % 0x1_0000_0000) as u32; // the low 32 bits
        *x = float::of_bits(i.wrapping_mul(2654435761) ^ 0x3f80_0000);
    }
}

// The hash of a list, FNV-1a by words.
pub fn hash(list: &[f32]) -> u64 {
    list.iter().fold(0xcbf2_9ce4_8422_2325, |h: u64, x| {
        (h ^ u64::from(float::to_bits(*x))).wrapping_mul(0x100_0000_01b3)
    })
}
