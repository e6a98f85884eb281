// Checksums.

// A checksum of bytes in their order.
pub fn checksum(bytes: &[u8]) -> u64 {
    let mut sum: u32 = 0;
    for &byte in bytes {
        sum = sum.wrapping_mul(16_777_619).wrapping_add(u32::from(byte));
    }
    u64::from(sum)
}
